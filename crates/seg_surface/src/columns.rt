//! Columns: readers of bytes that were written by hand, and files that are written and merged.
//!
//! To be read in this order: `answers` (how files and columns are printed); `texts`, `files`, `fast_fields` (reading);
//! `written_files`, `merges`, `fast_field_file`.

mod answers;
mod fast_field_file;
mod fast_fields;
mod files;
mod merges;
mod texts;
mod written_files;

use crate::lines::Lines;

pub(crate) fn add_columns(lines: &mut Lines) {
    lines.add("# columns");
    texts::add_texts(lines);
    files::add_files(lines);
    fast_fields::add_fast_fields(lines);
    written_files::add_written_files(lines);
    merges::add_merges(lines);
    fast_field_file::add_fast_field_file(lines);
}

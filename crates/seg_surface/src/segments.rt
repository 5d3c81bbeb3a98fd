//! What the writer and the reader of a small segment answer, and what merges open segments.

mod columns;
mod components;
mod doc_id_mapping;
mod reader_answers;
mod titles;
mod writer_answers;

use crate::lines::Lines;

pub(crate) fn add_segments(lines: &mut Lines) {
    lines.add("# segments");
    writer_answers::add_writer_answers(lines);
    reader_answers::add_reader_answers(lines);
    doc_id_mapping::add_doc_id_mapping(lines);
    columns::add_columns(lines);
    components::add_components(lines);
}

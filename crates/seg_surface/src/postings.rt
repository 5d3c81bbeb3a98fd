//! Postings, sets of alive documents, and stores.

mod alive;
mod bit_sets;
mod fields;
mod frequencies;
mod json_spaces;
mod raw_documents;
mod stores;
mod written_field;

use crate::lines::Lines;

pub(crate) fn add_postings(lines: &mut Lines) {
    lines.add("# postings, alive documents, stores");
    written_field::add_written_field(lines);
    bit_sets::add_bit_sets(lines);
    alive::add_alive(lines);
    json_spaces::add_json_spaces(lines);
    stores::add_stores(lines);
    frequencies::add_frequencies(lines);
    raw_documents::add_raw_documents(lines);
}

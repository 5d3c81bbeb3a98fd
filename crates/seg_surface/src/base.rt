//! The crates that a segment's writers and readers stand on, lowest first: bytes, values, documents, dictionaries, the
//! meta, and deletes that wait.

mod copied_fields;
mod deletes;
mod dictionaries;
mod document_lists;
mod documents;
mod flat_maps;
mod json_values;
mod leaves;
mod maps;
mod merged_terms;
mod meta;
mod owners;
mod pieces;
mod schemas;
mod types;
mod values;

use crate::lines::Lines;

pub(crate) fn add_base(lines: &mut Lines) {
    lines.add("# values, documents, dictionaries, the meta, deletes");
    owners::add_owners(lines);
    flat_maps::add_flat_maps(lines);
    add_values(lines);
    add_indices(lines);
    add_further(lines);
}

fn add_values(lines: &mut Lines) {
    values::add_values(lines);
    types::add_types(lines);
    json_values::add_json_values(lines);
    maps::add_maps(lines);
    pieces::add_pieces(lines);
    documents::add_documents(lines);
}

fn add_indices(lines: &mut Lines) {
    dictionaries::add_dictionaries(lines);
    meta::add_meta(lines);
    deletes::add_deletes(lines);
}

fn add_further(lines: &mut Lines) {
    schemas::add_schemas(lines);
    document_lists::add_document_lists(lines);
    copied_fields::add_copied_fields(lines);
    leaves::add_leaves(lines);
    merged_terms::add_merged_terms(lines);
}

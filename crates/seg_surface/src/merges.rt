//! What an index of one segment says of its fields, and what comes of merging indices.

mod described_fields;
mod indices;
mod known_parts;
mod merged_indices;
mod metadata;
mod refused_indices;
mod sizes;
mod stacked_blocks;
mod work_index;

use crate::lines::Lines;

pub(crate) fn add_merges(lines: &mut Lines) {
    lines.add("# merges");
    described_fields::add_described_fields(lines);
    sizes::add_sizes(lines);
    merged_indices::add_merged_indices(lines);
    stacked_blocks::add_stacked_blocks(lines);
    refused_indices::add_refused_indices(lines);
    known_parts::add_known_parts(lines);
}

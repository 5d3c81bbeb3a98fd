//! Indices that aren't merged.

use super::indices::{StoredIndex, index_of_text};
use super::merged_indices::merged;
use crate::lines::Lines;
use crate::samples::{memory, schema, settings};
use seg_common::SegmentId;
use seg_directory::MemoryDirectory;
use seg_index_build::merge_indices;
use seg_meta::Index;
use seg_values::{FieldKind, IndexOption, TResult};
use std::alloc::Global;

/// An index without a segment, whose stored documents go into blocks of this many bytes.
fn empty_index(alloc: Global, block_size: u32) -> TResult<StoredIndex> {
    let rows = [("title", FieldKind::Text, IndexOption::Positions)];
    let mut directory = memory(alloc)?;
    let index = Index::create(
        alloc,
        schema(alloc, &rows)?,
        settings(block_size),
        &mut directory,
    )?;
    Ok((index, directory))
}

fn no_index(alloc: Global) -> TResult<Index> {
    let mut sources: [MemoryDirectory; 0] = [];
    let mut output = memory(alloc)?;
    merge_indices(
        alloc,
        &[],
        &mut sources,
        SegmentId::from_u128(3),
        &mut output,
    )
}

/// Two indices without a segment, whose blocks have these sizes.
fn empty_indices(alloc: Global, first: u32, second: u32) -> TResult<StoredIndex> {
    merged(
        alloc,
        empty_index(alloc, first)?,
        empty_index(alloc, second)?,
    )
}

/// Two indices of a document each, which has these fields.
fn fields(alloc: Global, first: &str, second: &str) -> TResult<StoredIndex> {
    let first = index_of_text(alloc, first, "a")?;
    merged(alloc, first, index_of_text(alloc, second, "a")?)
}

pub(super) fn add_refused_indices(lines: &mut Lines) {
    let alloc = lines.alloc();
    lines.add_answer("merge_indices of no index", &no_index(alloc).err());
    lines.add_answer(
        "merge_indices of two without a segment",
        &empty_indices(alloc, 1, 1).err(),
    );
    lines.add_answer(
        "merge_indices of two with blocks of 1 and of 2 bytes",
        &empty_indices(alloc, 1, 2).err(),
    );
    lines.add_answer(
        "merge_indices of two with the field \"title\" and the field \"body\"",
        &fields(alloc, "title", "body").err(),
    );
}

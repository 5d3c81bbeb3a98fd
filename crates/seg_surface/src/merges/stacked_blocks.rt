//! How many blocks the store of a segment has that another one is merged to.
ghost use Rattle.std.specs.Prelude.{◌≡◌, ◌<◌, ◌^◌};

use super::indices::{copies, index_of};
use crate::lines::Lines;
use crate::samples::{memory, schema, segment, settings};
use seg_directory::MemoryDirectory;
use seg_merger::IndexMerger;
use seg_meta::Segment;
use seg_open::SegmentReader;
use seg_segment::SegmentSerializer;
use seg_values::{FieldKind, IndexOption, Schema, TResult};
use std::alloc::{AllocError, Global};

fn titles(alloc: Global) -> Result<Schema, AllocError> {
    schema(alloc, &[("title", FieldKind::Text, IndexOption::No)])
}

/// A directory with a segment of so many documents, each of which is a block.
fn written(alloc: Global, documents: u32) -> TResult<MemoryDirectory> {
    let written = index_of(alloc, titles(alloc)?, 0, copies(alloc, "a", documents)?)?;
    Ok(written.1)
}

/// What merges the segment.
fn merger(alloc: Global, documents: u32) -> TResult<IndexMerger>
    requires { documents < 2 ^ 31 }
{
    let schema = titles(alloc)?;
    let segment = segment(schema.share(), documents);
    let mut directory = written(alloc, documents)?;
    IndexMerger::open(alloc, schema, &[segment], &mut directory)
}

/// The segment that it is merged to, of which no file is made yet.
fn output(merger: &IndexMerger) -> Segment
    ensures { result.schema ≡ merger.now.schema }
{
    segment(merger.schema().share(), merger.max_doc())
}

/// That segment, open.
fn read_back(alloc: Global, merger: &mut IndexMerger) -> TResult<SegmentReader> {
    let serializer = SegmentSerializer::for_segment(alloc, output(merger), &settings(16384))?;
    let mut directory = memory(alloc)?;
    merger.write(serializer, &mut directory)?;
    SegmentReader::open(alloc, &output(merger), &mut directory)
}

fn merged(alloc: Global, documents: u32) -> TResult<SegmentReader>
    requires { documents < 2 ^ 31 }
{
    let mut merger = merger(alloc, documents)?;
    read_back(alloc, &mut merger)
}

/// How many blocks its store has.
fn merged_blocks(alloc: Global, documents: u32) -> TResult<usize>
    requires { documents < 2 ^ 31 }
{
    let reader = merged(alloc, documents)?;
    Ok(reader.store_reader().block_count())
}

pub(super) fn add_stacked_blocks(lines: &mut Lines) {
    let alloc = lines.alloc();
    lines.add_answer(
        "IndexMerger::write of a segment of 5 documents, a block each, block_count",
        &merged_blocks(alloc, 5),
    );
    lines.add_answer(
        "IndexMerger::write of a segment of 6 documents, a block each, block_count",
        &merged_blocks(alloc, 6),
    );
}

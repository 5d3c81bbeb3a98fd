//! What the writer of a segment answers.

use super::titles::{addition, titles};
use crate::lines::Lines;
use crate::samples::{Words, document, settings};
use seg_build::SegmentWriter;
use seg_values::TResult;
use std::alloc::{AllocError, Global};

fn add_title(alloc: Global, writer: &mut SegmentWriter<'_, Words>) -> TResult<()> {
    writer.add_ref(0, &document(alloc, &[(0, "a")])?)
}

/// How many bytes a writer counts for the document `a`.
fn memory_of_one(alloc: Global) -> TResult<usize> {
    let segment = titles(alloc)?;
    let mut writer = SegmentWriter::for_segment(alloc, 15_000, segment, &settings(16384), &Words)?;
    add_title(alloc, &mut writer)?;
    Ok(writer.mem_usage())
}

/// Whether additions of the same document are equal, by their stamps.
fn are_equal(alloc: Global, stamp: u64, other: u64) -> Result<bool, AllocError> {
    let one = addition(alloc, stamp)?;
    Ok(one == addition(alloc, other)?)
}

pub(super) fn add_writer_answers(lines: &mut Lines) {
    let alloc = lines.alloc();
    lines.add_answer(
        "SegmentWriter::mem_usage after add_ref of the title \"a\"",
        &memory_of_one(alloc),
    );
    lines.add_result(
        "AddOperation with opstamp 9 == that of the same document with 9",
        are_equal(alloc, 9, 9),
    );
    lines.add_result(
        "AddOperation with opstamp 9 == that of the same document with 8",
        are_equal(alloc, 9, 8),
    );
}

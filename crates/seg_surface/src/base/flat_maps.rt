//! Iterators that put pieces into a buffer.

use crate::lines::Lines;
use seg_common::FlatMapWithBufferIter;
use std::alloc::{AllocError, Global};

fn push_numbers_below(end: u32, buffer: &mut Vec<u32>) -> Result<(), AllocError> {
    for number in 0..end {
        buffer.push(number)?;
    }
    Ok(())
}

fn numbers_below_each(alloc: Global, ends: &[u32]) -> Result<Vec<u32>, AllocError> {
    ends.iter()
        .copied()
        .flat_map_with_buffer(alloc, |end: u32, buffer: &mut Vec<u32>| {
            push_numbers_below(end, buffer)
        })
        .try_collect(alloc)
}

pub(crate) fn add_flat_maps(lines: &mut Lines) {
    let alloc = lines.alloc();
    lines.add_result(
        "flat_map_with_buffer, the numbers below each of [1, 2, 3, 4]",
        numbers_below_each(alloc, &[1, 2, 3, 4]),
    );
    lines.add_result(
        "flat_map_with_buffer, the numbers below each of [2, 0, 0, 3]",
        numbers_below_each(alloc, &[2, 0, 0, 3]),
    );
}

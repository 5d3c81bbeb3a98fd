//! Sums of sizes.

use super::metadata::{add_entries, together};
use crate::lines::Lines;
use seg_common::ByteCount;
use seg_field_metadata::FieldMetadata;
use seg_values::{FieldType, TResult};
use std::alloc::{AllocError, Global};

/// The sizes of columns, terms, postings and positions.
type Sizes = (u64, u64, u64, u64);

fn sized(alloc: Global, sizes: Sizes) -> Result<FieldMetadata, AllocError> {
    let (columns, terms, postings, positions) = sizes;
    Ok(FieldMetadata {
        field_name: String::from_str(alloc, "a")?,
        typ: FieldType::Str,
        stored: false,
        fast_size: Some(ByteCount(columns)),
        term_dictionary_size: Some(ByteCount(terms)),
        postings_size: Some(ByteCount(postings)),
        positions_size: Some(ByteCount(positions)),
    })
}

/// A list of one entry of these sizes.
fn list(alloc: Global, sizes: Sizes) -> Result<Vec<FieldMetadata>, AllocError> {
    let mut list = Vec::new(alloc);
    match list.push(sized(alloc, sizes)?) {
        Ok(()) => Ok(list),
        Err(_) => Err(AllocError),
    }
}

fn sum(alloc: Global, first: Sizes, second: Sizes) -> TResult<Vec<FieldMetadata>> {
    let first = list(alloc, first)?;
    let second = list(alloc, second)?;
    together(alloc, first, second)
}

fn add_sum(lines: &mut Lines, first: Sizes, second: Sizes) {
    lines.add_answer("merge_field_meta_data of the sizes", &(first, second));
    match sum(lines.alloc(), first, second) {
        Ok(sum) => add_entries(lines, &sum),
        Err(refusal) => lines.add_shown("  refused", &refusal),
    }
}

pub(super) fn add_sizes(lines: &mut Lines) {
    let first = (1000, 100, 1000, 2000);
    let second = (3000, 80, 1500, 2500);
    add_sum(lines, first, second);
    add_sum(lines, second, first);
    add_sum(lines, (u64::MAX, 0, 0, 0), (1, 0, 0, 0));
}

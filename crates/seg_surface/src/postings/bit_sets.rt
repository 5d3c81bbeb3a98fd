//! A set of numbers that starts out with none.

use crate::lines::Lines;
use seg_bits::BitSet;
use seg_common::{CommonError, MemorySink};
use std::alloc::{AllocError, Global};

/// The bytes of a set.
fn bytes_of(alloc: Global, set: &BitSet) -> Result<MemorySink, CommonError> {
    let mut sink = MemorySink::new(alloc, 100, Vec::new(alloc))?;
    set.serialize(&mut sink)?;
    Ok(sink)
}

fn empty_count(alloc: Global) -> Result<usize, CommonError> {
    let set = BitSet::with_max_value(alloc, 70)?;
    Ok(set.len())
}

/// The set of 65 alone.
fn set_of_one(alloc: Global) -> Result<BitSet, CommonError> {
    let mut set = BitSet::with_max_value(alloc, 70)?;
    set.insert(65);
    Ok(set)
}

fn bytes_of_one(alloc: Global) -> Result<MemorySink, CommonError> {
    let set = set_of_one(alloc)?;
    bytes_of(alloc, &set)
}

pub(crate) fn add_bit_sets(lines: &mut Lines) {
    let alloc = lines.alloc();
    lines.add_result(
        "how many are in BitSet::with_max_value of 70",
        empty_count(alloc),
    );
    match bytes_of_one(alloc) {
        Ok(sink) => lines.add_bytes(
            "BitSet::with_max_value of 70 after insert of 65, serialized",
            sink.bytes(),
        ),
        Err(_) => lines.miss(),
    }
}

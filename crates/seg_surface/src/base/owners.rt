//! Values and bytes with many owners.

use crate::lines::Lines;
use seg_common::{OwnedBytes, Shared};
use std::alloc::{AllocError, Global};
use std::rc::Rc;

/// How many owners a value has beside two that share it, of which one is gone, and then without both.
fn owners(alloc: Global) -> Result<(usize, usize), AllocError> {
    let value = Rc::new(alloc, 7)?;
    let Ok(first) = Shared::new(alloc, value.clone()?) else {
        return Err(AllocError);
    };
    let second = first.share();
    drop(first);
    let beside = Rc::strong_count(second.get());
    drop(second);
    Ok((beside, Rc::strong_count(&value)))
}

/// The bytes of `.idx` before the last one, and it.
fn halves(alloc: Global) -> Result<(OwnedBytes, OwnedBytes), AllocError> {
    let Ok(bytes) = OwnedBytes::new(alloc, b".idx") else {
        return Err(AllocError);
    };
    Ok(bytes.split_from_end(1))
}

pub(crate) fn add_owners(lines: &mut Lines) {
    let alloc = lines.alloc();
    lines.add_result(
        "owners of a value beside two that share it, of which one is gone, and without both",
        owners(alloc),
    );
    lines.add_result("OwnedBytes of .idx, shown", OwnedBytes::new(alloc, b".idx"));
    lines.add_result("split_from_end of .idx, one byte", halves(alloc));
}

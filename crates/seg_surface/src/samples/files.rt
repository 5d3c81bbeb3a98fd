//! Files, by their bytes.

use seg_common::OwnedBytes;
use std::alloc::{AllocError, Global};

pub(crate) fn file(alloc: Global, bytes: &[u8]) -> Result<OwnedBytes, AllocError> {
    match OwnedBytes::new(alloc, bytes) {
        Ok(file) => Ok(file),
        Err(_) => Err(AllocError),
    }
}

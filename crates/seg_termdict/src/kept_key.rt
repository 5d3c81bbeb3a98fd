//! Copies of keys.
ghost use Rattle.std.specs.Prelude.{◌≡◌, IfOk};

use std::alloc::{AllocError, Global};
use std::marker::Model;

/// A copy of a key.
#[derive(Drop)]
pub(crate) struct KeptKey {
    bytes: Vec<u8>,
}

impl Model for KeptKey {
    ghost use Rattle.std.specs.Prelude.{ℕ, List};

    ghost Value = { List ℕ };

    ghost view = { λ k. k.bytes.items };
}

impl KeptKey {
    pub(crate) fn new(alloc: Global, key: &[u8]) -> Result<KeptKey, AllocError>
        ensures { IfOk result (λ kept. kept ≡ key.now) }
    {
        Ok(KeptKey {
            bytes: Vec::from_slice(alloc, key)?,
        })
    }

    pub(crate) fn as_slice(&self) -> &[u8]
        ensures { result.now ≡ self.now }
    {
        &self.bytes
    }
}

//! What is done to bytes.

use std::alloc::{AllocError, Global};

/// What is done to bytes, at a place.
#[derive(Clone, Copy)]
pub(crate) enum Damage {
    /// What is from the place on is gone.
    Cut,
    /// These bits of the byte are flipped.
    Flipped(u8),
    /// A byte 0 is at the end.
    Longer,
}

pub(crate) const DAMAGES: &[(&str, Damage)] = &[
    ("cut", Damage::Cut),
    ("all bits of a byte flipped", Damage::Flipped(0xff)),
    ("the lowest bit of a byte flipped", Damage::Flipped(1)),
    ("a byte longer", Damage::Longer),
];

impl Damage {
    /// How many places there are in this many bytes.
    pub(crate) fn places(self, length: usize) -> usize {
        match self {
            Damage::Cut | Damage::Flipped(_) => length,
            Damage::Longer => 1,
        }
    }

    /// The bytes, damaged at a place.
    pub(crate) fn damaged(
        self,
        alloc: Global,
        bytes: &[u8],
        at: usize,
    ) -> Result<Vec<u8>, AllocError> {
        let mut damaged = Vec::from_slice(alloc, bytes)?;
        match self {
            Damage::Cut => damaged.truncate(at),
            Damage::Flipped(mask) => {
                if let Some(byte) = damaged.get_mut(at) {
                    *byte ^= mask;
                }
            }
            Damage::Longer => damaged.push(0)?,
        }
        Ok(damaged)
    }
}

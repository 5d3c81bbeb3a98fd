//! What the paths of columns below a field begin with.
ghost use Rattle.std.specs.Prelude.{◌≡◌, ◌++◌, ◌∷◌, [], IfOk};
ghost use Rattle.std.specs.Cmp.Lexicographic.{slice_cmp};
ghost use Rattle.std.specs.Ordering.{nat_cmp};
ghost use Rattle.seg_column_format.specs.PathStarts as spec;

use seg_common::PATH_SEPARATOR_BYTE;
use std::alloc::{AllocError, Global};
use std::cmp::Ordering;
use std::marker::Model;

/// The name of a field, and a separator.
#[derive(Drop)]
pub(crate) struct PathStart {
    bytes: Vec<u8>,
}

impl Model for PathStart {
    ghost use Rattle.std.specs.Prelude.{List, ℕ};

    ghost Value = { List ℕ };

    ghost view = { λ s. s.bytes.items };
}

impl PathStart {
    /// What paths below a name begin with.
    pub fn below(alloc: Global, name: &str) -> Result<PathStart, AllocError>
        ensures { IfOk result (λ start. start ≡ name.now ++ 1 ∷ []) }
    {
        let mut bytes = Vec::from_slice(alloc, name.as_bytes())?;
        bytes.push(PATH_SEPARATOR_BYTE)?;
        Ok(PathStart { bytes })
    }

    pub fn as_slice(&self) -> &[u8]
        ensures { result.now ≡ self.now }
    {
        &self.bytes
    }

    /// The byte order.
    pub fn compare(&self, other: &PathStart) -> Ordering
        ensures { result ≡ slice_cmp nat_cmp self.now other.now }
    {
        self.as_slice().cmp(&other.as_slice())
    }

    /// Whether this is not after some bytes in byte order.
    pub fn is_up_to(&self, path: &[u8]) -> bool
        ensures { result ≡ spec.is_up_to path.now self.now }
    {
        match self.as_slice().cmp(&path) {
            Ordering::Greater => false,
            _ => true,
        }
    }

    /// Whether bytes begin with this.
    pub fn begins(&self, path: &[u8]) -> bool
        ensures { result ≡ spec.begins path.now self.now }
    {
        path.starts_with(self.as_slice())
    }
}

//! The bytes of a term, as the table of terms keeps them and is asked for them.
ghost use Rattle.std.specs.Prelude.{◌≡◌, [], ◌∷◌, IfOk};
ghost use Rattle.std.specs.Cmp.{partial_equiv_from_equiv, on_equiv, on_per};
ghost use Rattle.std.specs.Cmp.Lexicographic.{nat_list_eq_equiv};
ghost use Rattle.std.specs.Str.{bytes_eq};
ghost use Rattle.seg_column_format.specs.TermKeys.{kept_bytes, same_input};

use arrayvec::ArrayVec;
use indexmap::Equivalent;
use std::alloc::{AllocError, Global};
use std::hash::{Hash, Hasher};
use std::marker::Model;

/// The most bytes of a key that lie in the value itself.
const MAX_INLINE_LEN: usize = 16;

/// The bytes of a term. Up to 16 of them take no memory besides the value.
#[derive(Debug, Drop)]
pub struct TermKey {
    bytes: KeptBytes,
}

#[derive(Debug, Drop)]
enum KeptBytes {
    Inline(ArrayVec<u8, MAX_INLINE_LEN>),
    Allocated(Vec<u8>),
}

impl Model for TermKey {
    ghost use Rattle.std.specs.Prelude.{List, ℕ};
    ghost use Rattle.seg_column_format.specs.TermKeys.{kept_bytes};

    ghost Value = { List ℕ };

    ghost view = { λ k. kept_bytes k.bytes };
}

impl TermKey {
    pub fn copy_of(alloc: Global, bytes: &[u8]) -> Result<TermKey, AllocError>
        ensures { IfOk result (λ key. key ≡ bytes.now) }
    {
        let mut inline = ArrayVec::new();
        let bytes = match inline.try_extend_from_slice(bytes) {
            Ok(()) => KeptBytes::Inline(inline),
            Err(_) => KeptBytes::Allocated(Vec::from_slice(alloc, bytes)?),
        };
        Ok(TermKey { bytes })
    }

    #[inline]
    pub fn as_slice(&self) -> &[u8]
        ensures { result.now ≡ self.now }
    {
        match &self.bytes {
            KeptBytes::Inline(bytes) => bytes.as_slice(),
            KeptBytes::Allocated(bytes) => bytes.as_slice(),
        }
    }
}

impl PartialEq for TermKey {
    ghost eq = { bytes_eq };

    ghost laws = { partial_equiv_from_equiv nat_list_eq_equiv };

    #[inline]
    fn eq(&self, other: &TermKey) -> bool {
        self.as_slice() == other.as_slice()
    }
}

impl Eq for TermKey {
    ghost laws = { nat_list_eq_equiv };
}

/// All bytes are written at once, without their number.
impl Hash for TermKey {
    ghost hash_input = { λ key. key ∷ [] };

    ghost respects_eq = { same_input };

    #[inline]
    fn hash<H: Hasher>(&self, state: &mut H) {
        state.write(self.as_slice());
    }
}

/// What a `TermKey` is looked up by.
#[derive(Debug, Clone, Copy)]
pub struct TermBytes<'a> {
    pub bytes: &'a [u8],
}

impl<'a> PartialEq for TermBytes<'a> {
    ghost eq = { λ x y. bytes_eq x.bytes.now y.bytes.now };

    ghost laws = { on_per (λ x. x.bytes.now) (partial_equiv_from_equiv nat_list_eq_equiv) };

    #[inline]
    fn eq(&self, other: &TermBytes<'a>) -> bool {
        self.bytes == other.bytes
    }
}

impl<'a> Eq for TermBytes<'a> {
    ghost laws = { on_equiv (λ x. x.bytes.now) nat_list_eq_equiv };
}

impl<'a> Hash for TermBytes<'a> {
    ghost hash_input = { λ x. x.bytes.now ∷ [] };

    ghost respects_eq = { λ x y. same_input x.bytes.now y.bytes.now };

    #[inline]
    fn hash<H: Hasher>(&self, state: &mut H) {
        state.write(self.bytes);
    }
}

impl<'a> Equivalent<TermKey> for TermBytes<'a> {
    ghost equivalent = { λ q key. bytes_eq q.bytes.now key };

    ghost respects_hash = { λ q key. same_input q.bytes.now key };

    ghost respects_eq = { λ q x y. nat_list_eq_equiv.congr q.bytes.now x y };

    #[inline]
    fn equivalent(&self, key: &TermKey) -> bool {
        self.bytes == key.as_slice()
    }
}

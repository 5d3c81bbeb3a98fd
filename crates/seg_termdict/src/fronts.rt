//! The first keys of streamers, by a heap.
ghost use Rattle.std.specs.Prelude.{◌≡◌, ◌∷◌, [], true, false, Contains, IfNone, IfSome, OnOk};
ghost use Rattle.std.specs.List.{AllByRecursion};
ghost use Rattle.std.specs.List.Sorted.{IsPermutation};
ghost use Rattle.std.specs.Ordering.{is_le};
ghost use Rattle.std.specs.Str.{bytes_eq};
ghost use Rattle.seg_termdict.specs.SortedTerms.{key_cmp};
ghost use Rattle.seg_termdict.specs.MergerHeap.{IsFirstFront};

use std::alloc::{AllocError, Global};
use std::cmp::Reverse;
use std::collections::BinaryHeap;
use std::marker::Model;

/// First keys, each with the number of its streamer. It is seen as a list of them, in any order.
#[derive(Drop)]
pub(crate) struct Fronts<'a> {
    heap: BinaryHeap<Reverse<(&'a [u8], usize)>>,
}

impl<'a> Model for Fronts<'a> {
    ghost use Rattle.std.specs.Prelude.{map, List};
    ghost use Rattle.std.specs.BinaryHeap.{heap_items, IsHeap};
    ghost use Rattle.seg_termdict.specs.MergerHeap.{Front, front_of, greatest_first};

    ghost Value = { List Front };

    ghost view = { λ s. map front_of (heap_items s.heap) };

    ghost invariant = { λ s. IsHeap greatest_first (heap_items s.heap) };
}

impl<'a> Fronts<'a> {
    pub(crate) fn new(alloc: Global) -> Fronts<'a>
        ensures { result ≡ [] }
    {
        Fronts {
            heap: BinaryHeap::new(alloc),
        }
    }

    pub(crate) fn push(&mut self, key: &'a [u8], segment: usize) -> Result<(), AllocError>
        ensures { OnOk result (IsPermutation ((key.now, segment) ∷ self.old) self.new) }
    {
        let Ok(()) = self.heap.push(Reverse((key, segment))) else {
            return Err(AllocError);
        };
        Ok(())
    }

    /// The first of all.
    pub(crate) fn first(&self) -> Option<(&'a [u8], usize)>
        ensures some { IfSome result (λ t. IsFirstFront (t.0.now, t.1) self.now × Contains self.now (t.0.now, t.1)) }
        ensures none { IfNone result (self.now ≡ []) }
    {
        let Some(Reverse(front)) = self.heap.peek() else {
            return None;
        };
        Some(*front)
    }

    /// Takes out the first of all, if it has the key, and tells its streamer. No key is below this one.
    pub(crate) fn pop_at(&mut self, key: &[u8]) -> Option<usize>
        requires { AllByRecursion (λ y. is_le (key_cmp key.now y.0) ≡ true) self.old }
        ensures some { IfSome result (λ segment. IsPermutation self.old ((key.now, segment) ∷ self.new)
            × IsFirstFront (key.now, segment) self.new) }
        ensures none { IfNone result ((self.new ≡ self.old)
            × AllByRecursion (λ y. bytes_eq key.now y.0 ≡ false) self.old) }
    {
        let Some(Reverse((first, _))) = self.heap.peek() else {
            return None;
        };
        if *first != key {
            return None;
        }
        let Some(Reverse((_, segment))) = self.heap.pop() else {
            return None;
        };
        Some(segment)
    }
}

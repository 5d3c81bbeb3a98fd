//! Bytes with two numbers, by a heap.
ghost use Rattle.std.specs.Prelude.{◌≡◌, ◌∷◌, [], IfNone, IfSome, OnOk};
ghost use Rattle.std.specs.List.Sorted.{IsPermutation};
ghost use Rattle.seg_column_merge_parts.specs.HeadHeaps.{Pops};

use std::alloc::{AllocError, Global};
use std::cmp::Reverse;
use std::collections::BinaryHeap;
use std::marker::Model;

/// The heads of sorted lists that are merged: each is bytes, with two numbers. It is seen as a list of them, in any
/// order.
#[derive(Drop)]
pub struct HeadHeap<'a> {
    heap: BinaryHeap<Reverse<(&'a [u8], usize, usize)>>,
}

impl<'a> Model for HeadHeap<'a> {
    ghost use Rattle.std.specs.Prelude.{map, List};
    ghost use Rattle.std.specs.BinaryHeap.{heap_items, IsHeap};
    ghost use Rattle.seg_column_merge_parts.specs.HeadHeaps.{Head, greatest_first, head_of};

    ghost Value = { List Head };

    ghost view = { λ s. map head_of (heap_items s.heap) };

    ghost invariant = { λ s. IsHeap greatest_first (heap_items s.heap) };
}

impl<'a> HeadHeap<'a> {
    pub fn new(alloc: Global) -> HeadHeap<'a>
        ensures { result ≡ [] }
    {
        HeadHeap {
            heap: BinaryHeap::new(alloc),
        }
    }

    pub fn push(&mut self, bytes: &'a [u8], first: usize, second: usize) -> Result<(), AllocError>
        ensures { OnOk result (IsPermutation ((bytes.now, first, second) ∷ self.old) self.new) }
    {
        let Ok(()) = self.heap.push(Reverse((bytes, first, second))) else {
            return Err(AllocError);
        };
        Ok(())
    }

    /// Takes out the least: by its bytes, then by its first number, then by its second one.
    pub fn pop(&mut self) -> Option<(&'a [u8], usize, usize)>
        ensures some { IfSome result (λ h. Pops self.old self.new (h.0.now, h.1, h.2)) }
        ensures none { IfNone result (self.old ≡ []) }
    {
        let Some(Reverse(head)) = self.heap.pop() else {
            return None;
        };
        Some(head)
    }
}

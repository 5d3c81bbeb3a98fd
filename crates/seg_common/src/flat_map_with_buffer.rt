//! The adapter, and the method that makes it.
ghost use Rattle.std.specs.Prelude.{◌≡◌, [], List, Result, IsOk, reverse, vec_len};
ghost use Rattle.std.specs.Iterator.{IsFinite};
ghost use Rattle.std.specs.List.{AllByRecursion};
ghost use Rattle.seg_common.specs.FlatPieces.{ArePieces, Gives, GivesAll, InTurn, piece_count};

use std::alloc::Global;
use std::marker::PhantomData;

/// The pieces of each item, or its refusal.
#[derive(Drop)]
pub struct FlatMapWithBuffer<T, E, F, I> {
    items: I,
    fill_buffer: F,
    /// The pieces that are left of an item, the last one first.
    buffer: Vec<T>,
    refusal: PhantomData<E>,
}

impl<T: Drop, E, F: Fn(I::Item, &mut Vec<T>) -> Result<(), E>, I: Iterator> Iterator
    for FlatMapWithBuffer<T, E, F, I> {
    type Item = Result<T, E>;

    ghost can_next = { λ s. I.can_next s.items × IsFinite (I.remaining s.items) × F.IsAlwaysCallable s.fill_buffer };

    ghost next_gives = { λ s r t. Gives (F.post s.fill_buffer) I.next_gives s.items
        (reverse s.buffer.items) r t.items (reverse t.buffer.items)
        × (t.fill_buffer ≡ s.fill_buffer) };

    ghost remaining = { λ s. piece_count (I.remaining s.items) (vec_len s.buffer) };

    fn next(&mut self) -> Option<Result<T, E>> {
        loop {
            if let Some(piece) = self.buffer.pop() {
                return Some(Ok(piece));
            }
            let Some(item) = self.items.next() else {
                return None;
            };
            if let Err(refusal) = (self.fill_buffer)(item, &mut self.buffer) {
                self.buffer.clear();
                return Some(Err(refusal));
            }
            self.buffer.reverse();
        }
    }

    fn size_hint(&self) -> (usize, Option<usize>) {
        (0, None)
    }
}

/// Iterators whose items have pieces.
pub trait FlatMapWithBufferIter: Iterator {
    /// The pieces that `fill_buffer` puts into an empty buffer, item after item. Where it refuses one, the refusal is
    /// given in place of the item's pieces, and the next item comes after it. Only the buffer takes memory, as
    /// `fill_buffer` lets it grow.
    final fn flat_map_with_buffer<T: Drop, E, F: Fn(Self::Item, &mut Vec<T>) -> Result<(), E>>(
        self,
        alloc: Global,
        fill_buffer: F,
    ) -> FlatMapWithBuffer<T, E, F, Self>
    where
        Self: Sized,
        ensures items { result.items ≡ self }
        ensures fill_buffer { result.fill_buffer ≡ fill_buffer }
        ensures buffer { result.buffer.items ≡ [] }
        ensures in_turn { (all : List (Result T E)) → GivesAll (F.post fill_buffer) Self.next_gives self [] all
            → InTurn (F.post fill_buffer) Self.next_gives self all }
        ensures without_refusal { (all : List (Result T E)) → GivesAll (F.post fill_buffer) Self.next_gives self [] all
            → AllByRecursion IsOk all → ArePieces (F.post fill_buffer) Self.next_gives self all }
    {
        FlatMapWithBuffer {
            items: self,
            fill_buffer,
            buffer: Vec::new(alloc),
            refusal: PhantomData,
        }
    }
}

impl<I: Iterator> FlatMapWithBufferIter for I {}

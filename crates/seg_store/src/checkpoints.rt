//! The checkpoints of a store, one after another.
ghost use Rattle.std.specs.Prelude.{◌≡◌};
ghost use Rattle.std.specs.Iterator.{YieldsFirst, item_count};
ghost use Rattle.seg_store.specs.Checkpoints.{checkpoints};

use crate::checkpoint::Checkpoint;
use crate::store_reader::StoreReader;
use std::iter::FusedIterator;
use std::marker::Model;

/// Where the blocks of a store end, in order: seen as the list of the checkpoints that are left. It takes no memory.
#[derive(Drop)]
pub struct Checkpoints<'a> {
    reader: &'a StoreReader,
    next: usize,
}

impl<'a> Model for Checkpoints<'a> {
    ghost use Rattle.std.specs.Prelude.{◌≤◌, List, length, drop};
    ghost use Rattle.seg_store.specs.declared.checkpoint.Checkpoint.{Checkpoint};
    ghost use Rattle.seg_store.specs.Checkpoints.{checkpoints};

    ghost Value = { List Checkpoint };

    ghost view = { λ it. drop it.next (checkpoints it.reader.now) };

    ghost invariant = { λ it. it.next ≤ length it.reader.now };
}

impl<'a> Checkpoints<'a> {
    /// All checkpoints of a store.
    pub(crate) fn new(reader: &'a StoreReader) -> Checkpoints<'a>
        ensures { result ≡ checkpoints reader.now }
    {
        Checkpoints { reader, next: 0 }
    }
}

impl<'a> Iterator for Checkpoints<'a> {
    type Item = Checkpoint;

    ghost next_gives = { YieldsFirst (λ rest. rest) };

    ghost remaining = { item_count (λ rest. rest) };

    fn next(&mut self) -> Option<Checkpoint> {
        if self.next >= self.reader.block_count() {
            return None;
        }
        let checkpoint = self.reader.checkpoint(self.next);
        self.next += 1;
        Some(checkpoint)
    }
}

impl<'a> FusedIterator for Checkpoints<'a> {}

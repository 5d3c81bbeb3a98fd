//! The documents of a segment that are alive, one after another.
ghost use Rattle.std.specs.Prelude.{◌≡◌, None, Some};
ghost use Rattle.std.specs.Iterator.{YieldsFirst, item_count};
ghost use Rattle.std.specs.List.{range_with_len};
ghost use Rattle.seg_bits.specs.BitSets.{numbers_from};

use seg_bits::{AliveBitSet, BitSetIter};
use std::iter::FusedIterator;
use std::marker::Model;

/// The ids of the documents that are alive, ascending: seen as the list of those that are left. It takes no memory.
#[derive(Drop)]
pub struct AliveDocs<'a> {
    set: Option<BitSetIter<'a>>,
    next: u32,
    end: u32,
}

impl<'a> Model for AliveDocs<'a> {
    ghost use Rattle.std.specs.Prelude.{ℕ, List};
    ghost use Rattle.seg_open.specs.AliveDocuments.{documents_left};

    ghost Value = { List ℕ };

    ghost view = { λ it. documents_left it.set it.next it.end };
}

impl<'a> AliveDocs<'a> {
    /// The documents of a set.
    pub(crate) fn of_set(alive: &'a AliveBitSet) -> AliveDocs<'a>
        ensures { result ≡ numbers_from 0 alive.now }
    {
        AliveDocs {
            set: Some(alive.iter_alive()),
            next: 0,
            end: 0,
        }
    }

    /// All of this many documents.
    pub(crate) fn all(max_doc: u32) -> AliveDocs<'a>
        ensures { result ≡ range_with_len 0 max_doc }
    {
        AliveDocs {
            set: None,
            next: 0,
            end: max_doc,
        }
    }
}

impl<'a> Iterator for AliveDocs<'a> {
    type Item = u32;

    ghost next_gives = { YieldsFirst (λ rest. rest) };

    ghost remaining = { item_count (λ rest. rest) };

    fn next(&mut self) -> Option<u32> {
        if let Some(docs) = &mut self.set {
            return docs.next();
        }
        if self.next >= self.end {
            return None;
        }
        let doc = self.next;
        self.next = doc + 1;
        Some(doc)
    }
}

impl<'a> FusedIterator for AliveDocs<'a> {}

//! The ids that documents have when segments are joined.
ghost use Rattle.std.specs.Prelude.{◌≡◌, ◌<◌, ◌+◌, ◌^◌, ◌++◌, ◌∷◌, [], length, map, slice_get, if◌then◌else◌, Some, None, IfOk, OnOk};
ghost use Rattle.seg_bits.specs.BitSets.{member_count};
ghost use Rattle.seg_merger.specs.NewIds.{id_of, new_ids};

use seg_open::SegmentReader;
use std::alloc::{AllocError, Global};
use std::marker::Model;

/// Stands for the id of a document that isn't kept.
const NO_ID: u32 = 0xFFFF_FFFF;

/// The new ids of the documents of a segment, four bytes a document.
#[derive(Drop)]
pub(crate) struct NewIds {
    ids: Vec<u32>,
}

impl Model for NewIds {
    ghost use Rattle.std.specs.Prelude.{ℕ, List, Option, map};
    ghost use Rattle.seg_merger.specs.NewIds.{id_of};

    ghost Value = { List (Option ℕ) };

    ghost view = { λ n. map id_of n.ids.items };
}

impl NewIds {
    /// Gives the documents that are kept their ids, from `first` on.
    pub(crate) fn new(alloc: Global, part: &SegmentReader, first: u32) -> Result<NewIds, AllocError>
        requires { first + member_count part.now.alive < 2 ^ 31 }
        ensures { IfOk result (λ ids. ids ≡ new_ids first part.now.alive) }
    {
        part.documents_are_marked();
        let max_doc = part.max_doc();
        let mut ids = Vec::with_capacity(alloc, max_doc as usize)?;
        let mut next = first;
        for doc in 0..max_doc {
            push_id(&mut ids, &mut next, part.is_alive(doc))?;
        }
        Ok(NewIds { ids })
    }

    /// The new id of a document, where it is kept.
    pub(crate) fn get(&self, doc: u32) -> Option<u32>
        requires { doc < length self.now }
        ensures { slice_get self.now doc ≡ Some result }
    {
        let id = self.ids[doc as usize];
        if id == NO_ID { None } else { Some(id) }
    }
}

/// Adds the next id where a document is kept, and else none.
fn push_id(ids: &mut Vec<u32>, next: &mut u32, is_kept: bool) -> Result<(), AllocError>
    requires { next.old + (if is_kept then 1 else 0) < 2 ^ 31 }
    ensures ids { OnOk result (map id_of ids.new.items
        ≡ map id_of ids.old.items ++ (if is_kept then Some next.old else None) ∷ []) }
    ensures next { OnOk result (next.new ≡ next.old + (if is_kept then 1 else 0)) }
{
    if !is_kept {
        ids.push(NO_ID)?;
        return Ok(());
    }
    ids.push(*next)?;
    *next += 1;
    Ok(())
}

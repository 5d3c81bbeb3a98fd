//! A segment that was written.
ghost use Rattle.std.specs.Prelude.{◌≡◌, ◌<◌, ◌^◌, true, false, length, replicate, Contains, option_map, MatchOption};
ghost use Rattle.seg_meta.specs.Metas as metas;
ghost use Rattle.seg_batches.specs.WrittenSegments.{LacksSome, alive_of, deletes_of, listed};

use crate::Opstamp;
use seg_bits::BitSet;
use seg_common::SegmentId;
use seg_meta::{DeleteMeta, SegmentMeta};
use std::marker::Model;

/// A segment that was written, and which of its documents are alive.
#[derive(Drop)]
pub struct WrittenSegment {
    id: SegmentId,
    max_doc: u32,
    alive: Option<BitSet>,
}

impl Model for WrittenSegment {
    ghost use Rattle.std.specs.Prelude.{◌<◌, ◌^◌};
    ghost use Rattle.seg_batches.specs.WrittenSegments as segments;

    ghost Value = { segments.WrittenSegment };

    ghost view = { λ s. record {
      id = s.id;
      documents = s.max_doc;
      alive = segments.alive_of s.max_doc s.alive;
    } };

    ghost invariant = { λ s. (s.max_doc < 2 ^ 31) × segments.LacksSome s.max_doc s.alive };
}

impl WrittenSegment {
    /// All documents are alive where there is no set; a set lacks some.
    pub(crate) fn new(id: SegmentId, max_doc: u32, alive: Option<BitSet>) -> WrittenSegment
        requires few { max_doc < 2 ^ 31 }
        requires set { LacksSome max_doc alive }
        ensures { result ≡ record { id = id; documents = max_doc; alive = alive_of max_doc alive } }
    {
        WrittenSegment { id, max_doc, alive }
    }

    pub fn id(&self) -> SegmentId
        ensures { result ≡ self.now.id }
    {
        self.id
    }

    /// How many documents the segment has, including those that are not alive.
    pub fn max_doc(&self) -> u32
        ensures value { result ≡ self.now.documents }
        ensures few { result < 2 ^ 31 }
    {
        self.max_doc
    }

    /// Which documents are alive; none where all are.
    pub fn alive(&self) -> Option<&BitSet>
        ensures { MatchOption result (self.now.alive ≡ replicate self.now.documents true)
            (λ set. (set.now ≡ self.now.alive) × (length set.now ≡ self.now.documents) × Contains set.now false) }
    {
        self.alive.as_ref()
    }

    /// The segment as a meta of this stamp lists it.
    pub fn listed(&self, opstamp: Opstamp) -> SegmentMeta
        ensures { result ≡ listed opstamp self.now }
    {
        SegmentMeta::new(self.id, self.max_doc, self.deletes(opstamp))
    }

    /// The deletes, where some documents are not alive.
    fn deletes(&self, opstamp: Opstamp) -> Option<DeleteMeta>
        ensures deletes { option_map metas.deletes_of result ≡ deletes_of opstamp self.now.alive }
        ensures some { metas.AreDeletes self.now.documents (option_map metas.deletes_of result) }
    {
        let alive = self.alive.as_ref()?;
        Some(DeleteMeta {
            num_deleted_docs: self.max_doc - alive.len() as u32,
            opstamp,
        })
    }
}

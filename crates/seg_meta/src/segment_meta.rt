//! A segment as a meta lists it.
ghost use Rattle.std.specs.Prelude.{◌≡◌, ◌<◌, ◌-◌, ◌^◌, Some, option_map, is_some};
ghost use Rattle.seg_meta.specs.MetaBounds.{SegmentFits};
ghost use Rattle.seg_meta.specs.Metas.{deletes_of, AreDeletes, deleted};

use crate::DeleteMeta;
use crate::ranges::has_64_bits;
use seg_common::SegmentId;
use std::marker::Model;

/// A segment as a meta lists it: its id, the number of its documents, and its deletes where it has any.
#[derive(Clone, Copy, Debug, PartialEq, Eq)]
pub struct SegmentMeta {
    id: SegmentId,
    max_doc: u32,
    deletes: Option<DeleteMeta>,
}

impl Model for SegmentMeta {
    ghost use Rattle.std.specs.Prelude.{option_map};
    ghost use Rattle.seg_meta.specs.IndexOfFiles.{ListedSegment};
    ghost use Rattle.seg_meta.specs.Metas.{deletes_of, delete_meta_of, delete_metas_back, IsListed};

    ghost Value = { ListedSegment };

    ghost view = { λ a. record {
      id = a.id;
      documents = a.max_doc;
      deletes = option_map deletes_of a.deletes;
    } };

    ghost invariant = { λ a. IsListed a.max_doc (option_map deletes_of a.deletes) };

    ghost inverse = { λ s. record {
      id = s.id;
      max_doc = s.documents;
      deletes = option_map delete_meta_of s.deletes;
    } };

    ghost inverse_ok = { λ a _ i. record {
      id = a.id;
      max_doc = a.max_doc;
      deletes = delete_metas_back a.deletes i;
    } };
}

impl SegmentMeta {
    pub fn new(id: SegmentId, max_doc: u32, deletes: Option<DeleteMeta>) -> SegmentMeta
        requires few { max_doc < 2 ^ 31 }
        requires deletes { AreDeletes max_doc (option_map deletes_of deletes) }
        ensures { result ≡ record {
          id = id;
          documents = max_doc;
          deletes = option_map deletes_of deletes;
        } }
    {
        SegmentMeta {
            id,
            max_doc,
            deletes,
        }
    }

    pub fn id(&self) -> SegmentId
        ensures { result ≡ self.now.id }
    {
        self.id
    }

    /// The number of documents, deleted ones included.
    pub fn max_doc(&self) -> u32
        ensures value { result ≡ self.now.documents }
        ensures few { result < 2 ^ 31 }
    {
        self.max_doc
    }

    pub fn deletes(&self) -> Option<DeleteMeta>
        ensures { option_map deletes_of result ≡ self.now.deletes }
    {
        self.deletes
    }

    /// The number of documents that aren't deleted.
    pub fn num_docs(&self) -> u32
        ensures { result ≡ self.now.documents - deleted self.now.deletes }
    {
        self.max_doc - self.num_deleted_docs()
    }

    pub fn num_deleted_docs(&self) -> u32
        ensures { result ≡ deleted self.now.deletes }
    {
        match self.deletes {
            Some(deletes) => deletes.num_deleted_docs,
            None => 0,
        }
    }

    pub fn has_deletes(&self) -> bool
        ensures { result ≡ is_some self.now.deletes }
    {
        self.deletes.is_some()
    }

    /// The stamp up to which deletes count, where there are any.
    pub fn delete_opstamp(&self) -> Option<u64>
        ensures { result ≡ option_map (λ d. d.stamp) self.now.deletes }
    {
        self.deletes.map(|deletes| deletes.opstamp)
    }

    /// Its numbers are what their types hold.
    pub(crate) fn fits(&self)
        ensures { SegmentFits self.now }
    {
        let _id = self.id.as_u128();
        if let Some(deletes) = self.deletes {
            has_64_bits(deletes.opstamp);
        }
    }
}

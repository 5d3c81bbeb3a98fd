//! The length ids of one field, as they are read.
ghost use Rattle.std.specs.Prelude.{◌≡◌, ◌<◌, length, slice_get, Some, IsSomeAnd};
ghost use Rattle.seg_model.specs.Norms.{length_id, length_of_id};

use crate::field_norm_id;
use seg_common::OwnedBytes;
use std::marker::Model;

/// The ids of the lengths of one field, a byte a document, in the bytes of their file.
#[derive(Drop)]
pub struct FieldNormReader {
    ids: OwnedBytes,
}

impl Model for FieldNormReader {
    ghost use Rattle.std.specs.Prelude.{ℕ, List};

    ghost Value = { List ℕ };

    ghost view = { λ r. r.ids };
}

impl FieldNormReader {
    pub(crate) fn new(ids: OwnedBytes) -> FieldNormReader
        ensures { result ≡ ids }
    {
        FieldNormReader { ids }
    }

    /// How many documents have a length.
    pub fn num_docs(&self) -> usize
        ensures { result ≡ length self.now }
    {
        self.ids.len()
    }

    /// The id of a document's length.
    pub fn fieldnorm_id(&self, doc: u32) -> u8
        requires { doc < length self.now }
        ensures { slice_get self.now doc ≡ Some result }
    {
        self.ids.as_slice()[doc as usize]
    }

    /// The length of a document, as its id keeps it: exactly up to 40, and then to an eighth.
    pub fn fieldnorm(&self, doc: u32) -> u32
        requires { doc < length self.now }
        ensures { IsSomeAnd (slice_get self.now doc) (λ id. result ≡ length_of_id id) }
    {
        FieldNormReader::id_to_fieldnorm(self.fieldnorm_id(doc))
    }

    /// The length that an id stands for.
    pub fn id_to_fieldnorm(id: u8) -> u32
        ensures { result ≡ length_of_id id }
    {
        field_norm_id::id_to_fieldnorm(id)
    }

    /// The id of a length: the greatest whose length is at most it.
    pub fn fieldnorm_to_id(length: u32) -> u8
        ensures { result ≡ length_id length }
    {
        field_norm_id::fieldnorm_to_id(length)
    }
}

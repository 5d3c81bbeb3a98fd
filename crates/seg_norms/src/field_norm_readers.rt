//! The length ids of a segment, as they are read from their file.
ghost use Rattle.std.specs.Prelude.{◌≡◌, ◌≢◌, ◌<◌, ℕ, List, length, slice_get, Some, None, IsTrue, IsFalse, IfErr, MatchBool, MatchResult};
ghost use Rattle.seg_directory.specs.CompositeFiles.{Part, composite, field_of};
ghost use Rattle.seg_norms.specs.FieldNorms.{norms_parts};
ghost use Rattle.seg_norms.specs.StoredNorms.{lengths_of_parts, lengths_for, norms_of, HaveIds, AreNorms, HoldNorms};

use crate::field_norm_reader::FieldNormReader;
use seg_common::OwnedBytes;
use seg_directory::CompositeFile;
use seg_values::{Field, FieldEntry, PostingsError, Schema};
use std::marker::Model;

/// The length ids of the fields of a segment that have lengths, in the bytes of their file: a composite file with a
/// part for each of these fields.
#[derive(Drop)]
pub struct FieldNormReaders {
    parts: CompositeFile,
}

impl Model for FieldNormReaders {
    ghost use Rattle.std.specs.Prelude.{List};
    ghost use Rattle.seg_directory.specs.CompositeFiles.{Part};
    ghost use Rattle.seg_norms.specs.StoredNorms.{HaveIds};

    ghost Value = { List Part };

    ghost view = { λ r. r.parts };

    ghost invariant = { λ r. HaveIds r.parts };
}

impl FieldNormReaders {
    /// Checks the table of the parts, and takes no memory. Any byte is an id, so whatever is in a part is read.
    pub fn open(bytes: OwnedBytes) -> Result<FieldNormReaders, PostingsError>
        ensures read { MatchResult result (λ parts. composite bytes ≡ Some parts) (λ _. composite bytes ≡ None) }
        ensures err { IfErr result (λ e. e ≡ PostingsError.Malformed) }
    {
        parts_have_ids(bytes.as_slice());
        match CompositeFile::open(bytes) {
            Ok(parts) => Ok(FieldNormReaders { parts }),
            Err(_) => Err(PostingsError::Malformed),
        }
    }

    /// The same ids again, over the same bytes; this takes no memory.
    pub fn share(&self) -> FieldNormReaders
        ensures { result ≡ self.now }
    {
        FieldNormReaders {
            parts: self.parts.share(),
        }
    }

    /// The ids of a field; none where the file has no part for it.
    pub fn get_field(&self, field: Field) -> Option<FieldNormReader>
        ensures { result ≡ field_of self.now field }
    {
        match self.parts.open_read(field) {
            Some(ids) => Some(FieldNormReader::new(ids)),
            None => None,
        }
    }

    /// Whether there is a part for each field of a schema that has lengths, and for no other, each with an id for each
    /// document below `max_doc`.
    pub fn fit(&self, schema: &Schema, max_doc: u32) -> bool
        ensures fits { IsTrue result → HoldNorms schema.now max_doc self.now (norms_of schema.now self.now) }
        ensures differs { IsFalse result → (norms : List (List ℕ)) → AreNorms schema.now max_doc norms
            → self.now ≢ norms_parts schema.now norms }
        ensures exact { MatchBool result
            (lengths_of_parts self.now ≡ lengths_for schema.now max_doc)
            (lengths_of_parts self.now ≢ lengths_for schema.now max_doc) }
    {
        fit_parts(&self.parts, schema.fields(), max_doc)
    }
}

/// Each cell of each part of a file is a byte.
fn parts_have_ids(file: &[u8])
    ensures { (parts : List Part) → composite file.now ≡ Some parts → HaveIds parts }
{}

/// Whether parts are those of fields for this many documents.
fn fit_parts(parts: &CompositeFile, entries: &[FieldEntry], max_doc: u32) -> bool
    ensures { MatchBool result
        (lengths_of_parts parts.now ≡ lengths_for entries.now max_doc)
        (lengths_of_parts parts.now ≢ lengths_for entries.now max_doc) }
{
    let count = parts.num_fields();
    let mut place = 0;
    for (field, entry) in entries.iter().enumerate() {
        if entry.has_field_norms() {
            if !is_part(parts, place, field, max_doc) {
                return false;
            }
            place += 1;
        }
    }
    place == count
}

/// Whether the part at a place is that of a field, with this many ids.
fn is_part(parts: &CompositeFile, place: u32, field: usize, ids: u32) -> bool
    ensures { MatchBool result
        (slice_get (lengths_of_parts parts.now) place ≡ Some (field, ids))
        (slice_get (lengths_of_parts parts.now) place ≢ Some (field, ids)) }
{
    if place >= parts.num_fields() {
        return false;
    }
    let (part_field, bytes) = parts.part(place);
    part_field.field_id() as usize == field && bytes.len() == ids as usize
}

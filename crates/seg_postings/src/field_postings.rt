//! The dictionary and the postings of a field, which wait for its positions.
ghost use Rattle.std.specs.Prelude.{◌≡◌, ◌⊎◌, ℕ, List, IfOk, IfErr, MatchBool};
ghost use Rattle.seg_termdict.specs.Dictionary.{terms_of};
ghost use Rattle.seg_postings.specs.CompletedPostings.{ArePostingsBy, NoneComplete};
ghost use Rattle.seg_postings.specs.FieldSerializers.{TermWritten};
ghost use Rattle.seg_postings.specs.OpenedFields.{IsFieldBy, dictionary_terms, written_terms};

use crate::field_terms::FieldTerms;
use crate::inverted_index_reader::InvertedIndexReader;
use crate::last_term::{last_positions_end, last_postings_end};
use crate::range::bytes_in;
use seg_common::{OwnedBytes, u64_at};
use seg_values::PostingsError;
use std::alloc::AllocError;
use std::marker::Model;

/// The bytes of the total, with which the postings of a field begin.
pub(crate) const TOTAL_BYTES: usize = 8;

/// A field of which the dictionary and the postings are open. It is seen as the bytes of both, and the rules by which
/// they are checked.
#[derive(Drop)]
pub struct FieldPostings {
    field: FieldTerms,
    postings: OwnedBytes,
}

impl Model for FieldPostings {
    ghost use Rattle.std.specs.Prelude.{◌≡◌, ◌≤◌, None, length, drop};
    ghost use Rattle.seg_termdict.specs.Dictionary.{terms_of};
    ghost use Rattle.seg_termdict.specs.DictionaryBuilders.{last_term, postings_end};
    ghost use Rattle.seg_postings.specs.OpenedFields.{FirstParts};

    ghost Value = { FirstParts };

    ghost view = { λ f. record { dictionary = f.field.dictionary; postings = f.postings; rules = f.field.rules } };

    ghost invariant = { λ f. (8 ≤ length f.postings)
        × (postings_end (last_term None (terms_of f.field.dictionary)) ≡ length (drop 8 f.postings)) };
}

impl FieldPostings {
    pub(crate) fn new(
        field: FieldTerms,
        postings: OwnedBytes,
    ) -> Result<FieldPostings, PostingsError>
        ensures ok { IfOk result (λ parts. parts
            ≡ record { dictionary = field.dictionary; postings = postings; rules = field.rules }) }
        ensures complete { IfOk result (λ parts. ArePostingsBy field.rules field.dictionary postings) }
        ensures err { IfErr result (λ e. (e ≡ PostingsError.OutOfMemory)
            ⊎ ((e ≡ PostingsError.Malformed) × NoneComplete field.rules field.dictionary postings)) }
    {
        if !are_postings(&field, postings.as_slice())? {
            return Err(PostingsError::Malformed);
        }
        Ok(FieldPostings { field, postings })
    }

    /// Goes on with the positions. `Malformed`: the three parts spell no field by the rules.
    pub fn with_positions(self, positions: OwnedBytes) -> Result<InvertedIndexReader, PostingsError>
        ensures ok { IfOk result (λ reader. IsFieldBy self.rules self.dictionary self.postings positions reader.total
            (written_terms reader)) }
        ensures terms { IfOk result (λ reader. dictionary_terms reader ≡ terms_of self.dictionary) }
        ensures err { IfErr result (λ e. (e ≡ PostingsError.OutOfMemory)
            ⊎ ((e ≡ PostingsError.Malformed)
            × ((total : ℕ) (terms : List TermWritten)
            → IsFieldBy self.rules self.dictionary self.postings positions total terms → ⊥))) }
    {
        let FieldPostings { field, postings } = self;
        if last_positions_end(field.terms()) != positions.len() as u64 {
            return Err(PostingsError::Malformed);
        }
        let total = u64_at(postings.as_slice(), 0);
        let postings = postings.slice(TOTAL_BYTES, postings.len());
        if !field.are_terms(postings.as_slice(), positions.as_slice())? {
            return Err(PostingsError::Malformed);
        }
        Ok(InvertedIndexReader::new(field.into_terms(), total, postings, positions))
    }
}

/// Shares the bytes, and never fails.
impl Clone for FieldPostings {
    ghost is_clone = { λ field copy. copy ≡ field };

    ghost is_infallible = { λ _. Unit {0} };

    fn clone(&self) -> Result<FieldPostings, AllocError> {
        Ok(FieldPostings {
            field: self.field.clone()?,
            postings: self.postings.share(),
        })
    }
}

/// Whether bytes are the total of a field's tokens, and after it the postings of its terms, whatever its positions are.
fn are_postings(field: &FieldTerms, postings: &[u8]) -> Result<bool, PostingsError>
    ensures ok { IfOk result (λ are. MatchBool are (ArePostingsBy field.now.rules field.now.dictionary postings.now)
        (NoneComplete field.now.rules field.now.dictionary postings.now)) }
    ensures err { IfErr result (λ e. e ≡ PostingsError.OutOfMemory) }
{
    if postings.len() < TOTAL_BYTES {
        return Ok(false);
    }
    let body = bytes_in(postings, TOTAL_BYTES as u64, postings.len() as u64);
    if last_postings_end(field.terms()) != body.len() as u64 {
        return Ok(false);
    }
    field.are_counted(body)
}

//! A field that is open.
ghost use Rattle.std.specs.Prelude.{◌≡◌, true, [], map, length, IfOk, IfErr};
ghost use Rattle.std.specs.FinMap.{entries};
ghost use Rattle.std.specs.List.{AllByRecursion, Any, list_all};
ghost use Rattle.seg_values.specs.declared.schema.FieldKind.TheVariants as kinds;
ghost use Rattle.seg_postings.specs.OpenedFields.{IsReadable, read_term, dictionary_terms, written_terms};
ghost use Rattle.seg_postings.specs.TermMaps.{terms_held};
ghost use Rattle.seg_postings.specs.JsonSpaces.{AreSpaces};
ghost use Rattle.seg_postings.specs.AdjacentRanges.{RangesFollow};
ghost use Rattle.seg_postings.specs.TermForms.{is_formed};

use crate::field_space::InvertedIndexFieldSpace;
use crate::json_spaces::json_spaces;
use crate::range::bytes_in;
use crate::segment_postings::SegmentPostings;
use seg_common::{OwnedBytes, TermInfo};
use seg_termdict::TermDictionary;
use seg_values::PostingsError;
use std::alloc::Global;
use std::marker::Model;

/// The terms of a field with their postings, in the bytes that they were written to. It is seen as the total of the
/// field's tokens, and its terms, each with its info and its postings.
#[derive(Drop)]
pub struct InvertedIndexReader {
    terms: TermDictionary,
    total: u64,
    postings: OwnedBytes,
    positions: OwnedBytes,
}

impl Model for InvertedIndexReader {
    ghost use Rattle.std.specs.Prelude.{map};
    ghost use Rattle.std.specs.List.{AllByRecursion};
    ghost use Rattle.seg_postings.specs.OpenedFields.{OpenField, IsReadable, read_term};
    ghost use Rattle.seg_postings.specs.AdjacentRanges.{RangesFollow};

    ghost Value = { OpenField };

    ghost view = { λ r. record { total = r.total; terms = map (read_term r.postings r.positions) r.terms } };

    ghost invariant = { λ r. AllByRecursion (IsReadable r.postings r.positions) r.terms × RangesFollow r.terms };
}

impl InvertedIndexReader {
    /// A field without terms.
    pub fn empty(alloc: Global) -> Result<InvertedIndexReader, PostingsError>
        ensures terms { IfOk result (λ reader. reader.terms ≡ []) }
        ensures total { IfOk result (λ reader. reader.total ≡ 0) }
        ensures err { IfErr result (λ e. e ≡ PostingsError.OutOfMemory) }
    {
        let Ok(terms) = TermDictionary::empty(alloc) else {
            return Err(PostingsError::OutOfMemory);
        };
        let Ok(bytes) = OwnedBytes::new(alloc, &[]) else {
            return Err(PostingsError::OutOfMemory);
        };
        Ok(InvertedIndexReader::new(terms, 0, bytes.share(), bytes))
    }

    /// Of the postings after the total.
    pub(crate) fn new(
        terms: TermDictionary,
        total: u64,
        postings: OwnedBytes,
        positions: OwnedBytes,
    ) -> InvertedIndexReader
        requires read { AllByRecursion (IsReadable postings positions) terms }
        requires follow { RangesFollow terms }
        ensures { result ≡ record { total = total; terms = map (read_term postings positions) terms } }
    {
        InvertedIndexReader {
            terms,
            total,
            postings,
            positions,
        }
    }

    /// The terms strictly ascend in byte order, so they are those of a map.
    pub fn terms_ascend(&self)
        ensures { entries (terms_held (written_terms self.now)) ≡ map (λ t. (t.bytes, t.postings)) self.now.terms }
    {
        self.terms.keys_ascend();
    }

    /// The dictionary of the field.
    pub fn terms(&self) -> &TermDictionary
        ensures { result.now ≡ dictionary_terms self.now }
    {
        &self.terms
    }

    /// The postings of a term of the dictionary, by its info, from the first on.
    pub fn read_postings_from_terminfo(&self, info: &TermInfo) -> SegmentPostings<'_>
        requires { Any (λ t. t.1 ≡ info.now) (dictionary_terms self.now) }
        ensures left { AllByRecursion (λ t. t.info ≡ info.now → result.left ≡ t.postings) self.now.terms }
        ensures all { result.all ≡ info.now.doc_freq }
        ensures number { result.all ≡ length result.left }
    {
        let documents = bytes_in(
            self.postings.as_slice(),
            info.postings_start,
            info.postings_end,
        );
        let positions = bytes_in(
            self.positions.as_slice(),
            info.positions_start,
            info.positions_end,
        );
        SegmentPostings::new(info.doc_freq, documents, positions)
    }

    /// The total of the field's tokens, as its bytes say it.
    pub fn total_num_tokens(&self) -> u64
        ensures { result ≡ self.now.total }
    {
        self.total
    }

    /// The paths and types of the terms of a JSON field, with the space that the terms of each take.
    pub fn list_encoded_json_fields(
        &self,
        alloc: Global,
    ) -> Result<Vec<InvertedIndexFieldSpace>, PostingsError>
        requires { list_all (is_formed kinds.Json) (dictionary_terms self.now) ≡ true }
        ensures ok { IfOk result (λ spaces. AreSpaces (dictionary_terms self.now) spaces.items) }
        ensures err { IfErr result (λ e. e ≡ PostingsError.OutOfMemory) }
    {
        self.terms.keys_ascend();
        let Ok(spaces) = json_spaces(alloc, &self.terms) else {
            return Err(PostingsError::OutOfMemory);
        };
        Ok(spaces)
    }
}

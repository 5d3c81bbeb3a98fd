//! The dictionary of a field, which is opened first.
ghost use Rattle.std.specs.Prelude.{◌≡◌, ◌⊎◌, None, length, IfOk, IfErr};
ghost use Rattle.std.specs.List.{list_all, AllByRecursion};
ghost use Rattle.seg_termdict.specs.Dictionary.{terms_of};
ghost use Rattle.seg_termdict.specs.DictionaryBuilders.{last_term, positions_end};
ghost use Rattle.seg_postings.specs.CompletedPostings.{ArePostingsBy, NoneComplete};
ghost use Rattle.seg_postings.specs.FieldParts.{LiesWithin};
ghost use Rattle.seg_postings.specs.OpenedFields.{rules_of, is_read};
ghost use Rattle.seg_postings.specs.PostingsWithoutPositions.{is_counted};
ghost use Rattle.seg_postings.specs.TermForms.{IsDictionaryOf};

use crate::asked_kind::AskedKind;
use crate::field_postings::FieldPostings;
use crate::term_form::are_formed;
use crate::terms_check::{are_counted, are_terms};
use seg_common::OwnedBytes;
use seg_termdict::TermDictionary;
use seg_values::{FieldEntry, PostingsError};
use std::alloc::{AllocError, Global};
use std::marker::Model;

/// A field of which the dictionary is open. It is seen as the bytes of the dictionary, and the rules by which the entry
/// of the field and the number of documents say what its postings may be.
#[derive(Drop)]
pub struct FieldTerms {
    alloc: Global,
    bytes: OwnedBytes,
    terms: TermDictionary,
    asked: AskedKind,
    max_doc: u32,
}

impl Model for FieldTerms {
    ghost use Rattle.std.specs.Prelude.{◌≡◌};
    ghost use Rattle.seg_termdict.specs.Dictionary.{terms_of};
    ghost use Rattle.seg_postings.specs.OpenedFields.{FirstPart};
    ghost use Rattle.seg_postings.specs.TermForms.{IsDictionaryOf};

    ghost Value = { FirstPart };

    ghost view = { λ f. record {
      dictionary = f.bytes;
      rules = record { kind = f.asked.kind; index = f.asked.index; max_doc = f.max_doc };
    } };

    ghost invariant = { λ f. IsDictionaryOf f.asked.kind f.bytes × (f.terms ≡ terms_of f.bytes) };
}

impl FieldTerms {
    /// Opens the dictionary of the field with this entry, in a segment of `max_doc` documents. Each term has the form
    /// that the kind of the field asks for: a JSON or a facet field is scanned once for it.
    pub fn open(
        alloc: Global,
        terms: OwnedBytes,
        entry: &FieldEntry,
        max_doc: u32,
    ) -> Result<FieldTerms, PostingsError>
        ensures ok { IfOk result (λ field. IsDictionaryOf entry.now.kind terms
            × (field ≡ record { dictionary = terms; rules = rules_of entry.now max_doc })) }
        ensures err { IfErr result (λ e. (e ≡ PostingsError.Malformed) × (IsDictionaryOf entry.now.kind terms → ⊥)) }
    {
        let bytes = terms.share();
        let Ok(terms) = TermDictionary::open(terms) else {
            return Err(PostingsError::Malformed);
        };
        if !are_formed(&terms, entry.kind) {
            return Err(PostingsError::Malformed);
        }
        let asked = AskedKind {
            kind: entry.kind,
            index: entry.index,
        };
        Ok(FieldTerms {
            alloc,
            bytes,
            terms,
            asked,
            max_doc,
        })
    }

    /// Goes on with the postings, each term of which is read without its positions. `Malformed`: no positions complete
    /// these parts to a field.
    pub fn with_postings(self, postings: OwnedBytes) -> Result<FieldPostings, PostingsError>
        ensures ok { IfOk result (λ field. field
            ≡ record { dictionary = self.dictionary; postings = postings; rules = self.rules }) }
        ensures complete { IfOk result (λ field. ArePostingsBy self.rules self.dictionary postings) }
        ensures err { IfErr result (λ e. (e ≡ PostingsError.OutOfMemory)
            ⊎ ((e ≡ PostingsError.Malformed) × NoneComplete self.rules self.dictionary postings)) }
    {
        FieldPostings::new(self, postings)
    }

    pub(crate) fn terms(&self) -> &TermDictionary
        ensures terms { result.now ≡ terms_of self.now.dictionary }
        ensures dictionary { IsDictionaryOf self.now.rules.kind self.now.dictionary }
    {
        &self.terms
    }

    /// Whether each term can be read as the rules ask.
    pub(crate) fn are_terms(&self, postings: &[u8], positions: &[u8]) -> Result<bool, PostingsError>
        requires within { AllByRecursion (LiesWithin (length postings.now) (length positions.now))
            (terms_of self.now.dictionary) }
        ensures ok { IfOk result (λ all. all
            ≡ list_all (is_read self.now.rules postings.now positions.now) (terms_of self.now.dictionary)) }
        ensures err { IfErr result (λ e. e ≡ PostingsError.OutOfMemory) }
    {
        are_terms(
            self.alloc,
            &self.terms,
            self.asked,
            self.max_doc,
            postings,
            positions,
        )
    }

    /// Whether each term can be read as the rules ask, once it has some positions.
    pub(crate) fn are_counted(&self, postings: &[u8]) -> Result<bool, PostingsError>
        requires within { AllByRecursion
            (LiesWithin (length postings.now) (positions_end (last_term None (terms_of self.now.dictionary))))
            (terms_of self.now.dictionary) }
        ensures ok { IfOk result (λ all. all
            ≡ list_all (is_counted self.now.rules postings.now) (terms_of self.now.dictionary)) }
        ensures err { IfErr result (λ e. e ≡ PostingsError.OutOfMemory) }
    {
        are_counted(self.alloc, &self.terms, self.asked, self.max_doc, postings)
    }

    pub(crate) fn into_terms(self) -> TermDictionary
        ensures { result ≡ terms_of self.dictionary }
    {
        self.terms
    }
}

/// Shares the bytes, and never fails.
impl Clone for FieldTerms {
    ghost is_clone = { λ field copy. copy ≡ field };

    ghost is_infallible = { λ _. Unit {0} };

    fn clone(&self) -> Result<FieldTerms, AllocError> {
        Ok(FieldTerms {
            alloc: self.alloc,
            bytes: self.bytes.share(),
            terms: self.terms.clone()?,
            asked: self.asked,
            max_doc: self.max_doc,
        })
    }
}

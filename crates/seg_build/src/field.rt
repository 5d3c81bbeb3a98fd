//! A field while documents come.
ghost use Rattle.std.specs.Prelude.{◌≡◌, None, map, IfOk, OnOk};
ghost use Rattle.std.specs.FinMap as fin;
ghost use Rattle.seg_check.specs.IndexedValues as content;
ghost use Rattle.seg_check.specs.LeafContents.{with_texts};
ghost use Rattle.seg_check.specs.Paths.{at_path};
ghost use Rattle.seg_model.specs.DocumentCheck.{tree_refusal};
ghost use Rattle.seg_model.specs.Leaves as model;
ghost use Rattle.seg_model.specs.Occurrences.{value_terms};
ghost use Rattle.seg_values.specs.ValueTrees.{tree_of};
ghost use Rattle.seg_build.specs.AddedValues.{Fits, start_of, length_of, count_in, added};
ghost use Rattle.seg_build.specs.GatheredFieldTerms.{gathered};
ghost use Rattle.seg_model.specs.SaturatedNumbers.{saturated};
ghost use Rattle.seg_build.specs.FieldsByValue.{fresh};

use crate::gathered_terms::GatheredTerms;
use crate::json_terms::JsonTerms;
use crate::tokens::{add_tokens, next_start};
use crate::value_terms::add_value_terms;
use seg_check::counted_len;
use seg_terms::TermIndex;
use seg_tokens::{Token, Tokens};
use seg_values::{FieldEntry, FieldKind, OwnedValue};
use std::alloc::{AllocError, Global};
use std::marker::Model;

/// The terms of a field, and how far its newest document has come: where the next text begins, and the length of the
/// field so far. In any other document a text begins at 0, and the length is 0. What is of another kind than the field
/// is answered as out of memory.
#[derive(Drop)]
pub(crate) struct FieldPostings {
    pub terms: GatheredTerms,
    pub document: u32,
    pub start: u32,
    pub len: u32,
}

impl Model for FieldPostings {
    ghost use Rattle.seg_build.specs.FieldState.{FieldSoFar, field_code};
    ghost use Rattle.seg_build.specs.GatheredFieldTerms.{gathered};

    ghost Value = { FieldSoFar };

    ghost coded = { field_code };

    ghost view = { λ f. record {
      terms = (gathered f.terms).terms;
      starts = (gathered f.terms).starts;
      document = f.document;
      start = f.start;
      len = f.len;
    } };
}

impl FieldPostings {
    pub fn new(alloc: Global, entry: &FieldEntry) -> FieldPostings
        ensures { result ≡ fresh }
    {
        FieldPostings {
            terms: no_terms(alloc, entry.kind),
            document: 0,
            start: 0,
            len: 0,
        }
    }

    /// Adds a text of a document that no other one comes after, and answers how many of its tokens give terms. After an
    /// error some of its tokens may have been added.
    pub fn add_text(
        &mut self,
        alloc: Global,
        document: u32,
        tokens: &[Token],
    ) -> Result<usize, AllocError>
        requires { Fits document (content.tokens tokens.now) self.old }
        ensures added { OnOk result (self.new ≡ added document self.old (content.tokens tokens.now)) }
        ensures counted { IfOk result (λ more. more ≡ saturated (count_in (content.tokens tokens.now))) }
    {
        let start = self.start_of(document);
        let len = self.length_of(document);
        let GatheredTerms::Plain(terms) = &mut self.terms else {
            return Err(AllocError);
        };
        add_tokens(terms, alloc, document, start, tokens)?;
        let more = counted_len(tokens);
        self.document = document;
        self.start = next_start(start, tokens);
        self.len = len + more as u32;
        Ok(more)
    }

    /// Adds a JSON value that passed the check of leaves and keys, of a document that no other one comes after, with
    /// the tokens of its texts, and answers how many terms it gives, at most `usize::MAX`. After an error some of them
    /// may have been added.
    pub fn add_leaves(
        &mut self,
        alloc: Global,
        document: u32,
        expand_dots: bool,
        value: &OwnedValue,
        texts: &[Tokens],
    ) -> Result<usize, AllocError>
        requires keys { tree_refusal (tree_of value.now) ≡ None }
        requires fits { Fits document (content.leaves (with_texts texts.now
            (map (at_path expand_dots) (model.leaves (tree_of value.now))))) self.old }
        ensures added { OnOk result (self.new ≡ added document self.old (content.leaves (with_texts texts.now
            (map (at_path expand_dots) (model.leaves (tree_of value.now)))))) }
        ensures counted { IfOk result (λ more. more ≡ saturated (count_in (content.leaves (with_texts texts.now
            (map (at_path expand_dots) (model.leaves (tree_of value.now))))))) }
    {
        let start = self.start_of(document);
        let len = self.length_of(document);
        let GatheredTerms::Json(terms) = &mut self.terms else {
            return Err(AllocError);
        };
        let more = terms.add_leaves(alloc, document, expand_dots, value, texts)?;
        self.document = document;
        self.start = start;
        self.len = len;
        Ok(more)
    }

    /// Adds a value that is neither a text nor JSON, of a document that no other one comes after, and answers how many
    /// terms it gives. After an error some of them may have been added.
    pub fn add_terms(
        &mut self,
        alloc: Global,
        document: u32,
        value: &OwnedValue,
    ) -> Result<usize, AllocError>
        requires { Fits document (content.terms (value_terms (tree_of value.now))) self.old }
        ensures added { OnOk result
            (self.new ≡ added document self.old (content.terms (value_terms (tree_of value.now)))) }
        ensures counted { IfOk result (λ more. more
            ≡ saturated (count_in (content.terms (value_terms (tree_of value.now))))) }
    {
        let start = self.start_of(document);
        let len = self.length_of(document);
        let GatheredTerms::Plain(terms) = &mut self.terms else {
            return Err(AllocError);
        };
        let more = add_value_terms(terms, alloc, document, value)?;
        self.document = document;
        self.start = start;
        self.len = len + 1;
        Ok(more)
    }

    /// Where the next text of a document begins.
    fn start_of(&self, document: u32) -> u32
        ensures { result ≡ (start_of document self.now).here }
    {
        if self.document == document {
            self.start
        } else {
            0
        }
    }

    /// The length of the field in a document so far.
    pub fn length_of(&self, document: u32) -> u32
        ensures { result ≡ length_of document self.now }
    {
        if self.document == document {
            self.len
        } else {
            0
        }
    }
}

/// No terms of a field of a kind.
fn no_terms(alloc: Global, kind: FieldKind) -> GatheredTerms
    ensures { gathered result ≡ record { terms = fin.empty; starts = fin.empty } }
{
    match kind {
        FieldKind::Json => GatheredTerms::Json(JsonTerms::new(alloc)),
        _ => GatheredTerms::Plain(TermIndex::new(alloc)),
    }
}

//! The parts of a field whose postings are being written.
ghost use Rattle.std.specs.Prelude.{◌≡◌, ◌<◌, Some, None, List, length, IfOk, IsSomeAnd, OnOk, OnErr};
ghost use Rattle.seg_postings.specs.Field.{IsField};
ghost use Rattle.seg_postings.specs.FieldSerializers.{fresh, with_term, with_document, closed, MayOpen, MayOccur};

use crate::field_postings::TOTAL_BYTES;
use crate::occurrence::put_occurrence;
use crate::open_term::OpenTerm;
use crate::record_kind::RecordKind;
use seg_common::{TermInfo, put_u64};
use seg_termdict::TermDictionaryBuilder;
use std::alloc::{AllocError, Global};
use std::marker::Model;

/// A dictionary, the postings after the total of the field's tokens, and the positions, with the term that is open.
#[derive(Drop)]
pub(crate) struct FieldParts {
    field: u32,
    total: u64,
    dictionary: TermDictionaryBuilder,
    postings: Vec<u8>,
    positions: Vec<u8>,
    current: Option<OpenTerm>,
}

impl Model for FieldParts {
    ghost use Rattle.std.specs.Prelude.{drop};
    ghost use Rattle.seg_postings.specs.FieldSerializers.{FieldWriting};
    ghost use Rattle.seg_postings.specs.FieldParts.{writing, AreParts};

    ghost Value = { FieldWriting };

    ghost view = { λ p. writing p.field p.total p.dictionary (drop 8 p.postings.items) p.positions.items p.current };

    ghost invariant = { λ p. AreParts p.total p.dictionary p.postings.items p.positions.items p.current };
}

/// The three parts of a field, as bytes.
#[derive(Drop)]
pub(crate) struct FieldBytes {
    pub dictionary: Vec<u8>,
    pub postings: Vec<u8>,
    pub positions: Vec<u8>,
}

impl FieldParts {
    pub(crate) fn new(alloc: Global, field: u32, total: u64) -> Result<FieldParts, AllocError>
        ensures { IfOk result (λ parts. parts ≡ fresh field total) }
    {
        let Ok(dictionary) = TermDictionaryBuilder::create(alloc) else {
            return Err(AllocError);
        };
        let mut postings = Vec::new(alloc);
        put_u64(&mut postings, total)?;
        Ok(FieldParts {
            field,
            total,
            dictionary,
            postings,
            positions: Vec::new(alloc),
            current: None,
        })
    }

    pub(crate) fn field(&self) -> u32
        ensures { result ≡ self.now.field }
    {
        self.field
    }

    pub(crate) fn new_term(
        mut self,
        bytes: &[u8],
        kind: RecordKind,
    ) -> Result<FieldParts, AllocError>
        requires { MayOpen self bytes.now }
        ensures { IfOk result (λ parts. parts ≡ with_term bytes.now kind self) }
    {
        let postings_start = self.postings.len() as u64 - TOTAL_BYTES as u64;
        self.postings.push(kind.byte())?;
        let Ok(()) = self.dictionary.insert_key(bytes) else {
            return Err(AllocError);
        };
        self.current = Some(OpenTerm {
            kind,
            doc_freq: 0,
            last: 0,
            postings_start,
            positions_start: self.positions.len() as u64,
        });
        Ok(self)
    }

    pub(crate) fn write_doc(
        &mut self,
        document: u32,
        count: u32,
        positions: &[u32],
    ) -> Result<(), AllocError>
        requires { IsSomeAnd self.old.current (MayOccur document count positions.now) }
        ensures ok { OnOk result (self.new ≡ with_document document count positions.now self.old) }
        ensures err { OnErr result (self.new ≡ self.old) }
    {
        let Some(term) = self.current else {
            return Err(AllocError);
        };
        let gap = document - term.last;
        put_occurrence(
            &mut self.postings,
            &mut self.positions,
            term.kind,
            gap,
            count,
            positions,
        )?;
        self.current = Some(OpenTerm {
            doc_freq: term.doc_freq + 1,
            last: document,
            ..term
        });
        Ok(())
    }

    pub(crate) fn close_term(mut self) -> Result<FieldParts, AllocError>
        requires { IsSomeAnd self.current (λ t. 0 < length t.postings) }
        ensures { IfOk result (λ parts. parts ≡ closed self) }
    {
        let Some(term) = self.current else {
            return Err(AllocError);
        };
        let info = TermInfo {
            doc_freq: term.doc_freq,
            postings_start: term.postings_start,
            postings_end: self.postings.len() as u64 - TOTAL_BYTES as u64,
            positions_start: term.positions_start,
            positions_end: self.positions.len() as u64,
        };
        let Ok(()) = self.dictionary.insert_value(&info) else {
            return Err(AllocError);
        };
        self.current = None;
        Ok(self)
    }

    /// The bytes of the three parts.
    pub(crate) fn finish(self) -> Result<FieldBytes, AllocError>
        requires { self.current ≡ None }
        ensures { IfOk result
            (λ b. IsField b.dictionary.items b.postings.items b.positions.items self.total self.terms) }
    {
        let Ok(dictionary) = self.dictionary.finish() else {
            return Err(AllocError);
        };
        Ok(FieldBytes {
            dictionary,
            postings: self.postings,
            positions: self.positions,
        })
    }
}

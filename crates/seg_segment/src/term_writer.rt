//! The terms of a field, written document by document.
ghost use Rattle.std.specs.Prelude.{◌≡◌, ◌<◌, [], ◌∷◌, None, length, IfSome, IsSomeAnd, OnOk};
ghost use Rattle.seg_common.specs.WriterGrowth.{HasGrown};
ghost use Rattle.seg_postings.specs.FieldSerializers.{MayOccur, MayOpen, closed, with_document};
ghost use Rattle.seg_segment.specs.WrittenTerms.{AreOfKind, MayTake, opened, posting_of, with_more};

use seg_postings::{FieldSerializer, RecordKind};
use std::alloc::AllocError;
use std::marker::Model;

/// Writes the terms of a field, one document of a term after another. A term is begun by its first document, so that
/// none without a document is written.
#[derive(Drop)]
pub struct TermWriter {
    field: FieldSerializer,
    is_open: bool,
}

impl Model for TermWriter {
    ghost use Rattle.std.specs.Prelude.{◌≡◌, Option, IfSome, is_some};
    ghost use Rattle.seg_postings.specs.FieldSerializers.{FieldWriting};

    ghost Value = { Option FieldWriting };

    ghost view = { λ w. w.field };

    ghost invariant = { λ w. IfSome w.field (λ f. w.is_open ≡ is_some f.current) };
}

impl TermWriter {
    /// Of a field in which no term is open.
    pub(crate) fn new(field: FieldSerializer) -> TermWriter
        requires { IfSome field (λ w. w.current ≡ None) }
        ensures { result ≡ field }
    {
        TermWriter {
            field,
            is_open: false,
        }
    }

    /// The field, with all that was written.
    pub(crate) fn into_field(self) -> FieldSerializer
        ensures { result ≡ self }
    {
        self.field
    }

    /// Adds a document to the term with these bytes: how often the term occurs in it, and at which positions, as far as
    /// the kind keeps them. The first document of a term begins it.
    pub fn add_document(
        &mut self,
        bytes: &[u8],
        kind: RecordKind,
        document: u32,
        count: u32,
        positions: &[u32],
    ) -> Result<(), AllocError>
        requires recorded { AreOfKind kind count positions.now }
        requires takes { IsSomeAnd self.old (MayTake bytes.now (posting_of kind document count positions.now ∷ [])) }
        ensures { OnOk result
            (HasGrown self.old self.new (with_more bytes.now (posting_of kind document count positions.now ∷ []))) }
    {
        self.open_term(bytes, kind)?;
        self.write_document(document, count, positions)
    }

    /// Opens a term, unless it is open.
    fn open_term(&mut self, bytes: &[u8], kind: RecordKind) -> Result<(), AllocError>
        requires { IsSomeAnd self.old (λ w. w.current ≡ None → MayOpen w bytes.now) }
        ensures { OnOk result (HasGrown self.old self.new (opened bytes.now kind)) }
    {
        if self.is_open {
            return Ok(());
        }
        match self.field.new_term(bytes, kind) {
            Ok(()) => {
                self.is_open = true;
                Ok(())
            }
            Err(_) => Err(AllocError),
        }
    }

    /// Gives the open term a document.
    fn write_document(
        &mut self,
        document: u32,
        count: u32,
        positions: &[u32],
    ) -> Result<(), AllocError>
        requires { IfSome self.old (λ w. IsSomeAnd w.current (MayOccur document count positions.now)) }
        ensures { OnOk result (HasGrown self.old self.new (with_document document count positions.now)) }
    {
        match self.field.write_doc_at(document, count, positions) {
            Ok(()) => Ok(()),
            Err(_) => Err(AllocError),
        }
    }

    /// Ends a term, where a document began it.
    pub fn end_term(&mut self) -> Result<(), AllocError>
        requires { IsSomeAnd self.old (λ w. IfSome w.current (λ t. 0 < length t.postings)) }
        ensures { OnOk result (HasGrown self.old self.new closed) }
    {
        if !self.is_open {
            return Ok(());
        }
        match self.field.close_term() {
            Ok(()) => {
                self.is_open = false;
                Ok(())
            }
            Err(_) => Err(AllocError),
        }
    }
}

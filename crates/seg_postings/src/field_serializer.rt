//! The postings of one field, term by term.
ghost use Rattle.std.specs.Prelude.{◌≡◌, ◌<◌, ◌≤◌, ◌-◌, ◌^◌, Some, None, length, IfOk, IfErr, IfSome, IsSomeAnd, OnOk};
ghost use Rattle.seg_common.specs.WriterGrowth.{HasGrown};
ghost use Rattle.seg_directory.specs.CompositeFiles.{low_after};
ghost use Rattle.seg_postings.specs.FieldSerializers.{FieldWriting, fresh, with_term, with_document, closed, MayOpen, MayOccur};
ghost use Rattle.seg_postings.specs.FieldFiles.{AddsField};
ghost use Rattle.seg_postings.specs.PostingsBytes.{positions_after};
ghost use Rattle.seg_postings.specs.WritablePostings.{Rise};

use crate::field_parts::FieldParts;
use crate::inverted_index_serializer::InvertedIndexSerializer;
use crate::record_kind::RecordKind;
use seg_values::{Field, PostingsError};
use std::alloc::{AllocError, Global};
use std::marker::Model;

/// Writes the dictionary, the postings and the positions of one field: its terms in byte order, each opened, given its
/// documents in order, and closed. Once out of memory it answers so for good, and it is seen as nothing.
#[derive(Drop)]
pub struct FieldSerializer {
    parts: Option<FieldParts>,
    /// The positions of a document whose differences are given; kept for its room.
    positions: Vec<u32>,
}

impl Model for FieldSerializer {
    ghost use Rattle.std.specs.Prelude.{Option};
    ghost use Rattle.seg_postings.specs.FieldSerializers.{FieldWriting};

    ghost Value = { Option FieldWriting };

    ghost view = { λ s. s.parts };
}

impl FieldSerializer {
    pub(crate) fn new(
        alloc: Global,
        field: Field,
        total: u64,
    ) -> Result<FieldSerializer, PostingsError>
        ensures ok { IfOk result (λ f. f ≡ Some (fresh field total)) }
        ensures err { IfErr result (λ e. e ≡ PostingsError.OutOfMemory) }
    {
        let parts = FieldParts::new(alloc, field.field_id(), total)?;
        Ok(FieldSerializer {
            parts: Some(parts),
            positions: Vec::new(alloc),
        })
    }

    /// Opens a term, which is greater than those before it.
    pub fn new_term(&mut self, bytes: &[u8], kind: RecordKind) -> Result<(), PostingsError>
        requires { IfSome self.old (λ w. MayOpen w bytes.now) }
        ensures ok { OnOk result (HasGrown self.old self.new (with_term bytes.now kind)) }
        ensures err { IfErr result (λ e. (e ≡ PostingsError.OutOfMemory) × (self.new ≡ None)) }
    {
        let Some(parts) = self.parts.take() else {
            return Err(PostingsError::OutOfMemory);
        };
        let parts = parts.new_term(bytes, kind)?;
        self.parts = Some(parts);
        Ok(())
    }

    /// Adds a document to the open term: how often the term occurs in it, and, where positions are kept, at which
    /// positions, each as its difference from the one before, the first from 0. The sum of them is below 2^32.
    pub fn write_doc(
        &mut self,
        doc: u32,
        count: u32,
        position_deltas: &[u32],
    ) -> Result<(), PostingsError>
        requires { IfSome self.old (λ w. IsSomeAnd w.current
            (MayOccur doc count (positions_after 0 position_deltas.now))) }
        ensures ok { OnOk result
            (HasGrown self.old self.new (with_document doc count (positions_after 0 position_deltas.now))) }
        ensures err { IfErr result (λ e. (e ≡ PostingsError.OutOfMemory) × (self.new ≡ None)) }
    {
        let Some(parts) = &mut self.parts else {
            return Err(PostingsError::OutOfMemory);
        };
        if set_positions(&mut self.positions, position_deltas).is_ok()
            && parts.write_doc(doc, count, &self.positions).is_ok()
        {
            return Ok(());
        }
        self.parts = None;
        Err(PostingsError::OutOfMemory)
    }

    /// As `write_doc`, with the positions themselves, which don't fall.
    pub fn write_doc_at(
        &mut self,
        doc: u32,
        count: u32,
        positions: &[u32],
    ) -> Result<(), PostingsError>
        requires { IfSome self.old (λ w. IsSomeAnd w.current (MayOccur doc count positions.now)) }
        ensures ok { OnOk result (HasGrown self.old self.new (with_document doc count positions.now)) }
        ensures err { IfErr result (λ e. (e ≡ PostingsError.OutOfMemory) × (self.new ≡ None)) }
    {
        let Some(parts) = &mut self.parts else {
            return Err(PostingsError::OutOfMemory);
        };
        if parts.write_doc(doc, count, positions).is_ok() {
            return Ok(());
        }
        self.parts = None;
        Err(PostingsError::OutOfMemory)
    }

    /// Closes the open term, which has a document.
    pub fn close_term(&mut self) -> Result<(), PostingsError>
        requires { IfSome self.old (λ w. IsSomeAnd w.current (λ t. 0 < length t.postings)) }
        ensures ok { OnOk result (HasGrown self.old self.new closed) }
        ensures err { IfErr result (λ e. (e ≡ PostingsError.OutOfMemory) × (self.new ≡ None)) }
    {
        let Some(parts) = self.parts.take() else {
            return Err(PostingsError::OutOfMemory);
        };
        let parts = parts.close_term()?;
        self.parts = Some(parts);
        Ok(())
    }

    /// Adds the field, which is above those added before, to the files. Where that is refused, so are the files.
    pub fn close(self, serializer: &mut InvertedIndexSerializer) -> Result<(), PostingsError>
        requires closed { IfSome self (λ w. w.current ≡ None) }
        requires ascends { IfSome self (λ w. IfSome serializer.old (λ f. (low_after 0 f.terms ≤ w.field)
            × (low_after 0 f.postings ≤ w.field) × (low_after 0 f.positions ≤ w.field))) }
        requires limit { IfSome self (λ w. w.field < 2 ^ 32 - 1) }
        ensures ok { OnOk result ((w : FieldWriting) × (self ≡ Some w) × AddsField serializer.old serializer.new w) }
        ensures err { IfErr result (λ e. (e ≡ PostingsError.OutOfMemory) × (serializer.new ≡ None)) }
    {
        let FieldSerializer { parts, .. } = self;
        let Some(parts) = parts else {
            serializer.refuse();
            return Err(PostingsError::OutOfMemory);
        };
        let field = Field::from_field_id(parts.field());
        let Ok(bytes) = parts.finish() else {
            serializer.refuse();
            return Err(PostingsError::OutOfMemory);
        };
        serializer.add_field(field, &bytes)
    }
}

/// Makes a list the positions of which these are the differences.
fn set_positions(positions: &mut Vec<u32>, deltas: &[u32]) -> Result<(), AllocError>
    requires { Rise 0 (positions_after 0 deltas.now) }
    ensures { OnOk result (positions.new.items ≡ positions_after 0 deltas.now) }
{
    positions.clear();
    let mut position = 0;
    for delta in deltas {
        position += *delta;
        positions.push(position)?;
    }
    Ok(())
}

//! The writer of a segment.
ghost use Rattle.std.specs.Prelude.{◌≡◌, ◌⊎◌, [], List, ℕ, Some, None, Err, IsTrue, IfOk, IfErr, IfSome, IsSomeAnd, OnOk};
ghost use Rattle.std.specs.FinMap.{get};
ghost use Rattle.seg_directory.specs.DiskRuns.{KeepsOnDisk};
ghost use Rattle.seg_values.specs.Tree.{Document};
ghost use Rattle.seg_model.specs.Columns.{columns};
ghost use Rattle.seg_model.specs.Fields.{Analyzer};
ghost use Rattle.seg_meta.specs.IndexOfFiles as index;
ghost use Rattle.seg_build.specs.FieldTerms.{fields_of};
ghost use Rattle.seg_build.specs.FinishedFiles.{Finalizes};
ghost use Rattle.seg_segment.specs.IndexForms.{segment_forms};
ghost use Rattle.seg_model.specs.SaturatedNumbers.{saturated};
ghost use Rattle.seg_build.specs.MemoryUsage.{memory_usage};
ghost use Rattle.seg_segment.specs.SegmentFiles.{IsOtherName};
ghost use Rattle.seg_segment.specs.DocumentsOfFiles.{StandFor};
ghost use Rattle.seg_build.specs.StoredBlocks.{HasBlocks};
ghost use Rattle.seg_build.specs.PostingsTotals.{TotalsAreCounts};
ghost use Rattle.seg_check.specs.WriterStart.{IsStartError, start_refusal};

use crate::add_operation::{AddOperation, Opstamp};
use crate::finished_segment::{finish, memory_segment};
use crate::memory_segment::MemorySegment;
use crate::usage::length_fields;
use crate::writer_parts::WriterParts;
use seg_check::{checked_values, start_refusal};
use seg_common::{FileName, SegmentComponent};
use seg_directory::Directory;
use seg_meta::{IndexSettings, Segment};
use seg_segment::MAX_DOCUMENTS;
use seg_store::documents_stay_in_order;
use seg_tokens::Analyzers;
use seg_values::{ArgumentCause, Document, Pairs, TResult, TantivyError};
use std::alloc::Global;
use std::marker::Model;

/// Takes documents one by one, and makes the six files of their segment. Once out of memory it has nothing any more.
#[derive(Drop)]
pub struct SegmentWriter<'a, Z: Analyzers> {
    alloc: Global,
    analyzers: &'a Z,
    segment: Segment,
    block_size: u32,
    parts: Option<WriterParts>,
}

impl<'a, Z: Analyzers> Model for SegmentWriter<'a, Z> {
    ghost use Rattle.std.specs.Prelude.{◌≡◌, true, option_map, IfSome, IsTrue};
    ghost use Rattle.std.specs.List.{AllByRecursion};
    ghost use Rattle.seg_model.specs.Fields.{indexing_tokenizer};
    ghost use Rattle.seg_model.specs.ValidInputs.{names_fit};
    ghost use Rattle.seg_column_format.specs.FastTokenizers.{AreKnown};
    ghost use Rattle.std.specs.Coded.{codes};
    ghost use Rattle.seg_build.specs.FieldState.{field_code};
    ghost use Rattle.seg_build.specs.SegmentWriters.{SegmentWriting, kept_of, IsUnderWay};

    ghost Value = { Z × SegmentWriting };

    ghost coded = { Prim.hlevel (codes, field_code) };

    ghost view = { λ w. (
      w.analyzers.now,
      record {
        schema = w.segment.schema;
        id = w.segment.meta.id;
        block_size = w.block_size;
        kept = option_map kept_of w.parts;
      },
    ) };

    ghost invariant = { λ w. (names_fit w.segment.schema ≡ true)
        × AllByRecursion (λ e. IsTrue (Z.knows w.analyzers.now (indexing_tokenizer e))) w.segment.schema
        × AreKnown (Z.knows w.analyzers.now) w.segment.schema
        × IfSome w.parts (λ parts. IsUnderWay w.segment.schema (Z.tokens_of w.analyzers.now) (kept_of parts)) };
}

impl<'a, Z: Analyzers> SegmentWriter<'a, Z> {
    ghost use Rattle.seg_build.specs.SegmentWriters.{document_count, HasPlace, IsOfSame, Adds, AddsNone, Writes};

    /// A writer of no documents.
    pub fn for_segment(
        alloc: Global,
        memory_budget_in_bytes: usize,
        segment: Segment,
        settings: &IndexSettings,
        analyzers: &'a Z,
    ) -> TResult<SegmentWriter<'a, Z>>
        ensures ok { IfOk result (λ w. Writes (Z.tokens_of analyzers.now) [] [] w.1) }
        ensures of { IfOk result (λ w. (w.0 ≡ analyzers.now) × (w.1.schema ≡ segment.schema)
            × (w.1.id ≡ segment.meta.id)) }
        ensures blocks { IfOk result (λ w. w.1.block_size ≡ settings.now.docstore_blocksize) }
        ensures refused { IfSome
            (start_refusal (Z.knows analyzers.now) memory_budget_in_bytes segment.schema settings.now)
            (λ e. result ≡ Err e) }
        ensures errors { IfErr result IsStartError }
        ensures causes { IfErr result (λ e.
            (start_refusal (Z.knows analyzers.now) memory_budget_in_bytes segment.schema settings.now ≡ Some e)
            ⊎ (e ≡ TantivyError.OutOfMemory)) }
    {
        let schema = segment.schema();
        if let Some(e) = start_refusal(analyzers, memory_budget_in_bytes, schema, settings) {
            return Err(e);
        }
        let block_size = settings.docstore_blocksize;
        let Ok(parts) = WriterParts::new(alloc, schema, analyzers, block_size) else {
            return Err(TantivyError::OutOfMemory);
        };
        Ok(SegmentWriter {
            alloc,
            analyzers,
            segment,
            block_size,
            parts: Some(parts),
        })
    }

    /// How many documents it has; none any more, once out of memory.
    pub fn max_doc(&self) -> u32
        ensures { result ≡ document_count self.now.1.kept }
    {
        match &self.parts {
            Some(parts) => parts.stamps.len() as u32,
            None => 0,
        }
    }

    /// How many documents it has: none is deleted yet.
    pub fn num_docs(&self) -> u32
        ensures { result ≡ document_count self.now.1.kept }
    {
        self.max_doc()
    }

    /// How much memory its documents take, by a formula: the bytes of the stored documents, 16 for each occurrence of a
    /// term and for each value in a fast field, and one for each document and field with lengths; at most `usize::MAX`.
    /// Nothing, once out of memory.
    pub fn mem_usage(&self) -> usize
        ensures of { (documents : List Document) → (stamps : List ℕ)
            → Writes (Z.tokens_of self.now.0) documents stamps self.now.1
            → result ≡ saturated (memory_usage self.now.1.schema (Z.tokens_of self.now.0) documents) }
        ensures nothing { self.now.1.kept ≡ None → result ≡ 0 }
    {
        let Some(parts) = &self.parts else {
            return 0;
        };
        let lengths = parts
            .stamps
            .len()
            .saturating_mul(length_fields(self.segment.schema()));
        let occurrences = parts.occurrences.saturating_mul(16);
        let terms = parts.store.mem_usage().saturating_add(occurrences);
        let columns = parts.fast.mem_usage();
        let values = terms.saturating_add(columns);
        values.saturating_add(lengths)
    }

    /// Adds a document after the others.
    pub fn add_document<D: Document + Drop>(&mut self, operation: AddOperation<D>) -> TResult<()>
        ensures ok { OnOk result
            (Adds (Z.tokens_of self.old.0) (D.pairs_of operation.document) operation.opstamp self.old.1 self.new.1) }
        ensures err { IfErr result
            (AddsNone (Z.tokens_of self.old.0)
            (D.pairs_of operation.document) operation.opstamp self.old.1 self.new.1) }
        ensures analyzers { self.new.0 ≡ self.old.0 }
        ensures same { IsOfSame self.old.1 self.new.1 }
    {
        let AddOperation { opstamp, document } = operation;
        self.add_ref(opstamp, &document)
    }

    /// Adds a document after the others. An error tells the stamp as the place of the document.
    pub fn add_ref<D: Document>(&mut self, opstamp: Opstamp, document: &D) -> TResult<()>
        ensures ok { OnOk result
            (Adds (Z.tokens_of self.old.0) (D.pairs_of document.now) opstamp self.old.1 self.new.1) }
        ensures err { IfErr result
            (AddsNone (Z.tokens_of self.old.0) (D.pairs_of document.now) opstamp self.old.1 self.new.1) }
        ensures analyzers { self.new.0 ≡ self.old.0 }
        ensures same { IsOfSame self.old.1 self.new.1 }
    {
        if let Some(refusal) = self.place_refusal() {
            return Err(refusal);
        }
        let Ok(pairs) = document.pairs(self.alloc) else {
            self.parts = None;
            return Err(TantivyError::OutOfMemory);
        };
        self.add_pairs(opstamp, &pairs)
    }

    /// Why no further document is taken, whatever it is.
    fn place_refusal(&self) -> Option<TantivyError>
        ensures place { result ≡ None → IsSomeAnd self.now.1.kept HasPlace }
        ensures refused { (analyzer : Analyzer) → (document : Document) → (stamp : ℕ)
            → IfSome result (AddsNone analyzer document stamp self.now.1 self.now.1) }
    {
        match &self.parts {
            Some(parts) if parts.stamps.len() < MAX_DOCUMENTS => None,
            Some(_) => Some(TantivyError::InvalidArgument(ArgumentCause::Documents)),
            None => Some(TantivyError::SystemError),
        }
    }

    /// Adds a document after the others, by its pairs.
    fn add_pairs(&mut self, opstamp: Opstamp, document: &Pairs<'_>) -> TResult<()>
        requires { IsSomeAnd self.old.1.kept HasPlace }
        ensures added { OnOk result (Adds (Z.tokens_of self.old.0) document.now opstamp self.old.1 self.new.1)
            × IfErr result (AddsNone (Z.tokens_of self.old.0) document.now opstamp self.old.1 self.new.1) }
        ensures same { (self.new.0 ≡ self.old.0) × IsOfSame self.old.1 self.new.1 }
    {
        let Some(parts) = self.parts.take() else {
            return Err(TantivyError::SystemError);
        };
        document.texts_are_utf8();
        documents_stay_in_order();
        let alloc = self.alloc;
        let schema = self.segment.schema();
        let analyzers = self.analyzers;
        match checked_values(alloc, schema, analyzers, document, opstamp as usize) {
            Ok(values) => {
                match parts.with_document(alloc, schema, analyzers, document, &values, opstamp) {
                    Ok(parts) => {
                        self.parts = Some(parts);
                        Ok(())
                    }
                    Err(_) => Err(TantivyError::OutOfMemory),
                }
            }
            Err(e) => match e {
                TantivyError::OutOfMemory => Err(e),
                _ => {
                    self.parts = Some(parts);
                    Err(e)
                }
            },
        }
    }

    /// Makes the six files of the segment, which then stands for the documents that were added, and answers their
    /// stamps. Where the numbers of a path have no common type, that is told before anything is written. Of any other
    /// name a crash leaves what it might have left before.
    pub fn finalize<W: Directory>(self, directory: &mut W) -> TResult<Vec<Opstamp>>
        ensures stands { IsTrue (W.state directory.old).tells
            → OnOk result ((documents : List Document) (stamps : List ℕ)
            → Writes (Z.tokens_of self.entry.0) documents stamps self.entry.1
            → index.StandsFor segment_forms (W.state directory.new).files self.entry.1.schema
            (Z.tokens_of self.entry.0) self.entry.1.id documents) }
        ensures totals { IsTrue (W.state directory.old).tells
            → OnOk result ((documents : List Document) (stamps : List ℕ)
            → Writes (Z.tokens_of self.entry.0) documents stamps self.entry.1
            → (postings : List ℕ)
            → get (W.state directory.new).files (FileName.Part self.entry.1.id SegmentComponent.Postings)
            ≡ Some postings
            → TotalsAreCounts postings (fields_of self.entry.1.schema (Z.tokens_of self.entry.0) documents)) }
        ensures blocks { IsTrue (W.state directory.old).tells
            → OnOk result ((documents : List Document) (stamps : List ℕ)
            → Writes (Z.tokens_of self.entry.0) documents stamps self.entry.1
            → (store : List ℕ)
            → get (W.state directory.new).files (FileName.Part self.entry.1.id SegmentComponent.Store) ≡ Some store
            → HasBlocks self.entry.1.schema self.entry.1.block_size documents store) }
        ensures stamps { IfOk result (λ answer. (documents : List Document) (stamps : List ℕ)
            → Writes (Z.tokens_of self.entry.0) documents stamps self.entry.1 → answer.items ≡ stamps) }
        ensures does { Finalizes self.entry.1 result (W.state directory.old) (W.state directory.new) }
        ensures disk { IsTrue (W.state directory.old).disk.told → KeepsOnDisk (IsOtherName self.entry.1.id)
            (W.state directory.old).disk (W.state directory.new).disk }
    {
        let SegmentWriter {
            alloc,
            analyzers: _,
            segment,
            block_size: _,
            parts,
        } = self;
        match parts {
            Some(parts) => finish(alloc, segment, parts, directory),
            None => Err(TantivyError::SystemError),
        }
    }

    /// The segment in memory, for a caller that makes its files: they stand for the documents that were added.
    pub fn into_segment(self) -> TResult<MemorySegment>
        ensures stands { IfOk result (λ made. (documents : List Document) (stamps : List ℕ)
            → Writes (Z.tokens_of self.entry.0) documents stamps self.entry.1
            → StandFor self.entry.1.schema (Z.tokens_of self.entry.0) documents made.files) }
        ensures fields { IfOk result (λ made. (documents : List Document) (stamps : List ℕ)
            → Writes (Z.tokens_of self.entry.0) documents stamps self.entry.1
            → made.fields ≡ fields_of self.entry.1.schema (Z.tokens_of self.entry.0) documents) }
        ensures totals { IfOk result (λ made. TotalsAreCounts made.files.postings made.fields) }
        ensures blocks { IfOk result (λ made. (documents : List Document) (stamps : List ℕ)
            → Writes (Z.tokens_of self.entry.0) documents stamps self.entry.1
            → HasBlocks self.entry.1.schema self.entry.1.block_size documents made.files.store) }
        ensures stamps { IfOk result (λ made. (documents : List Document) (stamps : List ℕ)
            → Writes (Z.tokens_of self.entry.0) documents stamps self.entry.1 → made.stamps.items ≡ stamps) }
        ensures lacking { self.entry.1.kept ≡ None → result ≡ Err TantivyError.SystemError }
        ensures mixed { (documents : List Document) (stamps : List ℕ)
            → Writes (Z.tokens_of self.entry.0) documents stamps self.entry.1
            → columns self.entry.1.schema (Z.tokens_of self.entry.0) documents ≡ None
            → result ≡ Err (TantivyError.InvalidArgument ArgumentCause.Numbers) }
        ensures errors { IfErr result (λ e. ((e ≡ TantivyError.SystemError) × (self.entry.1.kept ≡ None))
            ⊎ ((e ≡ TantivyError.OutOfMemory)
            ⊎ ((e ≡ TantivyError.InvalidArgument ArgumentCause.Numbers)
            × ((documents : List Document) (stamps : List ℕ)
            → Writes (Z.tokens_of self.entry.0) documents stamps self.entry.1
            → columns self.entry.1.schema (Z.tokens_of self.entry.0) documents ≡ None)))) }
    {
        let SegmentWriter {
            alloc,
            analyzers: _,
            segment,
            block_size: _,
            parts,
        } = self;
        let Some(parts) = parts else {
            return Err(TantivyError::SystemError);
        };
        memory_segment(alloc, segment, parts)
    }
}

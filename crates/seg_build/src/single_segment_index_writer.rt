//! The writer of an index of one segment.
ghost use Rattle.std.specs.Prelude.{◌≡◌, ◌⊎◌, [], List, ℕ, Some, None, Err, IsTrue, IfOk, IfErr, IfSome, OnOk, length};
ghost use Rattle.std.specs.FinMap.{get};
ghost use Rattle.seg_values.specs.Tree.{Document};
ghost use Rattle.seg_meta.specs.IndexOfFiles as index_of_files;
ghost use Rattle.seg_meta.specs.MetaMeaning.{meta_of, settings_of};
ghost use Rattle.seg_segment.specs.IndexForms.{segment_forms};
ghost use Rattle.seg_segment.specs.SegmentFiles.{KeepsAllBut};
ghost use Rattle.seg_build.specs.FieldTerms.{fields_of};
ghost use Rattle.seg_model.specs.SaturatedNumbers.{saturated};
ghost use Rattle.seg_build.specs.MemoryUsage.{memory_usage};
ghost use Rattle.seg_build.specs.SegmentWriters.{Adds, AddsNone, IsOfSame, Writes, document_count};
ghost use Rattle.seg_build.specs.StoredBlocks.{HasBlocks};
ghost use Rattle.seg_build.specs.PostingsTotals.{TotalsAreCounts};
ghost use Rattle.seg_check.specs.WriterStart.{IsStartError, start_refusal};
ghost use Rattle.seg_build.specs.IndexWriters.{FinalizesIndex, index_files, one_segment_meta};

use crate::SegmentWriter;
use crate::index_meta::save_one_segment;
use seg_common::{FileName, SegmentComponent, SegmentId};
use seg_directory::Directory;
use seg_meta::{Index, Segment, SegmentMeta};
use seg_tokens::Analyzers;
use seg_values::{Document, TResult, TantivyDocument, TantivyError};
use std::alloc::Global;
use std::marker::{Model, PhantomData};

/// Takes documents one by one, and makes an index of one segment of them. Their stamps are 0, 1 and so on: a document
/// that is refused uses up none. Once out of memory it has nothing any more.
#[derive(Drop)]
pub struct SingleSegmentIndexWriter<'a, Z: Analyzers, D = TantivyDocument> {
    alloc: Global,
    index: Index,
    id: SegmentId,
    writer: SegmentWriter<'a, Z>,
    takes: PhantomData<D>,
}

impl<'a, Z: Analyzers, D> Model for SingleSegmentIndexWriter<'a, Z, D> {
    ghost use Rattle.std.specs.Prelude.{◌≡◌};
    ghost use Rattle.std.specs.Coded.{codes};
    ghost use Rattle.seg_meta.specs.MetaMeaning.{settings_of};
    ghost use Rattle.seg_build.specs.FieldState.{field_code};
    ghost use Rattle.seg_build.specs.IndexWriters.{IndexWriting, IsUnderWay};

    ghost Value = { Z × IndexWriting };

    ghost coded = { Prim.hlevel (codes, field_code) };

    ghost view = { λ w. (
      w.writer.0,
      record {
        settings = settings_of w.index.index_settings;
        segment = w.writer.1;
      },
    ) };

    ghost invariant = { λ w. (w.writer.1.schema ≡ w.index.schema) × (w.writer.1.id ≡ w.id)
        × IsUnderWay (Z.tokens_of w.writer.0) w.writer.1 };
}

impl<'a, Z: Analyzers, D: Document + Drop> SingleSegmentIndexWriter<'a, Z, D> {
    /// A writer of no documents, for an index with the settings and the schema of this one: what segments it lists is
    /// not looked at.
    pub fn new(
        alloc: Global,
        index: Index,
        mem_budget: usize,
        id: SegmentId,
        analyzers: &'a Z,
    ) -> TResult<SingleSegmentIndexWriter<'a, Z, D>>
        ensures ok { IfOk result (λ w. Writes (Z.tokens_of analyzers.now) [] [] w.1.segment) }
        ensures of { IfOk result (λ w. (w.0 ≡ analyzers.now)
            × (w.1.segment.schema ≡ index.schema) × (w.1.segment.id ≡ id)) }
        ensures settings { IfOk result (λ w. (w.1.settings ≡ settings_of index.index_settings)
            × (w.1.segment.block_size ≡ index.index_settings.docstore_blocksize)) }
        ensures refused { IfSome (start_refusal (Z.knows analyzers.now) mem_budget index.schema index.index_settings)
            (λ e. result ≡ Err e) }
        ensures errors { IfErr result IsStartError }
        ensures causes { IfErr result (λ e.
            (start_refusal (Z.knows analyzers.now) mem_budget index.schema index.index_settings ≡ Some e)
            ⊎ (e ≡ TantivyError.OutOfMemory)) }
    {
        let segment = Segment::new(index.schema().share(), SegmentMeta::new(id, 0, None));
        match SegmentWriter::for_segment(alloc, mem_budget, segment, index.settings(), analyzers) {
            Ok(writer) => Ok(SingleSegmentIndexWriter {
                alloc,
                index,
                id,
                writer,
                takes: PhantomData,
            }),
            Err(e) => Err(e),
        }
    }

    /// How much memory its documents take, by the formula of `SegmentWriter::mem_usage`.
    pub fn mem_usage(&self) -> usize
        ensures of { (documents : List Document) → (stamps : List ℕ)
            → Writes (Z.tokens_of self.now.0) documents stamps self.now.1.segment
            → result ≡ saturated (memory_usage self.now.1.segment.schema (Z.tokens_of self.now.0) documents) }
        ensures nothing { self.now.1.segment.kept ≡ None → result ≡ 0 }
    {
        self.writer.mem_usage()
    }

    /// Adds a document after the others: how many there are is its stamp, which an error tells as the place of the
    /// document.
    pub fn add_document(&mut self, document: D) -> TResult<()>
        ensures ok { OnOk result (Adds (Z.tokens_of self.old.0) (D.pairs_of document)
            (document_count self.old.1.segment.kept) self.old.1.segment self.new.1.segment) }
        ensures err { IfErr result (AddsNone (Z.tokens_of self.old.0) (D.pairs_of document)
            (document_count self.old.1.segment.kept) self.old.1.segment self.new.1.segment) }
        ensures analyzers { self.new.0 ≡ self.old.0 }
        ensures settings { self.new.1.settings ≡ self.old.1.settings }
        ensures same { IsOfSame self.old.1.segment self.new.1.segment }
    {
        let stamp = u64::from(self.writer.max_doc());
        self.writer.add_ref(stamp, &document)
    }

    /// Makes the index: the six files of its segment, and then its meta, with stamp 0 and without a payload. Where the
    /// numbers of a path have no common type, that is told before anything is written. Other files of the directory
    /// stay, but for its meta, which is replaced.
    pub fn finalize<W: Directory>(self, directory: &mut W) -> TResult<Index>
        ensures stands { IsTrue (W.state directory.old).tells
            → OnOk result ((documents : List Document) (stamps : List ℕ)
            → Writes (Z.tokens_of self.entry.0) documents stamps self.entry.1.segment
            → index_of_files.StandsFor segment_forms (W.state directory.new).files self.entry.1.segment.schema
            (Z.tokens_of self.entry.0) self.entry.1.segment.id documents) }
        ensures totals { IsTrue (W.state directory.old).tells
            → OnOk result ((documents : List Document) (stamps : List ℕ)
            → Writes (Z.tokens_of self.entry.0) documents stamps self.entry.1.segment
            → (postings : List ℕ)
            → get (W.state directory.new).files (FileName.Part self.entry.1.segment.id SegmentComponent.Postings)
            ≡ Some postings
            → TotalsAreCounts postings (fields_of self.entry.1.segment.schema (Z.tokens_of self.entry.0) documents)) }
        ensures blocks { IsTrue (W.state directory.old).tells
            → OnOk result ((documents : List Document) (stamps : List ℕ)
            → Writes (Z.tokens_of self.entry.0) documents stamps self.entry.1.segment
            → (store : List ℕ)
            → get (W.state directory.new).files (FileName.Part self.entry.1.segment.id SegmentComponent.Store)
            ≡ Some store
            → HasBlocks self.entry.1.segment.schema self.entry.1.segment.block_size documents store) }
        ensures meta { IfOk result (λ index. (documents : List Document) (stamps : List ℕ)
            → Writes (Z.tokens_of self.entry.0) documents stamps self.entry.1.segment
            → meta_of index ≡ one_segment_meta self.entry.1.settings self.entry.1.segment.schema self.entry.1.segment.id
            (length documents)) }
        ensures output_meta { IsTrue (W.state directory.old).tells → IfOk result (λ index.
            index_of_files.index_of segment_forms (W.state directory.new).files ≡ Some (meta_of index)) }
        ensures does { FinalizesIndex self.entry.1 result (W.state directory.old) (W.state directory.new) }
        ensures others { KeepsAllBut (index_files self.entry.1.segment.id)
            (W.state directory.old).files (W.state directory.new).files }
    {
        let documents = self.writer.max_doc();
        let SingleSegmentIndexWriter {
            alloc,
            index,
            id,
            writer,
            takes: _,
        } = self;
        match writer.finalize(directory) {
            Ok(_) => {}
            Err(e) => return Err(e),
        }
        save_one_segment(alloc, &index, id, documents, directory)
    }
}

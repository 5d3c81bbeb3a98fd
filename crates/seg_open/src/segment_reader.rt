//! A segment that is open.
ghost use Rattle.std.specs.Prelude.{◌≡◌, true, length, map, is_some, None, IfOk, IfErr, IfSome, IsTrue};
ghost use Rattle.seg_directory.specs.DiskChanges.{KeepsDisk};
ghost use Rattle.seg_meta.specs.IndexOfFiles as index;
ghost use Rattle.seg_model.specs.Fields.{is_indexed};
ghost use Rattle.seg_segment.specs.IndexForms.{segment_forms};
ghost use Rattle.seg_segment.specs.FileContents.{Holds};
ghost use Rattle.seg_open.specs.Disagreement.{IsWhyNotOpen};
ghost use Rattle.seg_open.specs.OpenSegment.{LacksSome, alive_of, contents_of};
ghost use Rattle.seg_open.specs.OpenedFiles.{AreOpen};
ghost use Rattle.seg_open.specs.OpeningSteps.{HasFilesOf, IsNoDamage, Opens, OpensFiles};
ghost use Rattle.seg_segment.specs.declared.segment_files.SegmentFiles.{SegmentFiles};

use crate::alive_set::{cut_by, read_deletes};
use crate::core_readers::CoreReaders;
use crate::file_sizes::FileSizes;
use crate::open_error::OpenError;
use seg_bits::AliveBitSet;
use seg_common::{SegmentId, Shared};
use seg_directory::Directory;
use seg_fastfield::FastFieldReaders;
use seg_meta::Segment;
use seg_norms::FieldNormReaders;
use seg_postings::{InvertedIndexReader, terms_read_have_shape};
use seg_segment::SegmentFiles;
use seg_store::StoreReader;
use seg_values::{Schema, TResult, TantivyError};
use std::alloc::Global;
use std::marker::Model;

/// Reads what the files of a segment hold, from their bytes. It is seen as its id, its schema and number of documents,
/// the terms of its fields, the blocks of its store, its length ids and columns, which documents are alive, the stamp
/// of their deletes, and the sizes of its files.
#[derive(Drop)]
pub struct SegmentReader {
    pub(crate) alloc: Global,
    pub(crate) id: SegmentId,
    pub(crate) schema: Schema,
    pub(crate) max_doc: u32,
    pub(crate) fields: Vec<Option<Shared<InvertedIndexReader>>>,
    pub(crate) store: StoreReader,
    pub(crate) norms: FieldNormReaders,
    pub(crate) fast_fields: FastFieldReaders,
    pub(crate) alive: Option<AliveBitSet>,
    pub(crate) delete_opstamp: Option<u64>,
    pub(crate) sizes: FileSizes,
}

impl Model for SegmentReader {
    ghost use Rattle.std.specs.Prelude.{◌≡◌, true, map, is_some};
    ghost use Rattle.seg_model.specs.Fields.{is_indexed};
    ghost use Rattle.seg_model.specs.Shape.{HasFullShape};
    ghost use Rattle.seg_open.specs.OpenSegment.{LacksSome, OpenSegment, alive_of, contents_in};
    ghost use Rattle.seg_store.specs.Store.{documents_of};
    ghost use Rattle.seg_store.specs.StoredFields.{have_stored_fields};

    ghost Value = { OpenSegment };

    ghost view = { λ r. record {
      id = r.id;
      schema = r.schema;
      documents = r.max_doc;
      fields = r.fields.items;
      blocks = r.store;
      norms = r.norms;
      columns = r.fast_fields.file;
      alive = alive_of r.max_doc r.alive;
      stamp = r.delete_opstamp;
      sizes = r.sizes;
    } };

    ghost invariant = { λ r. (map is_some r.fields.items ≡ map is_indexed r.schema) × LacksSome r.max_doc r.alive
        × (r.fast_fields.schema ≡ r.schema) × (r.fast_fields.file.rows ≡ r.max_doc)
        × HasFullShape r.schema (contents_in r.schema r.max_doc r.fields.items r.store r.norms r.fast_fields.file)
        × (have_stored_fields r.schema (documents_of r.store) ≡ true) };
}

impl SegmentReader {
    /// Opens a segment of a directory: reads its six files and then, where it has deletes, its alive file, each once,
    /// in the order terms, store, postings, positions, fast fields, field norms, alive. Each is checked whole, and
    /// against those before it, before the next is read. `DataCorruption` names the first that is missing, or wrong by
    /// itself or with those before it, which are sound. `OpenReadError`: a file can't be read. What a crash may leave
    /// of the directory stays.
    pub fn open<W: Directory>(
        alloc: Global,
        segment: &Segment,
        directory: &mut W,
    ) -> TResult<SegmentReader>
        ensures does { Opens (record { segment = segment.now; custom = None })
            result (W.state directory.old) (W.state directory.new) }
        ensures holds { IsTrue (W.state directory.old).tells → IfOk result
            (λ r. Holds (W.state directory.new).files segment.now.meta.id segment.now.schema (contents_of r)) }
        ensures whole { IsTrue (W.state directory.old).tells
            → index.IsWhole segment_forms (W.state directory.old).files segment.now.schema segment.now.meta
            → IfErr result IsNoDamage }
        ensures disk { IsTrue (W.state directory.old).disk.told
            → KeepsDisk (W.state directory.old).disk (W.state directory.new).disk }
    {
        SegmentReader::open_with_custom_alive_set(alloc, segment, None, directory)
    }

    /// As `open`; of the documents that are alive, only those of a custom set count as alive, where one is given. It is
    /// of as many documents as the segment has.
    pub fn open_with_custom_alive_set<W: Directory>(
        alloc: Global,
        segment: &Segment,
        custom: Option<AliveBitSet>,
        directory: &mut W,
    ) -> TResult<SegmentReader>
        requires custom { IfSome custom (λ set. length set ≡ segment.now.meta.documents) }
        ensures does { Opens (record { segment = segment.now; custom = custom })
            result (W.state directory.old) (W.state directory.new) }
        ensures holds { IsTrue (W.state directory.old).tells → IfOk result
            (λ r. Holds (W.state directory.new).files segment.now.meta.id segment.now.schema (contents_of r)) }
        ensures whole { IsTrue (W.state directory.old).tells
            → index.IsWhole segment_forms (W.state directory.old).files segment.now.schema segment.now.meta
            → IfErr result IsNoDamage }
        ensures disk { IsTrue (W.state directory.old).disk.told
            → KeepsDisk (W.state directory.old).disk (W.state directory.new).disk }
    {
        let reader = match SegmentReader::read_files(alloc, segment, directory) {
            Ok(reader) => reader,
            Err(e) => return Err(e),
        };
        let id = segment.id();
        let max_doc = segment.meta().max_doc();
        let deletes = segment.meta().deletes();
        let alive = match read_deletes(alloc, id, max_doc, deletes, directory) {
            Ok(alive) => alive,
            Err(e) => return Err(e),
        };
        match cut_by(alloc, alive, custom, max_doc) {
            Ok(alive) => Ok(reader.with_alive(alive)),
            Err(_) => Err(TantivyError::OutOfMemory),
        }
    }

    /// Reads and opens the six files. All documents count as alive yet.
    fn read_files<W: Directory>(
        alloc: Global,
        segment: &Segment,
        directory: &mut W,
    ) -> TResult<SegmentReader>
        ensures { OpensFiles segment.now result (W.state directory.old) (W.state directory.new) }
    {
        let id = segment.id();
        let max_doc = segment.meta().max_doc();
        match CoreReaders::read(alloc, id, segment.schema(), max_doc, directory) {
            Ok(readers) => Ok(SegmentReader::of_readers(alloc, segment, readers)),
            Err(e) => Err(e),
        }
    }

    /// Opens the files of a segment, one after another, each checked whole and against those before it: for files that
    /// were just made, too. All documents count as alive.
    pub fn open_files(
        alloc: Global,
        segment: &Segment,
        files: SegmentFiles,
    ) -> Result<SegmentReader, OpenError>
        ensures ok { IfOk result (HasFilesOf segment.now files) }
        ensures err { IfErr result (IsWhyNotOpen segment.now.schema segment.now.meta.documents files) }
    {
        let max_doc = segment.meta().max_doc();
        match CoreReaders::open(alloc, files, segment.schema(), max_doc) {
            Ok(readers) => Ok(SegmentReader::of_readers(alloc, segment, readers)),
            Err(e) => Err(e),
        }
    }

    /// A segment with the readers of its files. All its documents count as alive.
    fn of_readers(alloc: Global, segment: &Segment, readers: CoreReaders) -> SegmentReader
        requires { (files : SegmentFiles)
            × AreOpen segment.now.schema segment.now.meta.documents files readers }
        ensures { (files : SegmentFiles) → AreOpen segment.now.schema segment.now.meta.documents files readers
            → HasFilesOf segment.now files result }
    {
        terms_read_have_shape();
        let CoreReaders {
            fields,
            store,
            fast_fields,
            norms,
            sizes,
        } = readers;
        SegmentReader {
            alloc,
            id: segment.id(),
            schema: segment.schema().share(),
            max_doc: segment.meta().max_doc(),
            fields,
            store,
            norms,
            fast_fields,
            alive: None,
            delete_opstamp: segment.meta().delete_opstamp(),
            sizes,
        }
    }

    /// The same segment, of which these documents are alive; all where no set is given.
    fn with_alive(self, alive: Option<AliveBitSet>) -> SegmentReader
        requires { LacksSome self.documents alive }
        ensures { result ≡ record self { alive = alive_of self.documents alive } }
    {
        SegmentReader { alive, ..self }
    }
}

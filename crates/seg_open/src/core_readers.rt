//! The readers of the six files of a segment: of files that were just made, or of those of a directory, each of which
//! is opened before the next is read.
ghost use Rattle.std.specs.Prelude.{◌<◌, ◌-◌, ◌^◌, ◌∷◌, [], length, IfOk, IfErr};
ghost use Rattle.seg_directory.specs.Calls.{read};
ghost use Rattle.seg_directory.specs.DirectoryStates.{DirectoryState};
ghost use Rattle.seg_directory.specs.DirectorySteps.{WorksFor, calls};
ghost use Rattle.seg_open.specs.Disagreement.{IsWhyNotOpen};
ghost use Rattle.seg_open.specs.FileReads.{FirstRead, ReadsFiles, ReadsFirst};
ghost use Rattle.seg_open.specs.OpenedFiles.{AreOpen};

use crate::file_sizes::FileSizes;
use crate::open_error::OpenError;
use crate::opened_dictionaries::open_dictionaries;
use crate::opened_fields::open_fields;
use crate::opened_parts::{checked_store, open_fast_fields, open_norms};
use crate::opened_postings::open_postings;
use seg_common::{FileName, OwnedBytes, SegmentComponent, SegmentId, Shared};
use seg_directory::{Directory, read_file};
use seg_fastfield::FastFieldReaders;
use seg_norms::FieldNormReaders;
use seg_postings::{FieldPostings, InvertedIndexReader};
use seg_segment::SegmentFiles;
use seg_store::StoreReader;
use seg_values::{Schema, TResult};
use std::alloc::Global;

/// The readers of the six files of a segment, and how many bytes these have.
#[derive(Drop)]
pub(crate) struct CoreReaders {
    pub(crate) fields: Vec<Option<Shared<InvertedIndexReader>>>,
    pub(crate) store: StoreReader,
    pub(crate) fast_fields: FastFieldReaders,
    pub(crate) norms: FieldNormReaders,
    pub(crate) sizes: FileSizes,
}

impl CoreReaders {
    /// Opens files that were just made.
    pub(crate) fn open(
        alloc: Global,
        files: SegmentFiles,
        schema: &Schema,
        max_doc: u32,
    ) -> Result<CoreReaders, OpenError>
        ensures ok { IfOk result (AreOpen schema.now max_doc files) }
        ensures err { IfErr result (IsWhyNotOpen schema.now max_doc files) }
    {
        let sizes = FileSizes::of(&files);
        let SegmentFiles {
            terms,
            store,
            postings,
            positions,
            fast_fields,
            field_norms,
        } = files;
        let dictionaries = open_dictionaries(alloc, terms, schema, max_doc)?;
        let store = checked_store(store, schema, max_doc)?;
        let both = open_postings(alloc, postings, schema, dictionaries)?;
        let fields = open_fields(alloc, positions, schema, both)?;
        let columns = open_fast_fields(alloc, fast_fields, schema, max_doc)?;
        let norms = open_norms(field_norms, schema, max_doc)?;
        Ok(CoreReaders {
            fields,
            store,
            fast_fields: columns,
            norms,
            sizes,
        })
    }

    /// Reads and opens the files of an id, one after another.
    pub(crate) fn read<W: Directory>(
        alloc: Global,
        id: SegmentId,
        schema: &Schema,
        max_doc: u32,
        directory: &mut W,
    ) -> TResult<CoreReaders>
        ensures { ReadsFiles id schema.now max_doc result (W.state directory.old) (W.state directory.new) }
    {
        match FirstReaders::read(alloc, id, schema, max_doc, directory) {
            Ok(first) => first.with_rest(alloc, id, schema, max_doc, directory),
            Err(e) => Err(e),
        }
    }
}

/// The readers of the three files that are read first, and how many bytes these have.
#[derive(Drop)]
struct FirstReaders {
    fields: Vec<Option<FieldPostings>>,
    store: StoreReader,
    sizes: FileSizes,
}

impl FirstReaders {
    fn read<W: Directory>(
        alloc: Global,
        id: SegmentId,
        schema: &Schema,
        max_doc: u32,
        directory: &mut W,
    ) -> TResult<FirstReaders>
        ensures { ReadsFirst id schema.now max_doc result (W.state directory.old) (W.state directory.new) }
    {
        let mut sizes = FileSizes::none();
        let terms = read_part(alloc, directory, id, SegmentComponent::Terms)?;
        sizes.terms = terms.len();
        let dictionaries = match open_dictionaries(alloc, terms, schema, max_doc) {
            Ok(dictionaries) => dictionaries,
            Err(e) => return Err(e.of_segment(id)),
        };
        let stored = read_part(alloc, directory, id, SegmentComponent::Store)?;
        sizes.store = stored.len();
        let store = match checked_store(stored, schema, max_doc) {
            Ok(store) => store,
            Err(e) => return Err(e.of_segment(id)),
        };
        let postings = read_part(alloc, directory, id, SegmentComponent::Postings)?;
        sizes.postings = postings.len();
        match open_postings(alloc, postings, schema, dictionaries) {
            Ok(fields) => Ok(FirstReaders {
                fields,
                store,
                sizes,
            }),
            Err(e) => Err(e.of_segment(id)),
        }
    }

    /// Reads and opens the three others.
    fn with_rest<W: Directory>(
        self,
        alloc: Global,
        id: SegmentId,
        schema: &Schema,
        max_doc: u32,
        directory: &mut W,
    ) -> TResult<CoreReaders>
        requires few { length self.fields.items < 2 ^ 32 - 1 }
        ensures { (start : DirectoryState) → FirstRead id schema.now max_doc self start (W.state directory.old)
            → ReadsFiles id schema.now max_doc result start (W.state directory.new) }
    {
        let FirstReaders {
            fields,
            store,
            sizes,
        } = self;
        let mut sizes = sizes;
        let positions = read_part(alloc, directory, id, SegmentComponent::Positions)?;
        sizes.positions = positions.len();
        let fields = match open_fields(alloc, positions, schema, fields) {
            Ok(fields) => fields,
            Err(e) => return Err(e.of_segment(id)),
        };
        let columns = read_part(alloc, directory, id, SegmentComponent::FastFields)?;
        sizes.fast_fields = columns.len();
        let fast_fields = match open_fast_fields(alloc, columns, schema, max_doc) {
            Ok(fast_fields) => fast_fields,
            Err(e) => return Err(e.of_segment(id)),
        };
        let norms = read_part(alloc, directory, id, SegmentComponent::FieldNorms)?;
        sizes.field_norms = norms.len();
        match open_norms(norms, schema, max_doc) {
            Ok(norms) => Ok(CoreReaders {
                fields,
                store,
                fast_fields,
                norms,
                sizes,
            }),
            Err(e) => Err(e.of_segment(id)),
        }
    }
}

/// The bytes of the file of a component.
fn read_part<W: Directory>(
    alloc: Global,
    directory: &mut W,
    id: SegmentId,
    component: SegmentComponent,
) -> TResult<OwnedBytes>
    ensures { WorksFor (λ bytes. calls (read (FileName.Part id component) bytes) ∷ []) result
        (W.state directory.old) (W.state directory.new) }
{
    read_file(alloc, directory, FileName::Part(id, component))
}

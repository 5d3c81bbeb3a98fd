//! The serializer of a segment.
ghost use Rattle.std.specs.Prelude.{◌≡◌, ◌≢◌, ◌⊎◌, ◌↔◌, true, Err, Some, None, option_map, IfOk, IfErr, IsTrue};
ghost use Rattle.seg_directory.specs.DiskRuns.{KeepsOnDisk};
ghost use Rattle.std.specs.Borrow.{Lends, sem};
ghost use Rattle.seg_store.specs.WriterBlocks.{taken_bytes};
ghost use Rattle.seg_segment.specs.LentComponents.{LendsPostings, LendsStore, bytes_row};
ghost use Rattle.seg_segment.specs.contracts.segment_serializer.SegmentSerializer.{the_row};
ghost use Rattle.seg_segment.specs.SegmentFiles.{IsOtherName};
ghost use Rattle.seg_segment.specs.SegmentSerializers.{IsNormsFile};

use crate::segment_files::SegmentFiles;
use seg_directory::Directory;
use seg_meta::{IndexSettings, Segment};
use seg_norms::FieldNormsSerializer;
use seg_postings::InvertedIndexSerializer;
use seg_store::StoreWriter;
use seg_values::{ArgumentCause, Compressor, TResult, TantivyError};
use std::alloc::{AllocError, Global};
use std::marker::Model;

/// Has what the components of a segment are to hold. Their files are written when it is closed.
#[derive(Drop)]
pub struct SegmentSerializer {
    alloc: Global,
    segment: Segment,
    postings: InvertedIndexSerializer,
    store: StoreWriter,
    fast: Vec<u8>,
    lengths: Option<FieldNormsSerializer>,
    norms: Option<Vec<u8>>,
}

impl Model for SegmentSerializer {
    ghost use Rattle.std.specs.Prelude.{option_map};
    ghost use Rattle.seg_segment.specs.SegmentSerializers.{Serializing};

    ghost Value = { Serializing };

    ghost view = { λ s. record {
      segment = s.segment;
      postings = s.postings;
      store = s.store;
      fast = s.fast.items;
      lengths = s.lengths;
      norms = option_map (λ v. v.items) s.norms;
    } };
}

impl SegmentSerializer {
    ghost use Rattle.seg_segment.specs.SegmentSerializers.{unfilled, filled_with, IsLaidOut, Closes};

    /// A serializer that has nothing yet.
    pub fn for_segment(
        alloc: Global,
        segment: Segment,
        settings: &IndexSettings,
    ) -> TResult<SegmentSerializer>
        ensures ok { IfOk result (λ s. s ≡ unfilled segment settings.now.docstore_blocksize) }
        ensures refused { result ≡ Err (TantivyError.InvalidArgument ArgumentCause.Settings)
            ↔ ((settings.now.docstore_compression ≢ Compressor.None)
            ⊎ (settings.now.docstore_compress_dedicated_thread ≡ true)) }
        ensures causes { IfErr result (λ e. e ≡ TantivyError.InvalidArgument ArgumentCause.Settings) }
    {
        let Ok(store) = StoreWriter::new(
            alloc,
            settings.docstore_compression,
            settings.docstore_blocksize,
            settings.docstore_compress_dedicated_thread,
        ) else {
            return Err(TantivyError::InvalidArgument(ArgumentCause::Settings));
        };
        Ok(SegmentSerializer {
            alloc,
            segment,
            postings: InvertedIndexSerializer::new(alloc),
            store,
            fast: Vec::new(alloc),
            lengths: Some(FieldNormsSerializer::new(alloc)),
            norms: None,
        })
    }

    /// A serializer whose components have all that they are to hold.
    pub fn from_parts(
        alloc: Global,
        segment: Segment,
        postings: InvertedIndexSerializer,
        store: StoreWriter,
        fast: Vec<u8>,
        norms: Vec<u8>,
    ) -> SegmentSerializer
        ensures { result ≡ filled_with segment postings store fast.items norms.items }
    {
        SegmentSerializer {
            alloc,
            segment,
            postings,
            store,
            fast,
            lengths: None,
            norms: Some(norms),
        }
    }

    /// The segment whose files it writes.
    pub fn segment(&self) -> &Segment
        ensures { result.now ≡ self.now.segment }
    {
        &self.segment
    }

    /// How many bytes the stored documents have that were taken.
    pub fn mem_usage(&self) -> usize
        ensures { result ≡ taken_bytes self.now.store }
    {
        self.store.mem_usage()
    }

    /// What the postings of the fields are written to.
    pub fn get_postings_serializer(&mut self) -> &mut InvertedIndexSerializer
        ensures* writes_back { sem 𝓛 (LendsPostings self.entry result) }
        ensures value { result.now ≡ self.old.postings }
    {
        &mut self.postings
    }

    /// What the documents are stored in.
    pub fn get_store_writer(&mut self) -> &mut StoreWriter
        ensures* writes_back { sem 𝓛 (LendsStore self.entry result) }
        ensures value { result.now ≡ self.old.store }
    {
        &mut self.store
    }

    /// The bytes of the columns.
    pub fn get_fast_field_write(&mut self) -> &mut Vec<u8>
        ensures* writes_back { sem 𝓛 (Lends the_row bytes_row self.entry result
            (λ v. record self.old { fast = v.items })) }
        ensures value { result.now.items ≡ self.old.fast }
    {
        &mut self.fast
    }

    /// What the lengths of the fields are written to, the first time; nothing from then on. Its file is given back by
    /// `put_fieldnorms`.
    pub fn extract_fieldnorms_serializer(&mut self) -> Option<FieldNormsSerializer>
        ensures taken { result ≡ self.old.lengths }
        ensures rest { self.new ≡ record self.old { lengths = None } }
    {
        self.lengths.take()
    }

    /// Puts the file of the lengths, in place of one that was put before.
    pub fn put_fieldnorms(&mut self, bytes: Vec<u8>)
        ensures { self.new ≡ record self.old { norms = Some bytes.items } }
    {
        self.norms = Some(bytes);
    }

    /// The segment, and the writer of its store, with what this has taken: for a serializer whose other components have
    /// nothing yet, and which `from_parts` makes again.
    pub fn into_store(self) -> (Segment, StoreWriter)
        ensures { (result.0 ≡ self.segment) × (result.1 ≡ self.store) }
    {
        let SegmentSerializer { segment, store, .. } = self;
        (segment, store)
    }

    /// Writes the six files, in the order field norms, fast fields, terms, postings, positions, store. Lengths that
    /// were not put are a composite without parts. Of any other name a crash leaves what it might have left before.
    pub fn close<W: Directory>(self, directory: &mut W) -> TResult<()>
        ensures does { Closes self result (W.state directory.old) (W.state directory.new) }
        ensures disk { IsTrue (W.state directory.old).disk.told → KeepsOnDisk (IsOtherName self.segment.meta.id)
            (W.state directory.old).disk (W.state directory.new).disk }
    {
        let alloc = self.alloc;
        let id = self.segment.id();
        let Ok(files) = self.into_files() else {
            return Err(TantivyError::OutOfMemory);
        };
        files.write(alloc, id, directory)
    }

    /// The six files, of which none is made in a directory.
    pub fn into_files(self) -> Result<SegmentFiles, AllocError>
        ensures { IfOk result (IsLaidOut self) }
    {
        let SegmentSerializer {
            alloc,
            segment: _,
            postings,
            store,
            fast,
            lengths: _,
            norms,
        } = self;
        let Ok(norms) = norms_or_none(alloc, norms) else {
            return Err(AllocError);
        };
        let Ok(terms) = postings.close() else {
            return Err(AllocError);
        };
        let Ok(store) = store.close() else {
            return Err(AllocError);
        };
        let Ok(files) = SegmentFiles::from_parts(alloc, terms, store, fast, norms) else {
            return Err(AllocError);
        };
        Ok(files)
    }
}

/// The file of lengths: those that were put, or else a composite without parts.
fn norms_or_none(alloc: Global, norms: Option<Vec<u8>>) -> Result<Vec<u8>, AllocError>
    ensures { IfOk result (λ file. IsNormsFile (option_map (λ v. v.items) norms) file.items) }
{
    match norms {
        Some(norms) => Ok(norms),
        None => match FieldNormsSerializer::new(alloc).close() {
            Ok(file) => Ok(file),
            Err(_) => Err(AllocError),
        },
    }
}

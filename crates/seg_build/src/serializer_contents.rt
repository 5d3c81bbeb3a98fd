//! What the components of a segment are to hold, from the documents that were indexed.
ghost use Rattle.std.specs.Prelude.{◌≡◌, length, IfOk};
ghost use Rattle.seg_build.specs.SerializerContents.{IsFilled};

use crate::fields::IndexedBatch;
use crate::norms_file::norms_file;
use crate::terms_files::field_files;
use seg_meta::Segment;
use seg_segment::SegmentSerializer;
use seg_store::StoreWriter;
use std::alloc::{AllocError, Global};

/// A serializer of a segment, with a store, the bytes of columns, and the terms and the lengths of a batch.
pub(crate) fn filled(
    alloc: Global,
    segment: Segment,
    store: StoreWriter,
    fast: Vec<u8>,
    batch: &IndexedBatch,
) -> Result<SegmentSerializer, AllocError>
    requires { length batch.now.fields ≡ length segment.schema }
    ensures { IfOk result (IsFilled segment store fast.items batch.now) }
{
    let schema = segment.schema();
    let Ok(norms) = norms_file(alloc, schema, batch) else {
        return Err(AllocError);
    };
    let Ok(postings) = field_files(alloc, schema, &batch.fields) else {
        return Err(AllocError);
    };
    Ok(SegmentSerializer::from_parts(alloc, segment, postings, store, fast, norms))
}

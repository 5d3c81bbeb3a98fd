//! The one segment that is made most often.
ghost use Rattle.std.specs.Prelude.{◌≡◌, ◌<◌, ◌^◌};

use seg_common::SegmentId;
use seg_meta::{IndexSettings, Segment, SegmentMeta};
use seg_values::{Compressor, Schema};

/// The id of the segment.
pub(crate) fn segment_id() -> SegmentId {
    SegmentId::from_u128(7)
}

/// The segment, with documents of which none is deleted.
pub(crate) fn segment(schema: Schema, documents: u32) -> Segment
    requires { documents < 2 ^ 31 }
    ensures { result.schema ≡ schema }
{
    Segment::new(schema, SegmentMeta::new(segment_id(), documents, None))
}

/// A store that isn't compressed, in blocks of this many bytes.
pub(crate) fn settings(docstore_blocksize: u32) -> IndexSettings {
    IndexSettings {
        docstore_compression: Compressor::None,
        docstore_blocksize,
        docstore_compress_dedicated_thread: false,
    }
}

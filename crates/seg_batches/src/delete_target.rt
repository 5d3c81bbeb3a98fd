//! What deletes name.
ghost use Rattle.std.specs.Prelude.{◌≡◌, ℕ, Bool, IfOk, IfErr};
ghost use Rattle.seg_model.specs.Contents.{Contents};
ghost use Rattle.seg_model.specs.Fields.{Schema};
ghost use Rattle.seg_open.specs.OpenSegment.{contents_of};
ghost use Rattle.seg_batches.specs.AppliedDeletes.{named_below};

use seg_open::SegmentReader;
use seg_values::{TResult, TantivyError};
use std::alloc::Global;

/// What a delete names: of each segment some documents.
pub trait DeleteTarget {
    /// Whether a document is named, of a segment with a schema and contents. Its id, its files, and which of its
    /// documents are alive, play no part in it.
    ghost names: { Self → Schema → Contents → ℕ → Bool };

    /// The ids of the documents of a segment that are named, ascending. The reader stays as it was.
    fn documents(&self, alloc: Global, reader: &mut SegmentReader) -> TResult<Vec<u32>>
        ensures ok { IfOk result (λ docs. docs.items ≡ named_below reader.old.documents
            (names self.now reader.old.schema (contents_of reader.old))) }
        ensures same { reader.new ≡ reader.old }
        ensures err { IfErr result (λ e. e ≡ TantivyError.OutOfMemory) };
}

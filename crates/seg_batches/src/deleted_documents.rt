//! One delete.
ghost use Rattle.std.specs.Prelude.{◌≡◌, [], ◌∷◌, not, ◌&&◌, length, OnOk};
ghost use Rattle.seg_model.specs.Postings.{is_member};
ghost use Rattle.seg_batches.specs.DeletedDocuments.{is_deleted};
ghost use Rattle.seg_open.specs.OpenSegment.{contents_of};
ghost use Rattle.seg_batches.specs.AppliedDeletes.{AreMapped, is_left_by, staying};

use crate::delete_target::DeleteTarget;
use crate::{DeleteOperation, DocToOpstampMapping, Opstamp};
use seg_bits::BitSet;
use seg_open::SegmentReader;
use std::alloc::{AllocError, Global};

/// Takes the documents that a delete removes out of a set.
pub(crate) fn apply_delete<T: DeleteTarget>(
    alloc: Global,
    reader: &mut SegmentReader,
    operation: &DeleteOperation<T>,
    mapping: &DocToOpstampMapping<'_>,
    alive: &mut BitSet,
) -> Result<(), AllocError>
    requires stamps { AreMapped mapping.now (length alive.old) }
    requires size { length alive.old ≡ reader.old.documents }
    ensures left { OnOk result (alive.new ≡ staying
        (is_left_by (λ target. T.names target reader.old.schema (contents_of reader.old)) mapping.now
        (operation.now ∷ [])) alive.old) }
    ensures same { reader.new ≡ reader.old }
{
    let Ok(docs) = operation.target.documents(alloc, reader) else {
        return Err(AllocError);
    };
    remove_documents(&docs, mapping, operation.opstamp, alive);
    Ok(())
}

/// Takes the documents that were added before a stamp out of a set.
fn remove_documents(
    docs: &[u32],
    mapping: &DocToOpstampMapping<'_>,
    opstamp: Opstamp,
    alive: &mut BitSet,
)
    requires { AreMapped mapping.now (length alive.old) }
    ensures { alive.new ≡ staying (λ document. not (is_deleted mapping.now document opstamp
        && is_member document docs.now)) alive.old }
{
    for doc in docs {
        remove_document(*doc, mapping, opstamp, alive);
    }
}

/// Takes a document out of a set, where it was added before a stamp. One that isn't below the size of the set isn't in
/// it.
fn remove_document(
    doc: u32,
    mapping: &DocToOpstampMapping<'_>,
    opstamp: Opstamp,
    alive: &mut BitSet,
)
    requires { AreMapped mapping.now (length alive.old) }
    ensures { alive.new ≡ staying (λ document. not (is_deleted mapping.now document opstamp
        && is_member document (doc ∷ []))) alive.old }
{
    if doc >= alive.max_value() {
        return;
    }
    if mapping.is_deleted(doc, opstamp) {
        alive.remove(doc);
    }
}

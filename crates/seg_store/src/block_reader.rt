//! Documents from blocks.
ghost use Rattle.std.specs.Prelude.{◌≡◌, ◌<◌, true, length, Some, IfOk, IfErr, slice_get};
ghost use Rattle.std.specs.Option.{option_and_then};
ghost use Rattle.seg_doc_bytes.specs.StoredDocument as documents;
ghost use Rattle.seg_store.specs.Block.{is_block, documents_in};

use crate::document_places::place_in_block;
use crate::error::StoreError;
use seg_doc_bytes::document_of;
use seg_values::TantivyDocument;
use std::alloc::Global;

/// A document of a block.
pub(crate) fn document_in_block(
    alloc: Global,
    block: &[u8],
    index: usize,
) -> Result<TantivyDocument, StoreError>
    requires block { is_block block.now ≡ true }
    requires within { index < length (documents_in block.now) }
    ensures ok { IfOk result
        (λ d. option_and_then documents.stored_document_of (slice_get (documents_in block.now) index) ≡ Some d) }
    ensures err { IfErr result (λ e. e ≡ StoreError.OutOfMemory) }
{
    let (start, end) = place_in_block(block, index);
    let Some(document) = document_of(alloc, &block[start..end])? else {
        return Err(StoreError::Malformed);
    };
    Ok(document)
}

//! The store, the columns and the length ids of a segment, each checked against its number of documents.
ghost use Rattle.std.specs.Prelude.{◌≡◌, ◌≢◌, List, length, true, Some, None, MatchOption, MatchResult};
ghost use Rattle.seg_column_file.specs.ColumnFiles.{column_file_of};
ghost use Rattle.seg_open.specs.OpenedFiles.{NormsOpened, NormsUnopened, StoreOpened, StoreUnopened};
ghost use Rattle.seg_open.specs.OpenedTermFiles.{IsTold};
ghost use Rattle.seg_column_format.specs.SchemaColumns.{HoldColumns};
ghost use Rattle.seg_store.specs.Block.{Block};
ghost use Rattle.seg_store.specs.Store.{store_of, documents_of};
ghost use Rattle.seg_store.specs.StoredFields.{have_stored_fields};

use crate::open_error::OpenError;
use seg_column_format::open_columns;
use seg_columns::ColumnError;
use seg_common::{OwnedBytes, SegmentComponent};
use seg_fastfield::FastFieldReaders;
use seg_norms::FieldNormReaders;
use seg_store::StoreReader;
use seg_values::Schema;
use std::alloc::Global;

/// The store of this many documents in the stored fields of a schema, where the bytes are one.
pub(crate) fn open_store(bytes: OwnedBytes, schema: &Schema, max_doc: u32) -> Option<StoreReader>
    ensures { MatchOption result
        ((blocks : List Block) → store_of bytes ≡ Some blocks
        → have_stored_fields schema.now (documents_of blocks) ≡ true → length (documents_of blocks) ≢ max_doc)
        (λ r. (store_of bytes ≡ Some r) × (have_stored_fields schema.now (documents_of r) ≡ true)
        × (length (documents_of r) ≡ max_doc)) }
{
    let Ok(store) = StoreReader::open_with_schema(bytes, schema) else {
        return None;
    };
    if store.num_docs() != max_doc {
        return None;
    }
    Some(store)
}

/// The same, or that the file of the store is damaged.
pub(crate) fn checked_store(
    bytes: OwnedBytes,
    schema: &Schema,
    max_doc: u32,
) -> Result<StoreReader, OpenError>
    ensures { MatchResult result (StoreOpened schema.now max_doc bytes)
        (IsTold SegmentComponent.Store (StoreUnopened schema.now max_doc bytes)) }
{
    match open_store(bytes, schema, max_doc) {
        Some(store) => Ok(store),
        None => Err(OpenError::Damaged(SegmentComponent::Store)),
    }
}

/// The columns of this many documents in the fields of a schema, where the bytes are these.
pub(crate) fn open_fast_fields(
    alloc: Global,
    bytes: OwnedBytes,
    schema: &Schema,
    max_doc: u32,
) -> Result<FastFieldReaders, OpenError>
    ensures { MatchResult result
        (λ r. HoldColumns schema.now max_doc bytes
        × (r ≡ record { schema = schema.now; file = column_file_of bytes }))
        (IsTold SegmentComponent.FastFields (HoldColumns schema.now max_doc bytes → ⊥)) }
{
    match open_columns(alloc, bytes, schema, max_doc) {
        Ok(columns) => Ok(FastFieldReaders::new(columns, schema.share())),
        Err(ColumnError::OutOfMemory) => Err(OpenError::OutOfMemory),
        Err(_) => Err(OpenError::Damaged(SegmentComponent::FastFields)),
    }
}

/// The length ids of this many documents in the fields of a schema, where the bytes are these.
pub(crate) fn open_norms(
    bytes: OwnedBytes,
    schema: &Schema,
    max_doc: u32,
) -> Result<FieldNormReaders, OpenError>
    ensures { MatchResult result (NormsOpened schema.now max_doc bytes)
        (IsTold SegmentComponent.FieldNorms (NormsUnopened schema.now max_doc bytes)) }
{
    let Ok(norms) = FieldNormReaders::open(bytes) else {
        return Err(OpenError::Damaged(SegmentComponent::FieldNorms));
    };
    if !norms.fit(schema, max_doc) {
        return Err(OpenError::Damaged(SegmentComponent::FieldNorms));
    }
    Ok(norms)
}

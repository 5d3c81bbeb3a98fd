//! Columns, joined.
ghost use Rattle.std.specs.Prelude.{◌≡◌, ◌<◌, ◌^◌, ℕ, List, map, IfOk, MatchResult, OnOk};
ghost use Rattle.std.specs.List.{AllByRecursion};
ghost use Rattle.seg_column_file.specs.RowOrders.{rows_in_order};
ghost use Rattle.seg_column_merge.specs.MergedColumns.{MergeFails};
ghost use Rattle.seg_column_merge.specs.LiveColumns.{live_rows};
ghost use Rattle.seg_model.specs.Join.{joined_columns};
ghost use Rattle.seg_open.specs.OpenSegment.{IsOfSchema, kept_count, part_of};
ghost use Rattle.seg_merger.specs.JoinedColumns.{HasJoinedColumns, HasOwnColumns};

use crate::doc_id_mapping::{MappingType, SegmentDocIdMapping, type_of};
use seg_column_file::ColumnarReader;
use seg_column_merge::{MergeRowOrder, declared_columns, live_columns_join, merge_columnar};
use seg_columns::ColumnError;
use seg_open::SegmentReader;
use seg_values::Schema;
use std::alloc::{AllocError, Global};

/// The file of the columns of documents that are alive, one segment after another, besides those that the schema
/// declares.
pub(crate) fn join_columns(
    alloc: Global,
    schema: &Schema,
    parts: &[SegmentReader],
) -> Result<Vec<u8>, ColumnError>
    requires parts { AllByRecursion (IsOfSchema schema.now) parts.now }
    requires few { kept_count parts.now < 2 ^ 31 }
    ensures { MatchResult result (λ file. HasJoinedColumns schema.now parts.now file.items)
        (MergeFails (joined_columns schema.now (map part_of parts.now))) }
{
    live_columns_join();
    schema.fields_are_valid();
    let Ok(columnars) = columnars_of(alloc, parts) else {
        return Err(ColumnError::OutOfMemory);
    };
    let Ok(declared) = declared_columns(alloc, schema) else {
        return Err(ColumnError::OutOfMemory);
    };
    let Ok(order) = live_order(alloc, parts) else {
        return Err(ColumnError::OutOfMemory);
    };
    merge_columnar(alloc, columnars.as_slice(), declared.as_slice(), &order)
}

/// The readers of the columns of segments.
fn columnars_of(alloc: Global, parts: &[SegmentReader]) -> Result<Vec<ColumnarReader>, AllocError>
    ensures are { IfOk result (λ columnars. columnars.items ≡ map (λ p. p.columns) parts.now) }
    ensures own { OnOk result (AllByRecursion HasOwnColumns parts.now) }
{
    let mut columnars = Vec::new(alloc);
    for part in parts {
        columnars.push(own_columns(part)?)?;
    }
    Ok(columnars)
}

fn own_columns(part: &SegmentReader) -> Result<ColumnarReader, AllocError>
    ensures is { IfOk result (λ columnar. columnar ≡ part.now.columns) }
    ensures own { HasOwnColumns part.now }
{
    part.documents_are_marked();
    part.columns_are_of_documents();
    let columns = part.columns();
    columns.are_of_a_file();
    columns.clone()
}

/// The rows of documents that are alive, one segment after another. Where nothing is deleted, none of them is listed.
fn live_order(alloc: Global, parts: &[SegmentReader]) -> Result<MergeRowOrder, AllocError>
    requires { AllByRecursion HasOwnColumns parts.now }
    ensures { IfOk result (λ order. rows_in_order (map (λ f. f.rows) (map (λ p. p.columns) parts.now)) order
        ≡ live_rows 0 (map part_of parts.now)) }
{
    match type_of(parts) {
        MappingType::Stacked => Ok(MergeRowOrder::Stack),
        MappingType::StackedWithDeletes => live_addresses(alloc, parts),
    }
}

/// Lists them. Addresses have room for 2^32 segments; no memory holds that many.
fn live_addresses(alloc: Global, parts: &[SegmentReader]) -> Result<MergeRowOrder, AllocError>
    ensures { IfOk result (λ order. (counts : List ℕ)
        → rows_in_order counts order ≡ live_rows 0 (map part_of parts.now)) }
{
    if parts.len() > u32::MAX as usize {
        return Err(AllocError);
    }
    let mapping = SegmentDocIdMapping::of_readers(alloc, parts)?;
    Ok(MergeRowOrder::Shuffled(mapping.into_addresses()))
}

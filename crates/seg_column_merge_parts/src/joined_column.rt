//! The bytes of a column that has rows of several files.
ghost use Rattle.std.specs.Prelude.{◌≡◌, ◌^◌, ◌<◌, ◌++◌, ℕ, All, IfOk, OnOk};
ghost use Rattle.std.specs.List.{flat_map};
ghost use Rattle.seg_column_format.specs.ColumnBytes.{column_bytes, ends_from, number_bytes, total};
ghost use Rattle.seg_column_file.specs.RowOrders.{rows_from, rows_in_order, stacked};
ghost use Rattle.seg_column_merge_parts.specs.SourceRows.{AddsEnds, IsPut, joined};

use crate::source::Source;
use seg_column_file::{MergeRowOrder, OrderedRows};
use seg_common::put_u64;
use std::alloc::AllocError;

/// Adds the bytes of a column with the rows of files in an order, each from the source of its file.
pub fn put_joined(
    counts: &[u32],
    order: &MergeRowOrder,
    sources: &[Source],
    out: &mut Vec<u8>,
) -> Result<(), AllocError>
    requires { All (IsPut sources.now) (rows_in_order counts.now order.now) }
    ensures ok { OnOk result (out.new.items
        ≡ out.old.items ++ column_bytes (λ code. code) (joined sources.now (rows_in_order counts.now order.now))) }
    ensures few { OnOk result (total (joined sources.now (rows_in_order counts.now order.now)) < 2 ^ 64) }
{
    put_row_ends(counts, order, sources, out)?;
    put_values(counts, order, sources, out)
}

/// Adds how many values there are up to and including each row.
fn put_row_ends(
    counts: &[u32],
    order: &MergeRowOrder,
    sources: &[Source],
    out: &mut Vec<u8>,
) -> Result<(), AllocError>
    requires { All (IsPut sources.now) (rows_in_order counts.now order.now) }
    ensures ok { OnOk result (out.new.items
        ≡ out.old.items ++ number_bytes (ends_from 0 (joined sources.now (rows_in_order counts.now order.now)))) }
    ensures few { OnOk result (total (joined sources.now (rows_in_order counts.now order.now)) < 2 ^ 64) }
{
    match order {
        MergeRowOrder::Stack => put_stacked_ends(counts, sources, out),
        MergeRowOrder::Shuffled(_) => put_ends(OrderedRows::new(counts, order), sources, out),
    }
}

/// Adds the ends of all rows, file by file.
fn put_stacked_ends(counts: &[u32], sources: &[Source], out: &mut Vec<u8>) -> Result<(), AllocError>
    requires { All (IsPut sources.now) (stacked 0 counts.now) }
    ensures ok { OnOk result (out.new.items
        ≡ out.old.items ++ number_bytes (ends_from 0 (joined sources.now (stacked 0 counts.now)))) }
    ensures few { OnOk result (total (joined sources.now (stacked 0 counts.now)) < 2 ^ 64) }
{
    let mut end = 0;
    for file in 0..counts.len() {
        end = put_file_ends(sources, file, counts[file], end, out)?;
    }
    Ok(())
}

/// Adds those of a file, which has this many rows, after this many values; then it says how many these are with its
/// own.
fn put_file_ends(
    sources: &[Source],
    file: usize,
    count: u32,
    before: u64,
    out: &mut Vec<u8>,
) -> Result<u64, AllocError>
    requires { (row : ℕ) → row < count → IsPut sources.now (file, row) }
    ensures { IfOk result (AddsEnds (joined sources.now (rows_from file 0 count)) before out.old.items out.new.items) }
{
    if count == 0 {
        return Ok(before);
    }
    sources[file].put_first_ends(count, before, out)
}

/// Adds the ends of the rows.
fn put_ends(rows: OrderedRows<'_>, sources: &[Source], out: &mut Vec<u8>) -> Result<(), AllocError>
    requires { All (IsPut sources.now) rows }
    ensures ok { OnOk result (out.new.items
        ≡ out.old.items ++ number_bytes (ends_from 0 (joined sources.now rows.entry))) }
    ensures few { OnOk result (total (joined sources.now rows.entry) < 2 ^ 64) }
{
    let mut end = 0;
    for (file, row) in rows {
        let Some(next) = sources[file].count(row, end) else {
            return Err(AllocError);
        };
        put_u64(out, next)?;
        end = next;
    }
    Ok(())
}

/// Adds the values of the rows of files in an order.
fn put_values(
    counts: &[u32],
    order: &MergeRowOrder,
    sources: &[Source],
    out: &mut Vec<u8>,
) -> Result<(), AllocError>
    requires { All (IsPut sources.now) (rows_in_order counts.now order.now) }
    ensures { OnOk result (out.new.items
        ≡ out.old.items
        ++ flat_map (flat_map (λ code. code)) (joined sources.now (rows_in_order counts.now order.now))) }
{
    match order {
        MergeRowOrder::Stack => put_stacked(counts, sources, out),
        MergeRowOrder::Shuffled(_) => put_rows(OrderedRows::new(counts, order), sources, out),
    }
}

/// Adds the values of all rows, file by file.
fn put_stacked(counts: &[u32], sources: &[Source], out: &mut Vec<u8>) -> Result<(), AllocError>
    requires { All (IsPut sources.now) (stacked 0 counts.now) }
    ensures { OnOk result (out.new.items
        ≡ out.old.items ++ flat_map (flat_map (λ code. code)) (joined sources.now (stacked 0 counts.now))) }
{
    for file in 0..counts.len() {
        put_file(sources, file, counts[file], out)?;
    }
    Ok(())
}

/// Adds the values of all rows of a file, which has this many.
fn put_file(
    sources: &[Source],
    file: usize,
    count: u32,
    out: &mut Vec<u8>,
) -> Result<(), AllocError>
    requires { (row : ℕ) → row < count → IsPut sources.now (file, row) }
    ensures { OnOk result (out.new.items
        ≡ out.old.items ++ flat_map (flat_map (λ code. code)) (joined sources.now (rows_from file 0 count))) }
{
    if count == 0 {
        return Ok(());
    }
    sources[file].put_first(count, out)
}

/// Adds the values of the rows.
fn put_rows(rows: OrderedRows<'_>, sources: &[Source], out: &mut Vec<u8>) -> Result<(), AllocError>
    requires { All (IsPut sources.now) rows }
    ensures { OnOk result (out.new.items
        ≡ out.old.items ++ flat_map (flat_map (λ code. code)) (joined sources.now rows.entry)) }
{
    for (file, row) in rows {
        sources[file].put(row, out)?;
    }
    Ok(())
}

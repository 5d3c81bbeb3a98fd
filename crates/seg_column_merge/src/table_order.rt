//! The rows of a table in the order of their keys, by a heap.
ghost use Rattle.std.specs.Prelude.{◌≡◌, ◌<◌, ◌++◌, ◌∷◌, [], true, None, Some, length, map, slice_set, IfOk, OnOk};
ghost use Rattle.std.specs.List.Sorted.{IsPermutation, IsSortedByKey, IsStableByKey};
ghost use Rattle.seg_column_merge.specs.TableOrder.{Advances, AreRuns, Begins, GoesOn, Moves, row_at, row_head, row_lt};
ghost use Rattle.seg_column_merge_parts.specs.Tables.{table_key, table_key_cmp};

use seg_column_merge_parts::{HeadHeap, TableRow};
use std::alloc::{AllocError, Global};

/// Rows in the order of their keys; those of one key stay in theirs. Runs that ascend already are merged, by a heap
/// with one head of each: the columns of a file are one run. Each row costs the logarithm of their number.
pub(crate) fn rows_by_key<'a>(
    alloc: Global,
    rows: Vec<TableRow<'a>>,
) -> Result<Vec<TableRow<'a>>, AllocError>
    ensures sorted { IfOk result (λ table. IsSortedByKey table_key table_key_cmp table.items) }
    ensures stable { IfOk result (λ table. IsStableByKey table_key table_key_cmp rows.entry.items table.items) }
    ensures permutation { IfOk result (λ table. IsPermutation rows.entry.items table.items) }
{
    let mut table = Vec::with_capacity(alloc, rows.len())?;
    let mut heads = first_heads(alloc, rows.as_slice())?;
    let mut slots = slots_of(alloc, rows)?;
    while let Some(head) = heads.pop() {
        move_row(&mut table, &mut slots, &mut heads, head.2)?;
    }
    Ok(table)
}

/// The heads of all runs.
fn first_heads<'a>(alloc: Global, rows: &[TableRow<'a>]) -> Result<HeadHeap<'a>, AllocError>
    ensures { IfOk result (AreRuns (map Some rows.now)) }
{
    let mut heads = HeadHeap::new(alloc);
    for at in 0..rows.len() {
        begin(&mut heads, rows, at)?;
    }
    Ok(heads)
}

/// Puts in a row that begins a run.
fn begin<'a>(heads: &mut HeadHeap<'a>, rows: &[TableRow<'a>], at: usize) -> Result<(), AllocError>
    requires { at < length rows.now }
    ensures { OnOk result (Begins (map Some rows.now) at heads.old heads.new) }
{
    if goes_on(rows, at) {
        return Ok(());
    }
    push_head(heads, &rows[at], at)
}

/// Whether a row isn't below the one before it.
fn goes_on(rows: &[TableRow<'_>], at: usize) -> bool
    requires { at < length rows.now }
    ensures { result ≡ true → GoesOn (map Some rows.now) at }
{
    if at == 0 {
        return false;
    }
    !is_below(&rows[at], &rows[at - 1])
}

fn is_below(row: &TableRow<'_>, other: &TableRow<'_>) -> bool
    ensures { result ≡ row_lt row.now other.now }
{
    row.key().cmp(&other.key()).is_lt()
}

fn push_head<'a>(heads: &mut HeadHeap<'a>, row: &TableRow<'a>, at: usize) -> Result<(), AllocError>
    ensures { OnOk result (IsPermutation (row_head row.now at ∷ heads.old) heads.new) }
{
    let (path, kind) = row.key();
    heads.push(path, kind as usize, at)
}

/// Places of rows, with all of them.
fn slots_of<'a>(
    alloc: Global,
    rows: Vec<TableRow<'a>>,
) -> Result<Vec<Option<TableRow<'a>>>, AllocError>
    ensures { IfOk result (λ slots. slots.items ≡ map Some rows.entry.items) }
{
    let mut slots = Vec::with_capacity(alloc, rows.len())?;
    for row in rows {
        push_slot(&mut slots, row)?;
    }
    Ok(slots)
}

fn push_slot<'a>(slots: &mut Vec<Option<TableRow<'a>>>, row: TableRow<'a>) -> Result<(), AllocError>
    ensures { OnOk result (slots.new.items ≡ slots.old.items ++ Some row.entry ∷ []) }
{
    let Ok(()) = slots.push(Some(row)) else {
        return Err(AllocError);
    };
    Ok(())
}

/// Moves the row at a place, if it is still there, after those that were moved before. Its run goes on.
fn move_row<'a>(
    table: &mut Vec<TableRow<'a>>,
    slots: &mut Vec<Option<TableRow<'a>>>,
    heads: &mut HeadHeap<'a>,
    at: usize,
) -> Result<(), AllocError>
    requires { at < length slots.old.items }
    ensures { OnOk result (Moves (row_at slots.old.items at) at (slots.old.items, table.old.items, heads.old)
        (slots.new.items, table.new.items, heads.new)) }
{
    let Some(row) = take_row(slots, at) else {
        return Ok(());
    };
    advance(heads, slots.as_slice(), &row, at)?;
    push_row(table, row)
}

fn take_row<'a>(slots: &mut Vec<Option<TableRow<'a>>>, at: usize) -> Option<TableRow<'a>>
    requires { at < length slots.old.items }
    ensures value { result ≡ row_at slots.old.items at }
    ensures after { slots.new.items ≡ slice_set slots.old.items at None }
{
    slots[at].take()
}

/// Puts in the row after one that was at a place, if it goes on with the run.
fn advance<'a>(
    heads: &mut HeadHeap<'a>,
    slots: &[Option<TableRow<'a>>],
    row: &TableRow<'_>,
    at: usize,
) -> Result<(), AllocError>
    requires { at < length slots.now }
    ensures { OnOk result (Advances slots.now row.now at heads.old heads.new) }
{
    let next = at + 1;
    if next >= slots.len() {
        return Ok(());
    }
    let Some(later) = &slots[next] else {
        return Ok(());
    };
    if is_below(later, row) {
        return Ok(());
    }
    push_head(heads, later, next)
}

fn push_row<'a>(table: &mut Vec<TableRow<'a>>, row: TableRow<'a>) -> Result<(), AllocError>
    ensures { OnOk result (table.new.items ≡ table.old.items ++ row.entry ∷ []) }
{
    let Ok(()) = table.push(row) else {
        return Err(AllocError);
    };
    Ok(())
}

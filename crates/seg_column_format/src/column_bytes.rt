//! The bytes of a column.
ghost use Rattle.std.specs.Prelude.{◌≡◌, ◌<◌, ◌^◌, ◌++◌, [], get_or, length, OnOk};
ghost use Rattle.std.specs.List.{AllByRecursion, flat_map};
ghost use Rattle.seg_column_format.specs.RowNumbers.{AddsBytes, eight_bytes, end_bytes, term_bytes};
ghost use Rattle.seg_column_format.specs.ValuesByRow.{Rise};
ghost use Rattle.seg_column_format.specs.NumberedTerms.{terms_at};

use crate::row_number::RowNumber;
use crate::same_ends::put_same_ends;
use crate::term_table::TermTable;
use seg_common::put_u64;
use std::alloc::AllocError;

/// Adds the ends of rows, and eight bytes for each number.
pub fn put_numbers(out: &mut Vec<u8>, values: &[RowNumber], num_rows: u32) -> Result<(), AllocError>
    requires { Rise (λ v. v.row) 0 values.now }
    ensures { OnOk result (AddsBytes eight_bytes values.now num_rows out.old.items out.new.items) }
{
    put_row_ends(out, values, num_rows)?;
    put_eight_bytes(out, values)?;
    Ok(())
}

/// Adds the ends of rows, and of each value the term whose ordinal its number is.
pub fn put_ordered_terms(
    out: &mut Vec<u8>,
    values: &[RowNumber],
    terms: &TermTable,
    order: &[usize],
    num_rows: u32,
) -> Result<(), AllocError>
    requires { Rise (λ v. v.row) 0 values.now }
    ensures { OnOk result (AddsBytes (term_bytes (terms_at terms.now order.now)) values.now num_rows
        out.old.items out.new.items) }
{
    put_row_ends(out, values, num_rows)?;
    put_term_bytes(out, values, terms, order)?;
    Ok(())
}

/// Adds, for each row, how many values there are up to and including it.
fn put_row_ends(out: &mut Vec<u8>, values: &[RowNumber], num_rows: u32) -> Result<(), AllocError>
    requires { Rise (λ v. v.row) 0 values.now }
    ensures ok { OnOk result (out.new.items ≡ out.old.items ++ end_bytes num_rows values.now) }
    ensures few { OnOk result (length values.now < 2 ^ 64) }
{
    let mut row = 0;
    let mut end = 0;
    for value in values {
        let next = value.row.min(num_rows);
        put_same_ends(out, next - row, end)?;
        row = next;
        end += 1;
    }
    put_same_ends(out, num_rows - row, end)?;
    Ok(())
}

fn put_eight_bytes(out: &mut Vec<u8>, values: &[RowNumber]) -> Result<(), AllocError>
    ensures bytes { OnOk result (out.new.items ≡ out.old.items ++ flat_map eight_bytes values.now) }
    ensures fit { OnOk result (AllByRecursion (λ v. v.number < 2 ^ 64) values.now) }
{
    for value in values {
        put_u64(out, value.number)?;
    }
    Ok(())
}

fn put_term_bytes(
    out: &mut Vec<u8>,
    values: &[RowNumber],
    terms: &TermTable,
    order: &[usize],
) -> Result<(), AllocError>
    ensures bytes { OnOk result (out.new.items
        ≡ out.old.items ++ flat_map (term_bytes (terms_at terms.now order.now)) values.now) }
    ensures fit { OnOk result (AllByRecursion (λ v. v.number < 2 ^ 64) values.now) }
{
    for value in values {
        out.extend_from_slice(ordered_term(terms, order, value.number))?;
    }
    Ok(())
}

/// The term with an ordinal; past all of them it is empty.
fn ordered_term<'a>(terms: &'a TermTable, order: &[usize], ordinal: u64) -> &'a [u8]
    ensures { result.now ≡ get_or (terms_at terms.now order.now) ordinal [] }
{
    match order.get(ordinal as usize) {
        Some(number) => terms.term_or_empty(*number),
        None => &[],
    }
}

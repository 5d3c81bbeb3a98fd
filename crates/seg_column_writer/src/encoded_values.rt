//! The values of a column by the numbers that a file has for them.
ghost use Rattle.std.specs.Prelude.{◌≡◌, ◌<◌, ◌^◌, get_or, map, IfOk, OnOk};
ghost use Rattle.std.specs.List.{AllByRecursion};
ghost use Rattle.seg_common.specs.declared.column_type.ColumnType.TheVariants as types;
ghost use Rattle.seg_column_writer.specs.EncodedColumns.{AddsValues, IsArranged, image_of, imaged, ranked};
ghost use Rattle.seg_column_format.specs.RowNumbers.{eight_bytes, term_bytes};
ghost use Rattle.seg_column_format.specs.ValuesByRow.{Rise};
ghost use Rattle.seg_column_format.specs.NumberedTerms.{terms_at};

use crate::row_value::RowValue;
use seg_column_format::{RowNumber, TermOrder, TermTable, put_numbers, put_ordered_terms};
use seg_common::{ColumnType, MonotonicallyMappableToU64};
use std::alloc::{AllocError, Global};

/// Adds the ends of rows, and the numbers that stand for values of a type.
pub(crate) fn put_images(
    alloc: Global,
    out: &mut Vec<u8>,
    values: &[RowValue],
    column_type: ColumnType,
    sorts: bool,
    num_rows: u32,
) -> Result<(), AllocError>
    requires rise { Rise (λ v. v.row) 0 values.now }
    requires fits { AllByRecursion (λ v. column_type ≡ types.I64 → v.number < 2 ^ 63) values.now }
    ensures { OnOk result (AddsValues eight_bytes sorts (map (imaged column_type) values.now) num_rows
        out.old.items out.new.items) }
{
    let numbers = arranged(images(alloc, values, column_type)?, sorts);
    put_numbers(out, &numbers, num_rows)?;
    Ok(())
}

/// Adds the ends of rows, and the ordinals of the terms that values are kept by.
pub(crate) fn put_ordinals(
    alloc: Global,
    out: &mut Vec<u8>,
    values: &[RowValue],
    order: &TermOrder,
    sorts: bool,
    num_rows: u32,
) -> Result<(), AllocError>
    requires { Rise (λ v. v.row) 0 values.now }
    ensures { OnOk result (AddsValues eight_bytes sorts (map (ranked order.now.ordinals.items) values.now) num_rows
        out.old.items out.new.items) }
{
    let numbers = arranged(ordinals(alloc, values, &order.ordinals)?, sorts);
    put_numbers(out, &numbers, num_rows)?;
    Ok(())
}

/// Adds the ends of rows, and the terms that values are kept by, in the order of these.
pub(crate) fn put_terms(
    alloc: Global,
    out: &mut Vec<u8>,
    values: &[RowValue],
    terms: &TermTable,
    order: &TermOrder,
    sorts: bool,
    num_rows: u32,
) -> Result<(), AllocError>
    requires { Rise (λ v. v.row) 0 values.now }
    ensures { OnOk result (AddsValues (term_bytes (terms_at terms.now order.now.numbers.items)) sorts
        (map (ranked order.now.ordinals.items) values.now) num_rows out.old.items out.new.items) }
{
    let numbers = arranged(ordinals(alloc, values, &order.ordinals)?, sorts);
    put_ordered_terms(out, &numbers, terms, &order.numbers, num_rows)?;
    Ok(())
}

/// The numbers that stand for values of a type.
fn images(
    alloc: Global,
    values: &[RowValue],
    column_type: ColumnType,
) -> Result<Vec<RowNumber>, AllocError>
    requires { AllByRecursion (λ v. column_type ≡ types.I64 → v.number < 2 ^ 63) values.now }
    ensures { IfOk result (λ numbers. numbers.items ≡ map (imaged column_type) values.now) }
{
    let mut numbers = Vec::with_capacity(alloc, values.len())?;
    for value in values {
        numbers.push(image(*value, column_type))?;
    }
    Ok(numbers)
}

fn image(value: RowValue, column_type: ColumnType) -> RowNumber
    requires { column_type ≡ types.I64 → value.number < 2 ^ 63 }
    ensures { result ≡ imaged column_type value }
{
    let number = match column_type {
        ColumnType::I64 => value.to_signed().to_u64(),
        _ => value.number,
    };
    RowNumber {
        row: value.row,
        number,
    }
}

/// The ordinals of values that are kept by their terms.
fn ordinals(
    alloc: Global,
    values: &[RowValue],
    ordinals: &[u64],
) -> Result<Vec<RowNumber>, AllocError>
    ensures { IfOk result (λ numbers. numbers.items ≡ map (ranked ordinals.now) values.now) }
{
    let mut numbers = Vec::with_capacity(alloc, values.len())?;
    for value in values {
        numbers.push(RowNumber {
            row: value.row,
            number: ordinal(ordinals, value.number),
        })?;
    }
    Ok(numbers)
}

fn ordinal(ordinals: &[u64], number: u64) -> u64
    ensures { result ≡ get_or ordinals.now number 0 }
{
    match ordinals.get(number as usize) {
        Some(ordinal) => *ordinal,
        None => 0,
    }
}

/// Values in the order of their rows, and of one row in that of their numbers, where that is asked.
fn arranged(mut numbers: Vec<RowNumber>, sorts: bool) -> Vec<RowNumber>
    ensures { IsArranged sorts numbers.items result.items }
{
    if !sorts {
        return numbers;
    }
    numbers.sort_unstable_by(|a, b| a.compare(b));
    numbers
}

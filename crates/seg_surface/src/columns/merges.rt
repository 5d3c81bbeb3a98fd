//! Merged files, against bytes that were written by hand.
ghost use Rattle.std.specs.Prelude.{◌≡◌, ◌<◌, ◌^◌, [], ◌∷◌, All, false, length, IfOk};
ghost use Rattle.std.specs.List.{AllByRecursion};
ghost use Rattle.seg_model.specs.Columns.{is_number};
ghost use Rattle.seg_column_file.specs.RowOrders.{IsRow, rows_in_order};

use crate::columns::files::{ONE, open};
use crate::lines::Lines;
use seg_column_file::{ColumnError, ColumnarReader, RowAddr};
use seg_column_merge::{MergeRowOrder, merge_columnar};
use seg_common::ColumnType;
use std::alloc::{AllocError, Global};

/// Two documents, of which the first has the number -1 in the column `n`.
const MINUS_ONE: [u8; 66] = [
    1, 0, 0, 0, 0, 0, 0, 0, // one value up to the first document
    1, 0, 0, 0, 0, 0, 0, 0, // and up to the second
    255, 255, 255, 255, 255, 255, 255, 127, // 2^63 - 1
    1, 0, 0, 0, 0, 0, 0, 0, // one column
    1, 0, 0, 0, 0, 0, 0, 0, // the length of its path
    b'n', // its path
    0, // I64
    24, 0, 0, 0, 0, 0, 0, 0, // its end
    26, 0, 0, 0, 0, 0, 0, 0, // the length of the table
    2, 0, 0, 0, // documents
    1, 0, 0, 0, // version
];

/// One document with the number 2^63 in the column `n`.
const LARGE: [u8; 58] = [
    1, 0, 0, 0, 0, 0, 0, 0, // one value up to the document
    0, 0, 0, 0, 0, 0, 0, 128, // 2^63
    1, 0, 0, 0, 0, 0, 0, 0, // one column
    1, 0, 0, 0, 0, 0, 0, 0, // the length of its path
    b'n', // its path
    1, // U64
    16, 0, 0, 0, 0, 0, 0, 0, // its end
    26, 0, 0, 0, 0, 0, 0, 0, // the length of the table
    1, 0, 0, 0, // documents
    1, 0, 0, 0, // version
];

/// A file of so many rows.
fn file_of(alloc: Global, bytes: &[u8], rows: u32) -> Result<ColumnarReader, ColumnError>
    ensures { IfOk result (λ file. file.rows ≡ rows) }
{
    let file = open(alloc, bytes)?;
    if file.num_rows() != rows {
        return Err(ColumnError::Malformed);
    }
    Ok(file)
}

fn both(
    alloc: Global,
    first: ColumnarReader,
    second: ColumnarReader,
) -> Result<Vec<ColumnarReader>, AllocError>
    ensures { IfOk result (λ files. files.items ≡ first ∷ second ∷ []) }
{
    let mut files = Vec::new(alloc);
    let Ok(()) = files.push(first) else {
        return Err(AllocError);
    };
    let Ok(()) = files.push(second) else {
        return Err(AllocError);
    };
    Ok(files)
}

/// A file of two rows, and the one with 2^63, merged.
fn merged(
    alloc: Global,
    first: &[u8],
    required: &[(String, ColumnType)],
    order: &MergeRowOrder,
) -> Result<Vec<u8>, ColumnError>
    requires rows { AllByRecursion (IsRow (2 ∷ 1 ∷ [])) (rows_in_order (2 ∷ 1 ∷ []) order.now) }
    requires few { length (rows_in_order (2 ∷ 1 ∷ []) order.now) < 2 ^ 32 }
    requires types { All (λ r. is_number r.1 ≡ false) required.now }
{
    let first = file_of(alloc, first, 2)?;
    let second = file_of(alloc, LARGE.as_slice(), 1)?;
    let Ok(files) = both(alloc, first, second) else {
        return Err(ColumnError::OutOfMemory);
    };
    merge_columnar(alloc, files.as_slice(), required, order)
}

/// The second row of the first file, and the only one of the second.
fn without_first(alloc: Global) -> Result<MergeRowOrder, AllocError>
    ensures { IfOk result (λ order. rows_in_order (2 ∷ 1 ∷ []) order ≡ (0, 1) ∷ (1, 0) ∷ []) }
{
    let mut rows = Vec::new(alloc);
    rows.push(RowAddr {
        segment_ord: 0,
        row_id: 1,
    })?;
    rows.push(RowAddr {
        segment_ord: 1,
        row_id: 0,
    })?;
    Ok(MergeRowOrder::Shuffled(rows))
}

/// The column `t` of texts.
fn texts(alloc: Global) -> Result<Vec<(String, ColumnType)>, AllocError>
    ensures { IfOk result (λ required. All (λ r. is_number r.1 ≡ false) required.items) }
{
    let mut required = Vec::new(alloc);
    let path = String::from_str(alloc, "t")?;
    let Ok(()) = required.push((path, ColumnType::Str)) else {
        return Err(AllocError);
    };
    Ok(required)
}

/// The files with 5 and with 2^63, with a column that neither has.
fn stacked(alloc: Global) -> Result<Vec<u8>, ColumnError> {
    let required = texts(alloc)?;
    merged(
        alloc,
        ONE.as_slice(),
        required.as_slice(),
        &MergeRowOrder::Stack,
    )
}

/// The files with -1 and with 2^63, without the row of -1.
fn shuffled(alloc: Global) -> Result<Vec<u8>, ColumnError> {
    let order = without_first(alloc)?;
    merged(alloc, MINUS_ONE.as_slice(), &[], &order)
}

/// The files with -1 and with 2^63.
fn mixed(alloc: Global) -> Result<Vec<u8>, ColumnError> {
    merged(alloc, MINUS_ONE.as_slice(), &[], &MergeRowOrder::Stack)
}

pub(crate) fn add_merges(lines: &mut Lines) {
    let alloc = lines.alloc();
    lines.add(
        "merge_columnar, a file of two rows and one whose only row has 2^63 in the column n:",
    );
    lines.add_file(
        "5 and nothing at n, stacked, with the column t of texts",
        stacked(alloc),
    );
    lines.add_file(
        "-1 and nothing at n, the rows (0, 1) and (1, 0)",
        shuffled(alloc),
    );
    match mixed(alloc) {
        Ok(_) => lines.miss(),
        Err(error) => lines.add_shown("-1 and nothing at n, stacked", &error),
    }
}

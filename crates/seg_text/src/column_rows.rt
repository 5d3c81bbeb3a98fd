//! What documents have in a column.
ghost use Rattle.std.specs.Prelude.{◌≡◌, ◌++◌, false, map, OnOk};
ghost use Rattle.seg_text.specs.ColumnText.{mark_text, rows_text, values_text};

use crate::column_printer::Printer;
use crate::push_decimal;
use seg_columns::{Column, ColumnValue, ColumnValues};
use std::alloc::{AllocError, Global};

/// What each document has in a column.
pub(crate) fn push_rows<T: ColumnValue, P: Printer<T>>(
    out: &mut Vec<u8>,
    alloc: Global,
    printer: &P,
    column: &Column<T>,
) -> Result<(), AllocError>
    ensures { OnOk result (out.new.items
        ≡ out.old.items ++ rows_text 0 (map (map (P.meant printer.now)) column.now)) }
{
    for doc in 0..column.num_docs() {
        push_row(out, alloc, printer, doc, column.values_for_doc(doc))?;
    }
    Ok(())
}

/// The values of a document, after its id.
fn push_row<T: ColumnValue, P: Printer<T>>(
    out: &mut Vec<u8>,
    alloc: Global,
    printer: &P,
    doc: u32,
    values: ColumnValues<'_, T>,
) -> Result<(), AllocError>
    ensures { OnOk result (out.new.items
        ≡ out.old.items ++ values_text false doc (map (P.meant printer.now) values.entry)) }
{
    let mut later = false;
    for value in values {
        push_mark(out, later, doc)?;
        printer.push(out, alloc, value)?;
        later = true;
    }
    Ok(())
}

/// What is before a value: the id of the document at its first, and a comma at others.
fn push_mark(out: &mut Vec<u8>, later: bool, doc: u32) -> Result<(), AllocError>
    ensures { OnOk result (out.new.items ≡ out.old.items ++ mark_text later doc) }
{
    if later {
        out.push(b',')?;
        return Ok(());
    }
    out.push(b' ')?;
    push_decimal(out, u64::from(doc))?;
    out.push(b':')?;
    Ok(())
}

//! Files that a writer made.
ghost use Rattle.std.specs.Prelude.{◌≡◌, [], OnOk};
ghost use Rattle.std.specs.List.{AllByRecursion};
ghost use Rattle.seg_column_writer.specs.TypedColumns.{IsWithin};

use crate::columns::files::open;
use crate::lines::Lines;
use seg_column_writer::{ColumnarWriter, NumericalValue, ValueKind};
use seg_columns::{Column, ColumnError, DynamicColumn, DynamicColumnHandle};
use seg_common::{ColumnType, DateTime};
use std::alloc::Global;
use std::net::Ipv6Addr;

fn number(alloc: Global) -> Result<Vec<u8>, ColumnError> {
    let mut writer = ColumnarWriter::new(alloc);
    writer.record_numerical(0, "n", NumericalValue::I64(5))?;
    writer.serialize(2)
}

fn number_by_column(alloc: Global) -> Result<Vec<u8>, ColumnError> {
    let mut writer = ColumnarWriter::new(alloc);
    let column = writer.column("n", ValueKind::Number)?;
    writer.record_numerical_in(0, column, NumericalValue::I64(5))?;
    writer.serialize(2)
}

fn truth(alloc: Global) -> Result<Vec<u8>, ColumnError> {
    let mut writer = ColumnarWriter::new(alloc);
    writer.record_bool(0, "b", true)?;
    writer.serialize(1)
}

fn moment(alloc: Global) -> Result<Vec<u8>, ColumnError> {
    let mut writer = ColumnarWriter::new(alloc);
    writer.record_datetime(0, "d", DateTime::from_timestamp_nanos(1))?;
    writer.serialize(1)
}

fn address(alloc: Global) -> Result<Vec<u8>, ColumnError> {
    let mut writer = ColumnarWriter::new(alloc);
    writer.record_ip_addr(0, "i", Ipv6Addr::new(0, 0, 0, 0, 0, 0, 0, 1))?;
    writer.serialize(1)
}

fn byte_string(alloc: Global) -> Result<Vec<u8>, ColumnError> {
    let mut writer = ColumnarWriter::new(alloc);
    writer.record_bytes(0, "x", b"\xff")?;
    writer.serialize(1)
}

/// Two texts of one row, the greater one first, to be put in order.
fn put_texts(writer: &mut ColumnarWriter) -> Result<(), ColumnError>
    requires { writer.old ≡ [] }
    ensures { OnOk result (AllByRecursion (λ c. IsWithin 1 c.recording) writer.new) }
{
    writer.record_column_type("t", ColumnType::Str, true)?;
    writer.record_str(0, "t", "b")?;
    writer.record_str(0, "t", "a")?;
    Ok(())
}

fn texts(alloc: Global) -> Result<Vec<u8>, ColumnError> {
    let mut writer = ColumnarWriter::new(alloc);
    put_texts(&mut writer)?;
    writer.serialize(1)
}

fn put_shared(writer: &mut ColumnarWriter) -> Result<(), ColumnError>
    requires { writer.old ≡ [] }
    ensures { OnOk result (AllByRecursion (λ c. IsWithin 3 c.recording) writer.new) }
{
    writer.record_str(0, "t", "abc")?;
    writer.record_str(0, "t", "ab")?;
    writer.record_str(2, "t", "ab")?;
    Ok(())
}

/// Texts with a front in common, several of one row, and a row without any.
fn shared(alloc: Global) -> Result<Vec<u8>, ColumnError> {
    let mut writer = ColumnarWriter::new(alloc);
    put_shared(&mut writer)?;
    writer.serialize(3)
}

/// One value in a thousand rows.
fn sparse(alloc: Global) -> Result<Vec<u8>, ColumnError> {
    let mut writer = ColumnarWriter::new(alloc);
    writer.record_numerical(500, "n", NumericalValue::I64(7))?;
    writer.serialize(1000)
}

fn sparse_columns(alloc: Global) -> Result<Vec<DynamicColumnHandle>, ColumnError> {
    let file = sparse(alloc)?;
    let reader = open(alloc, file.as_slice())?;
    reader.read_columns(alloc, "n")
}

fn add_rows_with_values(lines: &mut Lines, column: &Column<i64>) {
    lines.add_answer("Column::num_docs", &column.num_docs());
    for row in 0..column.num_docs() {
        if let Some(value) = column.first(row) {
            lines.add_answer("a row, and Column::first of it", &(row, value));
        }
    }
}

fn add_sparse(lines: &mut Lines, handles: &[DynamicColumnHandle]) {
    for handle in handles {
        match handle.open() {
            DynamicColumn::I64(numbers) => add_rows_with_values(lines, &numbers),
            _ => lines.miss(),
        }
    }
}

fn add_numbers(lines: &mut Lines) {
    let alloc = lines.alloc();
    lines.add_file("record_numerical(0, \"n\", I64(5)), 2 rows", number(alloc));
    lines.add_file(
        "record_numerical_in(0, column(\"n\", Number), I64(5)), 2 rows",
        number_by_column(alloc),
    );
}

fn add_values(lines: &mut Lines) {
    let alloc = lines.alloc();
    lines.add_file("record_bool(0, \"b\", true), 1 row", truth(alloc));
    lines.add_file("record_datetime(0, \"d\", 1 ns), 1 row", moment(alloc));
    lines.add_file("record_ip_addr(0, \"i\", ::1), 1 row", address(alloc));
}

fn add_terms(lines: &mut Lines) {
    let alloc = lines.alloc();
    lines.add_file("record_bytes(0, \"x\", ff), 1 row", byte_string(alloc));
    lines.add_file(
        "record_column_type(\"t\", Str, sorted), record_str(0, \"t\", \"b\") and \"a\", 1 row",
        texts(alloc),
    );
    lines.add_file(
        "record_str(0, \"t\", \"abc\"), (0, \"t\", \"ab\"), (2, \"t\", \"ab\"), 3 rows",
        shared(alloc),
    );
}

pub(crate) fn add_written_files(lines: &mut Lines) {
    lines.add("ColumnarWriter, what was recorded and the file of `serialize`:");
    add_numbers(lines);
    add_values(lines);
    add_terms(lines);
    lines.add("record_numerical(500, \"n\", I64(7)), 1000 rows, read back:");
    match sparse_columns(lines.alloc()) {
        Ok(handles) => add_sparse(lines, &handles),
        Err(_) => lines.miss(),
    }
}

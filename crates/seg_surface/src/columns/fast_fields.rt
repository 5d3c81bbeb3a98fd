//! Readers of fast fields, over a file of columns that was written by hand.

use crate::columns::answers::{add_handles, first_value};
use crate::columns::files::open;
use crate::lines::Lines;
use crate::samples::entry;
use seg_columns::{Column, ColumnValue};
use seg_common::ColumnType;
use seg_fastfield::{FastFieldNotAvailableError, FastFieldReaders};
use seg_values::{FieldKind, IndexOption, SchemaBuilder, TResult, TantivyError};
use std::alloc::Global;
use std::fmt::Debug;

/// One document, whose JSON object has the number 42, the text `bar` and the truth value `true` under `foo`.
const FILE: [u8; 166] = [
    1, 0, 0, 0, 0, 0, 0, 0, // one number
    42, 0, 0, 0, 0, 0, 0, 128, // 2^63 + 42
    1, 0, 0, 0, 0, 0, 0, 0, // one text
    0, 0, 0, 0, 0, 0, 0, 0, // its ordinal
    1, 0, 0, 0, 0, 0, 0, 0, // one distinct text
    3, 0, 0, 0, 0, 0, 0, 0, // its end
    98, 97, 114, // it
    1, 0, 0, 0, 0, 0, 0, 0, // one truth value
    1, 0, 0, 0, 0, 0, 0, 0, // it
    3, 0, 0, 0, 0, 0, 0, 0, // three columns
    8, 0, 0, 0, 0, 0, 0, 0, // the length of the path
    106, 115, 111, 110, 1, 102, 111, 111, // json, a byte 1, foo
    0, // I64
    16, 0, 0, 0, 0, 0, 0, 0, // its end
    8, 0, 0, 0, 0, 0, 0, 0, // the length of the path
    106, 115, 111, 110, 1, 102, 111, 111, // json, a byte 1, foo
    3, // Str
    51, 0, 0, 0, 0, 0, 0, 0, // its end
    8, 0, 0, 0, 0, 0, 0, 0, // the length of the path
    106, 115, 111, 110, 1, 102, 111, 111, // json, a byte 1, foo
    4, // Bool
    67, 0, 0, 0, 0, 0, 0, 0, // its end
    83, 0, 0, 0, 0, 0, 0, 0, // the length of the table
    1, 0, 0, 0, // documents
    1, 0, 0, 0, // version
];

/// The readers of a fast JSON field `json`, and of a field of texts `title` that isn't fast.
fn readers(alloc: Global) -> TResult<FastFieldReaders> {
    let mut builder = SchemaBuilder::new(alloc);
    let mut json = entry(alloc, "json", FieldKind::Json, IndexOption::No)?;
    json.fast = true;
    builder.add_field(json)?;
    builder.add_field(entry(alloc, "title", FieldKind::Text, IndexOption::No)?)?;
    let Ok(columnar) = open(alloc, FILE.as_slice()) else {
        return Err(TantivyError::OutOfMemory);
    };
    Ok(FastFieldReaders::new(columnar, builder.build()))
}

/// Adds how many columns a name has and which, and those below it.
fn add_at(lines: &mut Lines, readers: &FastFieldReaders, what: &str, name: &str) {
    match readers.dynamic_column_handles(lines.alloc(), name) {
        Ok(handles) => add_handles(lines, what, &handles),
        Err(_) => lines.miss(),
    }
}

fn add_below(lines: &mut Lines, readers: &FastFieldReaders) {
    match readers.dynamic_subpath_column_handles(lines.alloc(), "json") {
        Ok(handles) => add_handles(
            lines,
            "dynamic_subpath_column_handles(\"json\"), number of columns",
            &handles,
        ),
        Err(_) => lines.miss(),
    }
}

/// Adds whether the path has a column of texts.
fn add_handle(lines: &mut Lines, readers: &FastFieldReaders) {
    match readers.dynamic_column_handle(lines.alloc(), "json.foo", ColumnType::Str) {
        Ok(handle) => lines.add_answer(
            "dynamic_column_handle(\"json.foo\", Str) is there",
            &handle.is_some(),
        ),
        Err(_) => lines.miss(),
    }
}

/// Adds how many bytes the columns of the path have, and the path that the name stands for.
fn add_size_and_path(lines: &mut Lines, readers: &FastFieldReaders) {
    let alloc = lines.alloc();
    lines.add_result(
        "column_num_bytes(\"json.foo\")",
        readers.column_num_bytes(alloc, "json.foo"),
    );
    lines.add_result(
        "resolve_column_name_given_default_field(\"json.foo\", None)",
        readers.resolve_column_name_given_default_field(alloc, "json.foo", None),
    );
}

/// Adds the first value of a column, or the error that was answered in its place.
fn add_column<T: ColumnValue + Debug>(lines: &mut Lines, what: &str, answer: TResult<Column<T>>) {
    match answer {
        Ok(column) => lines.add_answer(what, &first_value(&column)),
        Err(error) => lines.add_shown(what, &error),
    }
}

/// Adds the columns of the types that the path has.
fn add_typed(lines: &mut Lines, readers: &FastFieldReaders) {
    let alloc = lines.alloc();
    add_column(lines, "i64(\"json.foo\")", readers.i64(alloc, "json.foo"));
    add_column(lines, "bool(\"json.foo\")", readers.bool(alloc, "json.foo"));
    match readers.column_opt::<i64>(alloc, "json.foo") {
        Ok(Some(column)) => {
            lines.add_answer("column_opt::<i64>(\"json.foo\")", &first_value(&column))
        }
        _ => lines.miss(),
    }
}

/// Adds the columns of types that the path doesn't have.
fn add_absent(lines: &mut Lines, readers: &FastFieldReaders) {
    let alloc = lines.alloc();
    add_column(lines, "u64(\"json.foo\")", readers.u64(alloc, "json.foo"));
    add_column(lines, "date(\"json.foo\")", readers.date(alloc, "json.foo"));
    add_column(
        lines,
        "ip_addr(\"json.foo\")",
        readers.ip_addr(alloc, "json.foo"),
    );
}

/// The first value by a column of first values.
fn first_alone(alloc: Global, readers: &FastFieldReaders) -> TResult<Option<i64>> {
    let column = readers.i64(alloc, "json.foo")?;
    if column.num_docs() == 0 {
        return Ok(None);
    }
    Ok(Some(column.first_or_default_col(0).get_val(0)))
}

/// Adds the column of first values.
fn add_first_alone(lines: &mut Lines, readers: &FastFieldReaders) {
    let alloc = lines.alloc();
    let is_there = readers
        .column_first_or_default::<i64>(alloc, "json.foo")
        .is_ok();
    lines.add_answer(
        "column_first_or_default::<i64>(\"json.foo\") is there",
        &is_there,
    );
    lines.add_result(
        "Column::first_or_default_col(0), ColumnFirstOrDefault::get_val(0)",
        first_alone(alloc, readers),
    );
}

/// Adds the first text of the path, and that it has no byte strings.
fn add_terms(lines: &mut Lines, readers: &FastFieldReaders) {
    let alloc = lines.alloc();
    match readers.str(alloc, "json.foo") {
        Ok(Some(texts)) => lines.add_answer("str(\"json.foo\"), text(0)", &texts.text(0)),
        _ => lines.miss(),
    }
    match readers.bytes(alloc, "json.foo") {
        Ok(bytes) => lines.add_answer("bytes(\"json.foo\") is there", &bytes.is_some()),
        Err(_) => lines.miss(),
    }
}

/// Adds the first number of a column, and the type of its values.
fn add_lenient(lines: &mut Lines, what: &str, answer: TResult<Option<(Column<u64>, ColumnType)>>) {
    match answer {
        Ok(Some((column, column_type))) => {
            lines.add_answer(what, &(first_value(&column), column_type))
        }
        _ => lines.miss(),
    }
}

fn add_all_lenient(lines: &mut Lines, columns: &[(Column<u64>, ColumnType)]) {
    lines.add_answer(
        "u64_lenient_for_type_all(None, \"json.foo\"), number of columns",
        &columns.len(),
    );
    for (column, column_type) in columns {
        lines.add_answer(
            "  first number and type",
            &(first_value(column), column_type),
        );
    }
}

/// Adds the columns as numbers.
fn add_numbers(lines: &mut Lines, readers: &FastFieldReaders) {
    let alloc = lines.alloc();
    add_lenient(
        lines,
        "u64_lenient(\"json.foo\"), first number and type",
        readers.u64_lenient(alloc, "json.foo"),
    );
    add_lenient(
        lines,
        "u64_lenient_for_type([Str], \"json.foo\"), first number and type",
        readers.u64_lenient_for_type(alloc, Some(&[ColumnType::Str]), "json.foo"),
    );
    match readers.u64_lenient_for_type_all(alloc, None, "json.foo") {
        Ok(columns) => add_all_lenient(lines, &columns),
        Err(_) => lines.miss(),
    }
}

fn add_handles_of(lines: &mut Lines, readers: &FastFieldReaders) {
    let what = "dynamic_column_handles(\"json.foo\"), number of columns";
    add_at(lines, readers, what, "json.foo");
    let what = "dynamic_column_handles(\"json\"), number of columns";
    add_at(lines, readers, what, "json");
    add_below(lines, readers);
    add_handle(lines, readers);
    add_size_and_path(lines, readers);
}

fn add_readers(lines: &mut Lines, readers: &FastFieldReaders) {
    add_handles_of(lines, readers);
    add_typed(lines, readers);
    add_first_alone(lines, readers);
    add_terms(lines, readers);
    add_absent(lines, readers);
    add_numbers(lines, readers);
}

/// The error of a field of texts that isn't fast.
fn not_available(alloc: Global) -> TResult<FastFieldNotAvailableError> {
    let entry = entry(alloc, "title", FieldKind::Text, IndexOption::No)?;
    FastFieldNotAvailableError::new(alloc, &entry)
}

pub(crate) fn add_fast_fields(lines: &mut Lines) {
    let alloc = lines.alloc();
    lines.add("FastFieldReaders of a document with 42, \"bar\" and true at json.foo:");
    match readers(alloc) {
        Ok(readers) => add_readers(lines, &readers),
        Err(_) => lines.miss(),
    }
    match not_available(alloc) {
        Ok(error) => lines.add_shown("FastFieldNotAvailableError of the field title", &error),
        Err(_) => lines.miss(),
    }
}

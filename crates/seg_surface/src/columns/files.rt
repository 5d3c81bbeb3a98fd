//! Files of columns, from bytes that were written by hand.

use crate::columns::answers::add_handles;
use crate::lines::Lines;
use crate::samples::file;
use seg_column_file::{ColumnError, ColumnarReader, rows_without_columns};
use std::alloc::Global;

/// Two documents, of which the first has the number 5 in the column `n`.
pub(crate) const ONE: [u8; 66] = [
    1, 0, 0, 0, 0, 0, 0, 0, // one value up to the first document
    1, 0, 0, 0, 0, 0, 0, 0, // and up to the second
    5, 0, 0, 0, 0, 0, 0, 128, // 2^63 + 5
    1, 0, 0, 0, 0, 0, 0, 0, // one column
    1, 0, 0, 0, 0, 0, 0, 0, // the length of its path
    b'n', // its path
    0, // its type
    24, 0, 0, 0, 0, 0, 0, 0, // its end
    26, 0, 0, 0, 0, 0, 0, 0, // the length of the table
    2, 0, 0, 0, // documents
    1, 0, 0, 0, // version
];

/// Three documents and no column.
const NO_COLUMN: [u8; 24] = [
    0, 0, 0, 0, 0, 0, 0, 0, // no column
    8, 0, 0, 0, 0, 0, 0, 0, // the length of the table
    3, 0, 0, 0, // documents
    1, 0, 0, 0, // version
];

pub(crate) fn open(alloc: Global, bytes: &[u8]) -> Result<ColumnarReader, ColumnError> {
    ColumnarReader::open(alloc, file(alloc, bytes)?)
}

fn add_columns(lines: &mut Lines, reader: &ColumnarReader) {
    let alloc = lines.alloc();
    match reader.read_columns(alloc, "n") {
        Ok(handles) => add_handles(
            lines,
            "ColumnarReader::read_columns(\"n\"), number of columns",
            &handles,
        ),
        Err(_) => lines.miss(),
    }
    match reader.read_subpath_columns(alloc, "n") {
        Ok(handles) => add_handles(
            lines,
            "ColumnarReader::read_subpath_columns(\"n\"), number of columns",
            &handles,
        ),
        Err(_) => lines.miss(),
    }
}

pub(crate) fn add_files(lines: &mut Lines) {
    lines.add("a file of two documents, of which the first has the number 5 in the column n:");
    match open(lines.alloc(), ONE.as_slice()) {
        Ok(reader) => add_columns(lines, &reader),
        Err(_) => lines.miss(),
    }
    lines.add_answer(
        "rows_without_columns of three documents and no column",
        &rows_without_columns(NO_COLUMN.as_slice()),
    );
    lines.add_answer(
        "rows_without_columns of the file with the column n",
        &rows_without_columns(ONE.as_slice()),
    );
}

//! A small field is written.

use crate::lines::Lines;
use seg_postings::{InvertedIndexSerializer, PostingsFiles, RecordKind};
use seg_values::{Field, PostingsError};
use std::alloc::Global;

/// The files of one field, whose two terms have positions, each told as its difference from the one before.
fn written(alloc: Global) -> Result<PostingsFiles, PostingsError> {
    let mut serializer = InvertedIndexSerializer::new(alloc);
    let mut field = serializer.new_field(Field::from_field_id(0), 4)?;
    field.new_term(b"a", RecordKind::Positions)?;
    field.write_doc(0, 2, &[0, 3])?;
    field.write_doc(2, 1, &[1])?;
    field.close_term()?;
    field.new_term(b"b", RecordKind::Positions)?;
    field.write_doc(1, 1, &[2])?;
    field.close_term()?;
    field.close(&mut serializer)?;
    serializer.close()
}

fn add_files(lines: &mut Lines, files: &PostingsFiles) {
    lines.add_bytes("file of terms", &files.terms);
    lines.add_bytes("file of postings", &files.postings);
    lines.add_bytes("file of positions", &files.positions);
}

pub(crate) fn add_written_field(lines: &mut Lines) {
    lines.add(
        "## field 0: a at 0 and 3 of document 0 and at 1 of document 2, b at 2 of document 1",
    );
    match written(lines.alloc()) {
        Ok(files) => add_files(lines, &files),
        Err(_) => lines.miss(),
    }
}

//! The columns of a segment, in a file.
ghost use Rattle.std.specs.Prelude.{◌≡◌, MatchResult};
ghost use Rattle.seg_columns.specs.Refusals.{Refuses};
ghost use Rattle.seg_column_file.specs.ColumnFiles.{column_file_of};
ghost use Rattle.seg_column_format.specs.SchemaColumns.{HoldColumns};

use crate::schema_columns::suits;
use seg_column_file::ColumnarReader;
use seg_columns::ColumnError;
use seg_common::OwnedBytes;
use seg_values::Schema;
use std::alloc::Global;

/// Checks whole that bytes are the columns of this many documents in the fields of a schema, in time near-linear in
/// them: the columns that the schema declares are there, and others only at paths of its fast JSON fields, each with a
/// value of a type that JSON has.
pub fn open_columns(
    alloc: Global,
    bytes: OwnedBytes,
    schema: &Schema,
    num_docs: u32,
) -> Result<ColumnarReader, ColumnError>
    ensures { MatchResult result (λ r. HoldColumns schema.now num_docs bytes × (r ≡ column_file_of bytes))
        (Refuses (HoldColumns schema.now num_docs bytes)) }
{
    let columnar = match ColumnarReader::open(alloc, bytes) {
        Ok(columnar) => columnar,
        Err(error) => return Err(error),
    };
    if columnar.num_rows() != num_docs {
        return Err(ColumnError::Malformed);
    }
    match suits(alloc, &columnar, schema) {
        Ok(true) => Ok(columnar),
        Ok(false) => Err(ColumnError::Malformed),
        Err(_) => Err(ColumnError::OutOfMemory),
    }
}

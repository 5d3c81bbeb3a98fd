//! The writer of files of columns.
ghost use Rattle.std.specs.Prelude.{◌≡◌, Some, IfOk, IfErr};
ghost use Rattle.seg_column_file.specs.EmptyColumnFile.{rows_of};

use crate::format::{COLUMNS_VERSION, COUNT, NO_COLUMN};
use seg_columns::ColumnError;
use seg_common::{put_u32, put_u64};
use std::alloc::Global;

/// Writes the columns of a segment. It has no column yet.
#[derive(Drop)]
pub struct ColumnarWriter {
    alloc: Global,
}

impl ColumnarWriter {
    pub fn new(alloc: Global) -> ColumnarWriter {
        ColumnarWriter { alloc }
    }

    /// The bytes of the file, for this many documents, each of which is a row.
    pub fn serialize(self, num_docs: u32) -> Result<Vec<u8>, ColumnError>
        ensures ok { IfOk result (λ bytes. rows_of bytes.items ≡ Some num_docs) }
        ensures err { IfErr result (λ e. e ≡ ColumnError.OutOfMemory) }
    {
        let mut bytes = Vec::new(self.alloc);
        put_u64(&mut bytes, NO_COLUMN)?;
        put_u64(&mut bytes, COUNT as u64)?;
        put_u32(&mut bytes, num_docs)?;
        put_u32(&mut bytes, COLUMNS_VERSION)?;
        Ok(bytes)
    }
}

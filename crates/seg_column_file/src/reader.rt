//! The reader of files of columns.
ghost use Rattle.std.specs.Prelude.{◌≡◌, false, IfErr, IfOk, MatchResult};
ghost use Rattle.seg_columns.specs.declared.error.ColumnError.TheVariants.{OutOfMemory};
ghost use Rattle.seg_columns.specs.Refusals.{Refuses};
ghost use Rattle.seg_column_file.specs.ColumnFiles.{IsColumnFile, IsOfFile, column_file_of, is_below, is_selected, stored_where};

use crate::column_iter::ColumnIter;
use crate::footer::{Footer, checked_footer};
use crate::selection::selected_columns;
use seg_columns::{ColumnError, DynamicColumnHandle};
use seg_common::OwnedBytes;
use std::alloc::{AllocError, Global};
use std::marker::Model;

/// The columns of a segment, in the bytes of their file. It is seen as the number of rows and the columns in order of
/// path and type. A copy takes no memory.
#[derive(Drop)]
pub struct ColumnarReader {
    bytes: OwnedBytes,
    footer: Footer,
}

impl Model for ColumnarReader {
    ghost use Rattle.seg_column_file.specs.ColumnFiles.{ColumnFile, IsColumnFile, column_file_of};
    ghost use Rattle.seg_column_file.specs.Footers.{IsFooterOf};

    ghost Value = { ColumnFile };

    ghost view = { λ r. column_file_of r.bytes };

    ghost invariant = { λ r. IsColumnFile r.bytes × IsFooterOf r.bytes r.footer };
}

impl ColumnarReader {
    /// Checks the bytes whole, in time linear in them. For a column of texts or bytes it takes a byte for each distinct
    /// one, and gives them back.
    pub fn open(alloc: Global, bytes: OwnedBytes) -> Result<ColumnarReader, ColumnError>
        ensures { MatchResult result (λ r. IsColumnFile bytes × (r ≡ column_file_of bytes))
            (Refuses (IsColumnFile bytes)) }
    {
        match checked_footer(alloc, &bytes) {
            Ok(footer) => Ok(ColumnarReader { bytes, footer }),
            Err(error) => Err(error),
        }
    }

    /// What the bytes were checked for: the columns are those of a file.
    pub fn are_of_a_file(&self)
        ensures { IsOfFile self.now }
    {
        let _bytes = &self.bytes;
    }

    /// How many rows each column has: one for each document.
    pub fn num_rows(&self) -> u32
        ensures { result ≡ self.now.rows }
    {
        self.footer.num_rows
    }

    /// The columns with their paths, in order of path and type.
    pub fn iter_columns(&self) -> ColumnIter<'_>
        ensures { result ≡ self.now.columns }
    {
        ColumnIter::new(&self.bytes, self.footer)
    }

    /// The columns of a path, in order of type.
    pub fn read_columns(
        &self,
        alloc: Global,
        name: &str,
    ) -> Result<Vec<DynamicColumnHandle>, ColumnError>
        ensures ok { IfOk result (λ handles. handles.items
            ≡ stored_where (is_selected false name.now) self.now.columns) }
        ensures err { IfErr result (λ e. e ≡ OutOfMemory) }
    {
        Ok(selected_columns(alloc, self.iter_columns(), name, false)?)
    }

    /// The columns of all paths below one: those that begin with it and a byte 1. They are in order of path and type.
    pub fn read_subpath_columns(
        &self,
        alloc: Global,
        path: &str,
    ) -> Result<Vec<DynamicColumnHandle>, ColumnError>
        ensures ok { IfOk result (λ handles. handles.items ≡ stored_where (is_below path.now) self.now.columns) }
        ensures err { IfErr result (λ e. e ≡ OutOfMemory) }
    {
        Ok(selected_columns(alloc, self.iter_columns(), path, true)?)
    }
}

/// Shares the bytes, and never fails.
impl Clone for ColumnarReader {
    ghost is_clone = { λ reader copy. copy ≡ reader };

    ghost is_infallible = { λ _. Unit {0} };

    fn clone(&self) -> Result<ColumnarReader, AllocError> {
        Ok(ColumnarReader {
            bytes: self.bytes.share(),
            footer: self.footer,
        })
    }
}

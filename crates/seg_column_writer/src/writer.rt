//! The writer of files of columns.
ghost use Rattle.std.specs.Prelude.{◌≡◌, [], OnOk, OnErr, IfOk, IfErr};
ghost use Rattle.std.specs.List.{AllByRecursion};
ghost use Rattle.seg_column_file.specs.ColumnFiles.{IsColumnFile, column_file_of, row_count};
ghost use Rattle.seg_columns.specs.declared.error.ColumnError.TheVariants.{OutOfMemory};
ghost use Rattle.seg_column_writer.specs.ValueKinds.{kind_of};
ghost use Rattle.seg_column_writer.specs.NamedColumns.{usage_of};
ghost use Rattle.seg_column_format.specs.ModelColumns.{columns_in};
ghost use Rattle.seg_column_writer.specs.RecordedColumns.{recorded_columns};
ghost use Rattle.seg_column_writer.specs.ColumnRecords.{changed_at, place_of, with_column, with_type};
ghost use Rattle.seg_column_writer.specs.RecordingRules.{At, CanDeclare, CanPush, CanPushTerm, MayDeclare, pushed, pushed_term, with_change};
ghost use Rattle.seg_column_writer.specs.TypedColumns.{IsWithin, refusal_of};

use crate::known_columns::KnownColumns;
use crate::row_value::RowValue;
use crate::value_kind::ValueKind;
use seg_columns::ColumnError;
use seg_common::ColumnType;
use std::alloc::Global;
use std::marker::Model;

/// A column of one writer, by its place among all.
#[derive(Clone, Copy, Debug, PartialEq, Eq)]
pub struct ColumnId {
    place: usize,
}

/// Takes the values of documents, column by column, and writes them as a file. It is seen as the columns in the order
/// in which they came, each with what was declared and recorded.
#[derive(Drop)]
pub struct ColumnarWriter {
    alloc: Global,
    known: KnownColumns,
    usage: u64,
}

impl Model for ColumnarWriter {
    ghost use Rattle.std.specs.Prelude.{◌≡◌, List};
    ghost use Rattle.seg_column_writer.specs.NamedColumns.{IsSound, records_in, usage_of};
    ghost use Rattle.seg_column_writer.specs.ColumnRecords.{ColumnRecord};

    ghost Value = { List ColumnRecord };

    ghost view = { λ w. records_in w.known };

    ghost invariant = { λ w. IsSound w.known × (w.usage ≡ usage_of (records_in w.known)) };
}

impl ColumnarWriter {
    pub fn new(alloc: Global) -> ColumnarWriter
        ensures { result ≡ [] }
    {
        ColumnarWriter {
            alloc,
            known: KnownColumns::new(alloc),
            usage: 0,
        }
    }

    /// The memory of the values, at 16 bytes each.
    pub fn mem_usage(&self) -> usize
        ensures { result ≡ usage_of self.now }
    {
        self.usage as usize
    }

    /// The column of a path and a kind of values, by which values are recorded without another look for the path. A new
    /// one has no value, and isn't written while that stays so.
    pub fn column(&mut self, name: &str, kind: ValueKind) -> Result<ColumnId, ColumnError>
        ensures ok { OnOk result (self.new ≡ with_column self.old name.now kind) }
        ensures place { IfOk result (λ id. id.place ≡ place_of self.old name.now kind) }
        ensures err { IfErr result (λ e. e ≡ OutOfMemory) }
        ensures kept { OnErr result (self.new ≡ self.old) }
    {
        let place = self.known.place(self.alloc, name.as_bytes(), kind)?;
        Ok(ColumnId { place })
    }

    /// Declares a column, which then is written without any value too. What was declared of it before is replaced.
    pub fn record_column_type(
        &mut self,
        name: &str,
        column_type: ColumnType,
        sort_values_within_row: bool,
    ) -> Result<(), ColumnError>
        requires { MayDeclare name.now column_type self.old }
        ensures ok { OnOk result (self.new
            ≡ with_change name.now (kind_of column_type) (with_type column_type sort_values_within_row) self.old) }
        ensures err { IfErr result (λ e. e ≡ OutOfMemory) }
        ensures kept { OnErr result (self.new ≡ self.old) }
    {
        let column = self.column(name, ValueKind::of(column_type))?;
        self.declare(column, column_type, sort_values_within_row);
        Ok(())
    }

    fn declare(&mut self, column: ColumnId, column_type: ColumnType, sorts: bool)
        requires { At (CanDeclare column_type) column.place self.old }
        ensures { self.new ≡ changed_at (with_type column_type sorts) column.place self.old }
    {
        self.known.declare(column.place, column_type, sorts);
    }

    /// Adds a value that isn't kept by its term.
    pub(crate) fn push(&mut self, column: ColumnId, value: RowValue) -> Result<(), ColumnError>
        requires { At (CanPush value) column.place self.old }
        ensures ok { OnOk result (self.new ≡ changed_at (pushed value) column.place self.old) }
        ensures err { IfErr result (λ e. e ≡ OutOfMemory) }
        ensures kept { OnErr result (self.new ≡ self.old) }
    {
        self.known.push(column.place, value)?;
        self.usage = self.usage.saturating_add(16);
        Ok(())
    }

    /// Adds a value by its term.
    pub(crate) fn push_term(
        &mut self,
        column: ColumnId,
        row: u32,
        term: &[u8],
    ) -> Result<(), ColumnError>
        requires { At (CanPushTerm row term.now) column.place self.old }
        ensures ok { OnOk result (self.new ≡ changed_at (pushed_term row term.now) column.place self.old) }
        ensures err { IfErr result (λ e. e ≡ OutOfMemory) }
        ensures kept { OnErr result (self.new ≡ self.old) }
    {
        self.known.push_term(self.alloc, column.place, row, term)?;
        self.usage = self.usage.saturating_add(16);
        Ok(())
    }

    /// The bytes of a file of this many rows, one for each document. Columns are written that are declared or have a
    /// value.
    pub fn serialize(self, num_docs: u32) -> Result<Vec<u8>, ColumnError>
        requires { AllByRecursion (λ c. IsWithin num_docs c.recording) self }
        ensures file { IfOk result (λ bytes. IsColumnFile bytes.items × (row_count bytes.items ≡ num_docs)) }
        ensures columns { IfOk result (λ bytes. recorded_columns num_docs self
            ≡ Some (columns_in (column_file_of bytes.items))) }
        ensures err { IfErr result (λ e. e ≡ refusal_of (recorded_columns num_docs self)) }
    {
        self.known.write(self.alloc, num_docs)
    }
}

//! The columns so far, each by its path and the kind of its values.
ghost use Rattle.std.specs.Prelude.{◌≡◌, ◌<◌, [], false, length, OnOk, OnErr, IfOk, IfErr};
ghost use Rattle.std.specs.List.{AllByRecursion, list_any, position_or_len};
ghost use Rattle.seg_column_format.specs.CompositeKeys.{asked};
ghost use Rattle.seg_column_writer.specs.ValueKinds.{kind_place};
ghost use Rattle.seg_column_writer.specs.NamedColumns.{AreKept, IsChanged, IsPlaced, IsSound, column_in, name_eq, named, records_in};
ghost use Rattle.seg_column_writer.specs.RecordedColumns.{recorded_columns};
ghost use Rattle.seg_column_writer.specs.ColumnRecords.{with_type};
ghost use Rattle.seg_column_writer.specs.RecordingRules.{CanDeclare, CanPush, CanPushTerm, pushed, pushed_term};
ghost use Rattle.seg_column_writer.specs.TypedColumns.{AreReady, IsRecordedFile, IsWithin, refusal_of};

use crate::column_file::write_file;
use crate::column_name::ColumnName;
use crate::recorded_column::RecordedColumn;
use crate::row_value::RowValue;
use crate::typed_column::{lack_types, sort_columns, typed_columns};
use crate::value_kind::ValueKind;
use indexmap::IndexSet;
use seg_column_format::CompositeKeyParts;
use seg_columns::ColumnError;
use seg_common::ColumnType;
use std::alloc::{AllocError, Global};

/// The columns in the order in which they came, with the names by which they are found.
#[derive(Drop)]
pub(crate) struct KnownColumns {
    pub names: IndexSet<ColumnName>,
    pub columns: Vec<RecordedColumn>,
}

impl KnownColumns {
    pub fn new(alloc: Global) -> KnownColumns
        ensures names { result.names.keys ≡ [] }
        ensures columns { result.columns.items ≡ [] }
    {
        KnownColumns {
            names: IndexSet::new(alloc),
            columns: Vec::new(alloc),
        }
    }

    /// The place of a column, which is made where there is none.
    pub fn place(
        &mut self,
        alloc: Global,
        path: &[u8],
        kind: ValueKind,
    ) -> Result<usize, AllocError>
        ensures ok { OnOk result
            (IsPlaced (record { head = kind_place kind; bytes = path.now }) kind self.old self.new) }
        ensures place { IfOk result (λ place. place
            ≡ position_or_len (name_eq (record { head = kind_place kind; bytes = path.now })) self.old.names.keys) }
        ensures err { OnErr result (AreKept self.old self.new) }
    {
        let name = CompositeKeyParts {
            head: kind.place(),
            bytes: path,
        };
        let Some(place) = self.names.get_index_of(name) else {
            return self.add(alloc, name, kind);
        };
        Ok(place)
    }

    /// Adds a column, which is none of those so far.
    fn add(
        &mut self,
        alloc: Global,
        name: CompositeKeyParts<'_, u8>,
        kind: ValueKind,
    ) -> Result<usize, AllocError>
        requires { list_any (name_eq (asked name)) self.old.names.keys ≡ false }
        ensures ok { OnOk result (IsPlaced (asked name.entry) kind self.old self.new) }
        ensures place { IfOk result (λ place. place
            ≡ position_or_len (name_eq (asked name.entry)) self.old.names.keys) }
        ensures err { OnErr result (AreKept self.old self.new) }
    {
        let place = self.names.len();
        let copy = ColumnName::copy_of(alloc, name)?;
        self.columns.reserve(1)?;
        let Ok(_) = self.names.insert(copy) else {
            return Err(AllocError);
        };
        self.columns.push(RecordedColumn::new(alloc, kind))?;
        Ok(place)
    }

    /// Gives the column at a place a type.
    pub fn declare(&mut self, place: usize, column_type: ColumnType, sorts: bool)
        requires within { place < length self.old.columns.items }
        requires takes { CanDeclare column_type (column_in self.old.columns.items place) }
        ensures { IsChanged (with_type column_type sorts) place self.old self.new }
    {
        let column = &mut self.columns[place];
        column.declare(column_type, sorts);
    }

    /// Adds a value that isn't kept by its term to the column at a place.
    pub fn push(&mut self, place: usize, value: RowValue) -> Result<(), AllocError>
        requires within { place < length self.old.columns.items }
        requires takes { CanPush value (column_in self.old.columns.items place) }
        ensures ok { OnOk result (IsChanged (pushed value) place self.old self.new) }
        ensures err { OnErr result (AreKept self.old self.new) }
    {
        let column = &mut self.columns[place];
        column.push(value)?;
        Ok(())
    }

    /// Adds a value by its term to the column at a place.
    pub fn push_term(
        &mut self,
        alloc: Global,
        place: usize,
        row: u32,
        term: &[u8],
    ) -> Result<(), AllocError>
        requires within { place < length self.old.columns.items }
        requires takes { CanPushTerm row term.now (column_in self.old.columns.items place) }
        ensures ok { OnOk result (IsChanged (pushed_term row term.now) place self.old self.new) }
        ensures err { OnErr result (AreKept self.old self.new) }
    {
        let column = &mut self.columns[place];
        column.push_term(alloc, row, term)?;
        Ok(())
    }

    /// The file of this many rows, unless the numbers of a column have no type.
    pub fn write(&self, alloc: Global, num_rows: u32) -> Result<Vec<u8>, ColumnError>
        requires sound { IsSound self.now }
        requires within { AllByRecursion (IsWithin num_rows) self.now.columns.items }
        ensures ok { IfOk result (λ bytes. IsRecordedFile num_rows (records_in self.now) bytes.items) }
        ensures err { IfErr result (λ e. e ≡ refusal_of (recorded_columns num_rows (records_in self.now))) }
    {
        let names = self.names.as_slice();
        let columns = self.columns.as_slice();
        if lack_types(columns) {
            return Err(ColumnError::Mixed);
        }
        let Ok(bytes) = write_columns(alloc, names, columns, num_rows) else {
            return Err(ColumnError::OutOfMemory);
        };
        Ok(bytes)
    }
}

/// The file of columns whose numbers have a type.
fn write_columns(
    alloc: Global,
    names: &[ColumnName],
    columns: &[RecordedColumn],
    num_rows: u32,
) -> Result<Vec<u8>, AllocError>
    requires { AreReady num_rows names.now columns.now }
    ensures { IfOk result (λ bytes. IsRecordedFile num_rows (named names.now columns.now) bytes.items) }
{
    let mut typed = typed_columns(alloc, columns)?;
    sort_columns(&mut typed, names);
    write_file(alloc, names, columns, &typed, num_rows)
}

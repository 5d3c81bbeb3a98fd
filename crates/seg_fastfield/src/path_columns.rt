//! The columns of the paths of JSON fields, by the numbers of the paths.
ghost use Rattle.std.specs.Prelude.{◌≡◌, ◌++◌, ◌∷◌, ℕ, List, Some, slice_index_or, IfOk, OnOk, OnErr};
ghost use Rattle.seg_column_writer.specs.ColumnRecords.{ColumnRecord, place_of, with_column};
ghost use Rattle.seg_column_writer.specs.RecordingRules.{AreKeptBut};
ghost use Rattle.seg_common.specs.JsonPaths.{written_key};
ghost use Rattle.seg_fastfield.specs.FieldColumns.{IsColumnOf};
ghost use Rattle.seg_fastfield.specs.PathNumbers.{AreColumnsOf, AreNumbersKept, HasPathsMore, IsKnownAt, IsKnownStill, IsNumberOf, unknown};
ghost use Rattle.seg_model.specs.DocumentCheck as checked;
ghost use Rattle.seg_paths.specs.Paths.{IsAbove, below};

use crate::kind_columns::KindColumns;
use crate::place::Place;
use seg_column_writer::{ColumnId, ColumnarWriter, ValueKind};
use seg_columns::ColumnError;
use seg_paths::{PathTable, set_value, value_of};
use std::alloc::Global;

/// The paths of JSON fields so far, and the columns of each that were looked up. A path begins with the name of its
/// field, as those of columns do. So a leaf below a long path costs its own bytes.
#[derive(Drop)]
pub(crate) struct PathColumns {
    alloc: Global,
    paths: PathTable,
    columns: Vec<KindColumns>,
}

impl PathColumns {
    pub fn new(alloc: Global) -> PathColumns
        ensures { (columns : List ColumnRecord) → AreColumnsOf result columns }
    {
        PathColumns {
            alloc,
            paths: PathTable::new(alloc),
            columns: Vec::new(alloc),
        }
    }

    /// The number of the path of a field that has no column of its own.
    pub fn field_number(
        &mut self,
        column: Option<ColumnId>,
        name: &str,
    ) -> Result<Option<u32>, ColumnError>
        ensures more { OnOk result (HasPathsMore self.old self.new) }
        ensures number { IfOk result (λ number. IsNumberOf self.new.paths number name.now) }
    {
        if column.is_some() {
            return Ok(None);
        }
        self.add(None, false, name)
    }

    /// The number of the path of a key below the path with a number.
    pub fn key_number(
        &mut self,
        above: Option<u32>,
        expand_dots: bool,
        key: &str,
    ) -> Result<Option<u32>, ColumnError>
        requires { IsAbove self.old.paths above }
        ensures more { OnOk result (HasPathsMore self.old self.new) }
        ensures number { (path : List ℕ) → IsNumberOf self.old.paths above path → IfOk result
            (λ number. IsNumberOf self.new.paths number (path ++ 1 ∷ written_key expand_dots key.now)) }
    {
        let Some(_) = above else {
            return Ok(None);
        };
        self.add(above, expand_dots, key)
    }

    /// The number of a path: none where its last key has a byte 0, which a table of paths doesn't take.
    fn add(
        &mut self,
        above: Option<u32>,
        expand_dots: bool,
        key: &str,
    ) -> Result<Option<u32>, ColumnError>
        requires { IsAbove self.old.paths above }
        ensures more { OnOk result (HasPathsMore self.old self.new) }
        ensures number { IfOk result (λ number. IsNumberOf self.new.paths number
            (below self.old.paths above (written_key expand_dots key.now))) }
    {
        if !has_no_zero(key.as_bytes()) {
            return Ok(None);
        }
        let Ok(number) = self.paths.add_key(self.alloc, above, expand_dots, key) else {
            return Err(ColumnError::OutOfMemory);
        };
        Ok(Some(number))
    }

    /// The column of the values of a kind at a path, which is looked up where it isn't known.
    pub fn column(
        &mut self,
        columns: &mut ColumnarWriter,
        place: Place,
        path: &str,
        kind: ValueKind,
    ) -> Result<ColumnId, ColumnError>
        requires column { IsColumnOf place.column path.now kind columns.old }
        requires known { IsKnownAt self.old place.number path.now columns.old }
        ensures found { IfOk result (λ id. id.place ≡ place_of columns.old path.now kind) }
        ensures made { OnOk result (columns.new ≡ with_column columns.old path.now kind) }
        ensures kept { OnErr result (AreKeptBut path.now kind columns.old columns.new) }
        ensures known { OnOk result (IsKnownStill self.old self.new columns.new) }
    {
        if let Some(column) = self.held(place, kind) {
            return Ok(column);
        }
        let column = columns.column(path, kind)?;
        self.hold(place.number, kind, column)?;
        Ok(column)
    }

    /// The column that is known at a place.
    fn held(&self, place: Place, kind: ValueKind) -> Option<ColumnId>
        ensures { (path : List ℕ) (columns : List ColumnRecord) → IsKnownAt self.now place.number path columns
            → IsColumnOf place.column path kind columns → IsColumnOf result path kind columns }
    {
        if place.column.is_some() {
            return place.column;
        }
        let Some(number) = place.number else {
            return None;
        };
        self.columns_at(number).get(kind)
    }

    /// Keeps what the column of a path is, if it has a number.
    fn hold(
        &mut self,
        number: Option<u32>,
        kind: ValueKind,
        column: ColumnId,
    ) -> Result<(), ColumnError>
        ensures numbers { OnOk result (AreNumbersKept self.old.paths self.new.paths) }
        ensures held { OnOk result ((path : List ℕ) (columns : List ColumnRecord)
            → IsKnownAt self.old number path columns → IsColumnOf (Some column) path kind columns
            → AreColumnsOf self.new columns) }
    {
        let Some(number) = number else {
            return Ok(());
        };
        let known = self.columns_at(number).with(kind, column);
        let Ok(()) = set_value(&mut self.columns, number, KindColumns::new(), known) else {
            return Err(ColumnError::OutOfMemory);
        };
        Ok(())
    }

    /// The columns that are known of the path with a number.
    fn columns_at(&self, number: u32) -> KindColumns
        ensures { result ≡ slice_index_or self.now.columns.items number unknown }
    {
        value_of(&self.columns, number, KindColumns::new())
    }
}

fn has_no_zero(bytes: &[u8]) -> bool
    ensures { result ≡ checked.has_no_zero bytes.now }
{
    for byte in bytes {
        if *byte == 0 {
            return false;
        }
    }
    true
}

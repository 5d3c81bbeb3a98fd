//! The values of a document, recorded in its row.
ghost use Rattle.std.specs.Prelude.{◌≡◌, ◌+◌, true, [], IfOk, OnOk};
ghost use Rattle.std.specs.List.{slice_get, AllByRecursion};
ghost use Rattle.seg_column_writer.specs.DocumentRows.{with_values};
ghost use Rattle.seg_model.specs.ValidInputs.{names_fit};
ghost use Rattle.seg_values.specs.SchemaRules.{is_schema};
ghost use Rattle.seg_values.specs.ValueTrees.{tree_of};
ghost use Rattle.seg_fastfield.specs.FieldColumns.{AreFieldColumns};
ghost use Rattle.seg_fastfield.specs.FastLeaves.{IsTaken, pair_values, path_at, recorded_values};
ghost use Rattle.seg_column_format.specs.FastTokenizers.{AreKnown};
ghost use Rattle.seg_fastfield.specs.DeclaredColumns.{first_columns};
ghost use Rattle.seg_fastfield.specs.PathNumbers.{AreColumnsOf};
ghost use Rattle.seg_fastfield.specs.FastFieldWriters.{AreUnderWay};

use crate::path_columns::PathColumns;
use crate::place::Place;
use seg_column_writer::{ColumnId, ColumnarWriter};
use seg_columns::ColumnError;
use seg_common::JsonPathWriter;
use seg_tokens::Analyzers;
use seg_values::{Field, FieldEntry, OwnedValue, Pairs};
use std::alloc::Global;

/// Records the values of the document that has a row.
#[derive(Drop)]
pub(crate) struct RowRecorder<'a, Z: Analyzers> {
    pub alloc: Global,
    pub analyzers: &'a Z,
    pub schema: &'a [FieldEntry],
    /// The columns of the fields that have one.
    pub fields: &'a [Option<ColumnId>],
    pub row: u32,
}

impl<'a, Z: Analyzers> RowRecorder<'a, Z> {
    /// Records all that the document has in fast fields, and answers what is known of paths then. After an error a part
    /// of it may be recorded.
    pub fn record_document(
        &self,
        columns: &mut ColumnarWriter,
        known: PathColumns,
        document: &Pairs<'_>,
    ) -> Result<PathColumns, ColumnError>
        requires schema { (is_schema self.now.schema.now ≡ true) × (names_fit self.now.schema.now ≡ true)
            × AreKnown (Z.knows self.now.analyzers.now) self.now.schema.now
            × AreFieldColumns (first_columns self.now.schema.now) self.now.schema.now self.now.fields.now }
        requires known { AreColumnsOf known columns.old }
        requires taken { AllByRecursion (IsTaken self.now.schema.now) document.now }
        requires under_way { AreUnderWay self.now.schema.now (self.now.row + 1) columns.old }
        ensures recorded { OnOk result (columns.new ≡ with_values self.now.row
            (recorded_values self.now.schema.now (Z.tokens_of self.now.analyzers.now) document.now) columns.old) }
        ensures under_way { AreUnderWay self.now.schema.now (self.now.row + 1) columns.new }
        ensures known { IfOk result (λ known. AreColumnsOf known columns.new) }
    {
        let mut known = known;
        let mut path = JsonPathWriter::new(self.alloc);
        for at in 0..document.len() {
            let (field, value) = document.pair(at);
            self.record_pair(columns, &mut known, &mut path, field, value)?;
        }
        Ok(known)
    }

    /// Records a value of a field.
    fn record_pair(
        &self,
        columns: &mut ColumnarWriter,
        known: &mut PathColumns,
        path: &mut JsonPathWriter,
        field: Field,
        value: &OwnedValue,
    ) -> Result<(), ColumnError>
        requires schema { (is_schema self.now.schema.now ≡ true) × (names_fit self.now.schema.now ≡ true)
            × AreKnown (Z.knows self.now.analyzers.now) self.now.schema.now
            × AreFieldColumns (first_columns self.now.schema.now) self.now.schema.now self.now.fields.now }
        requires known { AreColumnsOf known.old columns.old }
        requires taken { IsTaken self.now.schema.now (field, tree_of value.now) }
        requires under_way { AreUnderWay self.now.schema.now (self.now.row + 1) columns.old }
        ensures recorded { OnOk result (columns.new ≡ with_values self.now.row
            (pair_values (Z.tokens_of self.now.analyzers.now) (tree_of value.now)
            (slice_get self.now.schema.now field)) columns.old) }
        ensures under_way { AreUnderWay self.now.schema.now (self.now.row + 1) columns.new }
        ensures known { OnOk result (AreColumnsOf known.new columns.new) }
    {
        let id = field.field_id() as usize;
        let entry = &self.schema[id];
        let column = self.fields[id];
        if !entry.fast {
            return Ok(());
        }
        start_path(path, entry)?;
        let number = known.field_number(column, entry.name.as_str())?;
        let place = Place { column, number };
        self.record_tree(columns, known, path, entry, place, 0, value)
    }
}

/// Makes a path that of a field alone.
fn start_path(path: &mut JsonPathWriter, entry: &FieldEntry) -> Result<(), ColumnError>
    ensures { OnOk result (path.new ≡ path_at entry.now []) }
{
    path.clear();
    path.set_expand_dots(false);
    let Ok(()) = path.push(entry.name.as_str()) else {
        return Err(ColumnError::OutOfMemory);
    };
    path.set_expand_dots(entry.expand_dots);
    Ok(())
}

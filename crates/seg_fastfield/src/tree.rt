//! The leaves of a value, recorded at their paths.
ghost use Rattle.std.specs.Prelude.{◌≡◌, ◌+◌, ◌++◌, [], ◌∷◌, ◌≤◌, ℕ, List, OnOk};
ghost use Rattle.std.specs.List.{join_with_byte};
ghost use Rattle.seg_common.specs.JsonPaths.{written_key};
ghost use Rattle.seg_model.specs.Leaves as leaves;
ghost use Rattle.seg_values.specs.ValueTrees.{tree_of};
ghost use Rattle.seg_fastfield.specs.FieldColumns.{IsFieldColumn};
ghost use Rattle.seg_fastfield.specs.DeclaredColumns.{first_columns};
ghost use Rattle.seg_fastfield.specs.PathNumbers.{IsKnownAt, IsKnownStill};
ghost use Rattle.seg_fastfield.specs.RecordedLeaves.{CanRecord, IsRecorded};
ghost use Rattle.seg_fastfield.specs.FastFieldWriters.{AreUnderWay};

use crate::path_columns::PathColumns;
use crate::place::Place;
use crate::row_recorder::RowRecorder;
use seg_column_writer::ColumnarWriter;
use seg_columns::ColumnError;
use seg_common::JsonPathWriter;
use seg_tokens::Analyzers;
use seg_values::{FieldEntry, OwnedValue};

/// The deepest level below the first object at which leaves are recorded.
const MOST_LEVELS: u32 = 20;

impl<'a, Z: Analyzers> RowRecorder<'a, Z> {
    /// Records the leaves of a value that is at a path of its field, at this level below the first object.
    pub(crate) fn record_tree(
        &self,
        columns: &mut ColumnarWriter,
        known: &mut PathColumns,
        path: &mut JsonPathWriter,
        entry: &FieldEntry,
        place: Place,
        level: u32,
        value: &OwnedValue,
    ) -> Result<(), ColumnError>
        requires can { CanRecord (Z.knows self.now.analyzers.now) self.now.schema.now self.now.row entry.now path.old
            level (tree_of value.now) columns.old }
        requires column { IsFieldColumn (first_columns self.now.schema.now) entry.now place.column }
        requires known { IsKnownAt known.old place.number (join_with_byte 1 path.old.keys) columns.old }
        ensures recorded { (keys : List (List ℕ)) → IsRecorded (Z.tokens_of self.now.analyzers.now) self.now.row
            entry.now keys level (tree_of value.now) path.old path.new columns.old columns.new result }
        ensures under_way { AreUnderWay self.now.schema.now (self.now.row + 1) columns.new }
        ensures known { OnOk result (IsKnownStill known.old known.new columns.new) }
    {
        if level > MOST_LEVELS {
            return Ok(());
        }
        match value {
            OwnedValue::Array(values) => {
                let inner = level_in_array(level);
                for at in 0..values.len() {
                    self.record_tree(columns, known, path, entry, place, inner, values.get(at))?;
                }
                Ok(())
            }
            OwnedValue::Object(members) => {
                for index in 0..members.len() {
                    let (key, child) = members.get(index);
                    push_key(path, key)?;
                    let number = known.key_number(place.number, entry.expand_dots, key)?;
                    let inner = Place {
                        column: place.column,
                        number,
                    };
                    self.record_tree(columns, known, path, entry, inner, level + 1, child)?;
                    path.pop();
                }
                Ok(())
            }
            _ => self.record_leaf(columns, known, entry, place, path.as_str(), level, value),
        }
    }
}

/// The level of the values of an array: those outside of objects have none.
fn level_in_array(level: u32) -> u32
    requires { level ≤ 20 }
    ensures { result ≡ leaves.level_in_array level }
{
    if level == 0 { 0 } else { level + 1 }
}

fn push_key(path: &mut JsonPathWriter, key: &str) -> Result<(), ColumnError>
    ensures { OnOk result
        (path.new ≡ record path.old { keys = path.old.keys ++ written_key path.old.expand_dots key.now ∷ [] }) }
{
    let Ok(()) = path.push(key) else {
        return Err(ColumnError::OutOfMemory);
    };
    Ok(())
}

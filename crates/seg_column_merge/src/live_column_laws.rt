//! The columns of live documents: the contract of each function here is the whole of it.
ghost use Rattle.std.specs.Prelude.{◌≡◌, ◌<◌, ◌^◌, List, length, true};
ghost use Rattle.seg_column_file.specs.ColumnFiles.{ColumnFile};
ghost use Rattle.seg_column_merge.specs.MergedColumns.{CanMerge, merged_columns};
ghost use Rattle.seg_column_merge.specs.LiveColumns.{HaveColumnsOf, live_rows};
ghost use Rattle.seg_model.specs.Columns.{declared_columns};
ghost use Rattle.seg_model.specs.Fields.{Schema};
ghost use Rattle.seg_model.specs.Join.{Part, joined_columns};
ghost use Rattle.seg_values.specs.SchemaRules.{is_schema};

/// The files of segments, merged with the rows that are alive, have the columns of the segments' join.
pub fn live_columns_join()
    ensures columns { (schema : Schema) (files : List ColumnFile) (parts : List Part) → HaveColumnsOf schema files parts
        → merged_columns (declared_columns schema) files (live_rows 0 parts) ≡ joined_columns schema parts }
    ensures can { (schema : Schema) (files : List ColumnFile) (parts : List Part) → is_schema schema ≡ true
        → HaveColumnsOf schema files parts → length (live_rows 0 parts) < 2 ^ 32
        → CanMerge (declared_columns schema) files (live_rows 0 parts) }
{}

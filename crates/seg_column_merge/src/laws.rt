//! What the model has at a key of merged columns: the contract of each function here is the whole of it.
ghost use Rattle.std.specs.Prelude.{◌≡◌, ◌∷◌, ℕ, List, String, false, map};
ghost use Rattle.std.specs.declared.alloc.Global.{Global};
ghost use Rattle.std.specs.List.{list_any};
ghost use Rattle.seg_common.specs.declared.column_type.ColumnType.{ColumnType};
ghost use Rattle.seg_model.specs.Columns.{ColumnKey, is_declared};
ghost use Rattle.seg_column_file.specs.ColumnFiles.{ColumnFile};
ghost use Rattle.seg_column_merge.specs.Cells.{cells, is_absent, is_required, rows_with};
ghost use Rattle.seg_column_merge.specs.MergedColumns.{required_key, rows_at};
ghost use Rattle.seg_column_file.specs.RowOrders.{Place};
ghost use Rattle.seg_column_merge_parts.specs.Tables.{Row, all_rows, kind_of};

/// The values of merged rows at a key, and whether it is required, by the rows of all tables with its path and kind.
pub fn merged_rows_by_kind()
    ensures rows { (q : ColumnKey) (required : List (String Global × ColumnType)) (files : List ColumnFile)
        (places : List Place) → rows_at files places q
        ≡ cells (rows_with q.path (kind_of q.type) (all_rows required files)) places }
    ensures required { (q : ColumnKey) (required : List (String Global × ColumnType)) (files : List ColumnFile)
        → is_declared (map required_key required) q
        ≡ list_any (is_required q.type) (rows_with q.path (kind_of q.type) (all_rows required files)) }
    ensures first { (path : List ℕ) (kind : ℕ) (required : List (String Global × ColumnType)) (files : List ColumnFile)
        (r : Row) (rest : List Row) → rows_with path kind (all_rows required files) ≡ r ∷ rest
        → is_absent r.column ≡ false
        → (type : ColumnType) → list_any (is_required type) (rows_with path kind (all_rows required files)) ≡ false }
{}

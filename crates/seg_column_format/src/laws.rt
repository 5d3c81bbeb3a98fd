//! What is written is read back: the contract of each function here is the whole of it.
ghost use Rattle.std.specs.Prelude.{◌≡◌, ◌^◌, ◌<◌, ℕ, List, length, map, All, IsUtf8};
ghost use Rattle.std.specs.List.Sorted.{IsStrictlySortedBy};
ghost use Rattle.std.specs.Ordering.{nat_cmp};
ghost use Rattle.std.specs.Cmp.Lexicographic.{slice_cmp};
ghost use Rattle.seg_columns.specs.TermColumns.{IsBytesColumn, IsStrColumn, UsesEach, term_column_of};
ghost use Rattle.seg_column_file.specs.ColumnFiles.{IsColumnFile, column_file_of};
ghost use Rattle.seg_column_format.specs.ColumnBytes.{term_column_bytes, total};
ghost use Rattle.seg_column_format.specs.FileBytes.{AreColumns, WrittenColumn, file_bytes, read_column};

/// A column of bytes from its ordinals and its dictionary.
pub fn bytes_columns_read_back()
    ensures column { (ords terms : List (List ℕ)) → length terms < 2 ^ 64 → total terms < 2 ^ 64 → total ords < 2 ^ 64
        → UsesEach (length terms) ords → IsStrictlySortedBy (slice_cmp nat_cmp) terms
        → IsBytesColumn (length ords) (term_column_bytes ords terms) }
    ensures read { (ords terms : List (List ℕ)) → length terms < 2 ^ 64 → total terms < 2 ^ 64 → total ords < 2 ^ 64
        → UsesEach (length terms) ords
        → term_column_of (length ords) (term_column_bytes ords terms) ≡ record { terms = terms; ords = ords } }
{}

/// A column of texts is one of bytes whose terms are texts.
pub fn str_columns_read_back()
    ensures { (ords terms : List (List ℕ)) → length terms < 2 ^ 64 → total terms < 2 ^ 64 → total ords < 2 ^ 64
        → UsesEach (length terms) ords → IsStrictlySortedBy (slice_cmp nat_cmp) terms → All IsUtf8 terms
        → IsStrColumn (length ords) (term_column_bytes ords terms) }
{}

/// A file from its columns.
pub fn files_read_back()
    ensures file { (rows : ℕ) (columns : List WrittenColumn) → AreColumns rows columns → rows < 2 ^ 32
        → length (file_bytes rows columns) < 2 ^ 64 → IsColumnFile (file_bytes rows columns) }
    ensures read { (rows : ℕ) (columns : List WrittenColumn) → AreColumns rows columns → rows < 2 ^ 32
        → length (file_bytes rows columns) < 2 ^ 64
        → column_file_of (file_bytes rows columns) ≡ record { rows = rows; columns = map (read_column rows) columns } }
{}

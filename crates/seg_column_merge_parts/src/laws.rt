//! What the pieces of a merge tell by the model: the contract of each function here is the whole of it.
ghost use Rattle.std.specs.Prelude.{◌≡◌, ◌^◌, ◌<◌, ◌||◌, ◌&&◌, ℕ, ℤ, Bool, List, not, [], get_or, length, map, nat_eq};
ghost use Rattle.std.specs.Int.{is_negative};
ghost use Rattle.std.specs.List.{AllByRecursion, list_any};
ghost use Rattle.seg_common.specs.declared.column_type.ColumnType.TheVariants.{I64, U64};
ghost use Rattle.seg_common.specs.MappableValues.{lowered};
ghost use Rattle.seg_model.specs.Columns.{ColumnValue, fits_i64, free_number_type, is_not_negative};
ghost use Rattle.seg_columns.specs.Columns.{IsColumn, rows_of};
ghost use Rattle.seg_columns.specs.ValueImages.{signed, unsigned};
ghost use Rattle.seg_column_format.specs.ColumnBytes.{column_bytes, total};
ghost use Rattle.seg_column_merge_parts.specs.declared.number_range.NumberRange.{NumberRange};
ghost use Rattle.seg_column_merge_parts.specs.declared.source.Source.{Source};
ghost use Rattle.seg_column_merge_parts.specs.ColumnSources.{number_map};
ghost use Rattle.seg_column_merge_parts.specs.ImageValues.{value_in};
ghost use Rattle.seg_column_merge_parts.specs.JoinedNumbers.{IsNumeric, joined_numbers};
ghost use Rattle.seg_column_merge_parts.specs.KeptColumns.{there};
ghost use Rattle.seg_column_file.specs.KeptRows.{AreMarks, kept_values};
ghost use Rattle.seg_column_merge_parts.specs.NumberRanges.{is_large, type_of_range, with_all, with_signed, with_unsigned};
ghost use Rattle.seg_column_file.specs.RowOrders.{Place};
ghost use Rattle.seg_column_merge_parts.specs.SourceRows.{CanMap, joined, mapped};

/// The range of numbers tells their type, as the model has it.
pub fn ranges_tell_types()
    ensures types { (range : NumberRange) (rows : List (List ColumnValue))
        → range.large ≡ list_any (list_any (λ v. not (fits_i64 v))) rows
        → range.negative ≡ list_any (list_any (λ v. not (is_not_negative v))) rows
        → type_of_range range ≡ free_number_type rows }
    ensures signed { (range : NumberRange) (zs : List ℤ)
        → ((with_all with_signed range zs).some ≡ (range.some || list_any there zs))
        × ((with_all with_signed range zs).negative ≡ (range.negative || list_any is_negative zs))
        × ((with_all with_signed range zs).large ≡ range.large) }
    ensures unsigned { (range : NumberRange) (ns : List ℕ)
        → ((with_all with_unsigned range ns).some ≡ (range.some || list_any there ns))
        × ((with_all with_unsigned range ns).negative ≡ range.negative)
        × ((with_all with_unsigned range ns).large ≡ (range.large || list_any is_large ns)) }
{}

/// Whether a number in a kept row of a file passes a test: by the marks of its rows, and by the places that are kept.
pub fn kept_values_by_places()
    ensures { (p : ℕ → Bool) (file : ℕ) (rows : List (List ℕ)) (counts : List ℕ) (places : List Place)
        (kept : List (List Bool)) → AreMarks counts places kept → length rows ≡ get_or counts file 0
        → list_any p (kept_values (get_or kept file []) rows)
        ≡ list_any (λ a. nat_eq file a.0 && list_any p (get_or rows a.1 [])) places }
{}

/// What a merged column of numbers, moments or truth values reads as.
pub fn joined_columns_read_back()
    ensures signed { (sources : List Source) (places : List Place) → AllByRecursion IsNumeric sources
        → total (joined sources places) < 2 ^ 64
        → AllByRecursion (AllByRecursion (λ n. n < 2 ^ 64)) (joined_numbers sources places)
        → IsColumn 8 signed (length places) (column_bytes (λ code. code) (joined sources places))
        × (rows_of 8 signed (length places) (column_bytes (λ code. code) (joined sources places))
        ≡ map (map lowered) (joined_numbers sources places)) }
    ensures unsigned { (sources : List Source) (places : List Place) → AllByRecursion IsNumeric sources
        → total (joined sources places) < 2 ^ 64
        → AllByRecursion (AllByRecursion (λ n. n < 2 ^ 64)) (joined_numbers sources places)
        → IsColumn 8 unsigned (length places) (column_bytes (λ code. code) (joined sources places))
        × (rows_of 8 unsigned (length places) (column_bytes (λ code. code) (joined sources places))
        ≡ map (map (λ n. n)) (joined_numbers sources places)) }
{}

/// A number that is written for another one stands for the same value.
pub fn written_numbers_keep_values()
    ensures raised { (n : ℕ) → CanMap (number_map U64 I64) n
        → value_in I64 (mapped (number_map U64 I64) n) ≡ value_in U64 n }
    ensures lowered { (n : ℕ) → CanMap (number_map I64 U64) n
        → value_in U64 (mapped (number_map I64 U64) n) ≡ value_in I64 n }
{}

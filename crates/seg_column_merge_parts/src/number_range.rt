//! What the numbers of a path are, so that their type is known before any is written.
ghost use Rattle.std.specs.Prelude.{◌≡◌, ◌||◌, [], if◌then◌else◌, length};
ghost use Rattle.seg_column_file.specs.KeptRows.{kept_values};
ghost use Rattle.seg_column_merge_parts.specs.NumberRanges as spec;

use seg_columns::{Column, ColumnValues};
use seg_common::ColumnType;

/// Whether there is a number, one below zero, and one above the greatest i64.
#[derive(Clone, Copy, Debug)]
pub struct NumberRange {
    pub some: bool,
    pub negative: bool,
    pub large: bool,
}

impl NumberRange {
    pub const fn new() -> NumberRange
        ensures { result ≡ spec.no_numbers }
    {
        NumberRange {
            some: false,
            negative: false,
            large: false,
        }
    }

    pub fn has_numbers(self) -> bool
        ensures { result ≡ self.some }
    {
        self.some
    }

    /// I64 where it holds all, else U64 where it does.
    pub fn number_type(self) -> Option<ColumnType>
        ensures { result ≡ spec.type_of_range self }
    {
        if !self.large {
            Some(ColumnType::I64)
        } else if !self.negative {
            Some(ColumnType::U64)
        } else {
            None
        }
    }

    /// With the numbers of the rows that are kept.
    pub fn with_signed(self, column: &Column<i64>, kept: &[bool]) -> NumberRange
        requires { length kept.now ≡ length column.now }
        ensures { result ≡ spec.with_all spec.with_signed self (kept_values kept.now column.now) }
    {
        let mut range = self;
        for row in 0..column.num_docs() {
            range = range.with_signed_row(kept[row as usize], column.values_for_doc(row));
        }
        range
    }

    /// With the numbers of the rows that are kept.
    pub fn with_unsigned(self, column: &Column<u64>, kept: &[bool]) -> NumberRange
        requires { length kept.now ≡ length column.now }
        ensures { result ≡ spec.with_all spec.with_unsigned self (kept_values kept.now column.now) }
    {
        let mut range = self;
        for row in 0..column.num_docs() {
            range = range.with_unsigned_row(kept[row as usize], column.values_for_doc(row));
        }
        range
    }

    /// With the numbers of a row, if it is kept.
    fn with_signed_row(self, is_kept: bool, numbers: ColumnValues<'_, i64>) -> NumberRange
        ensures { result ≡ spec.with_all spec.with_signed self (if is_kept then numbers.entry else []) }
    {
        if !is_kept {
            return self;
        }
        let mut range = self;
        for number in numbers {
            range = range.and_signed(number);
        }
        range
    }

    /// With the numbers of a row, if it is kept.
    fn with_unsigned_row(self, is_kept: bool, numbers: ColumnValues<'_, u64>) -> NumberRange
        ensures { result ≡ spec.with_all spec.with_unsigned self (if is_kept then numbers.entry else []) }
    {
        if !is_kept {
            return self;
        }
        let mut range = self;
        for number in numbers {
            range = range.and_unsigned(number);
        }
        range
    }

    fn and_signed(self, number: i64) -> NumberRange
        ensures { result ≡ spec.with_signed self number }
    {
        NumberRange {
            some: true,
            negative: either(self.negative, number.is_negative()),
            large: self.large,
        }
    }

    fn and_unsigned(self, number: u64) -> NumberRange
        ensures { result ≡ spec.with_unsigned self number }
    {
        NumberRange {
            some: true,
            negative: self.negative,
            large: either(self.large, is_large(number)),
        }
    }
}

fn either(first: bool, second: bool) -> bool
    ensures { result ≡ (first || second) }
{
    first || second
}

/// Whether a number is above all i64.
fn is_large(number: u64) -> bool
    ensures { result ≡ spec.is_large number }
{
    number >= 1 << 63
}

//! A value of a row, as a column keeps it while values come.
ghost use Rattle.std.specs.Prelude.{◌≡◌, ◌<◌, ◌^◌, false};
ghost use Rattle.seg_column_writer.specs.RowValues.{fits_signed, integer_of, number_in};

use crate::numerical_value::NumericalValue;

/// A value by a number. A negative one has the number that is one below its distance from 0; a text, bytes and an
/// address have the number of their term.
#[derive(Clone, Copy)]
pub(crate) struct RowValue {
    pub row: u32,
    pub negative: bool,
    pub number: u64,
}

impl RowValue {
    pub fn of_number(row: u32, number: u64) -> RowValue
        ensures { result ≡ record { row = row; negative = false; number = number } }
    {
        RowValue {
            row,
            negative: false,
            number,
        }
    }

    pub fn of_numerical(row: u32, value: NumericalValue) -> RowValue
        ensures row { result.row ≡ row }
        ensures value { integer_of result.negative result.number ≡ number_in value }
    {
        match value {
            NumericalValue::U64(number) => RowValue::of_number(row, number),
            NumericalValue::I64(number) => RowValue::of_signed(row, number),
        }
    }

    fn of_signed(row: u32, number: i64) -> RowValue
        ensures row { result.row ≡ row }
        ensures value { integer_of result.negative result.number ≡ number }
    {
        if number < 0 {
            RowValue {
                row,
                negative: true,
                number: number.abs_diff(-1),
            }
        } else {
            RowValue::of_number(row, number.abs_diff(0))
        }
    }

    /// The number that it is.
    pub fn to_signed(self) -> i64
        requires { self.number < 2 ^ 63 }
        ensures { result ≡ integer_of self.negative self.number }
    {
        let number = self.number as i64;
        if self.negative { -1 - number } else { number }
    }

    /// Whether a number is below 2^63, and a negative one not below -2^63.
    pub fn fits_signed(self) -> bool
        ensures { result ≡ fits_signed self }
    {
        self.number < 1 << 63
    }
}

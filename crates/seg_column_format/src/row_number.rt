//! A value of a row, as a column of a file has it.
ghost use Rattle.std.specs.Prelude.{◌≡◌};
ghost use Rattle.std.specs.Ordering.{nat_cmp, on, then_cmp};

use std::cmp::Ordering;

/// The number that stands for a value, or the place of its term.
#[derive(Clone, Copy)]
pub struct RowNumber {
    pub row: u32,
    pub number: u64,
}

impl RowNumber {
    /// By rows, and of one row by numbers.
    pub fn compare(&self, other: &RowNumber) -> Ordering
        ensures { result ≡ then_cmp (on (λ v. v.row) nat_cmp) (on (λ v. v.number) nat_cmp) self.now other.now }
    {
        match self.row.cmp(&other.row) {
            Ordering::Equal => self.number.cmp(&other.number),
            unequal => unequal,
        }
    }
}

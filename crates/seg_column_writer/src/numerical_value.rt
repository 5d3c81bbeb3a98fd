//! Numbers as callers record them.

/// A number of one of the two types of columns of numbers.
#[derive(Clone, Copy, Debug, PartialEq, Eq)]
pub enum NumericalValue {
    I64(i64),
    U64(u64),
}

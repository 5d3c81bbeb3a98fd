//! A row of one of several files of columns.

/// A row, by the number of its segment and its own number there.
#[derive(Clone, Copy, PartialEq, Eq, Debug)]
pub struct RowAddr {
    pub segment_ord: u32,
    pub row_id: u32,
}

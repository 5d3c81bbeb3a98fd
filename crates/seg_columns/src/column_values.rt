//! The values of one document.
ghost use Rattle.std.specs.Prelude.{◌≡◌, ◌*◌, ◌≤◌, length};
ghost use Rattle.std.specs.Iterator.{YieldsFirst, item_count};
ghost use Rattle.seg_columns.specs.Columns.{AreKnown, values_between};

use crate::column_value::ColumnValue;
use std::iter::FusedIterator;
use std::marker::{Model, PhantomData};

/// Iterates over the values of a document without memory. It is seen as those that are left.
#[derive(Drop)]
pub struct ColumnValues<'a, T: ColumnValue> {
    values: &'a [u8],
    place: usize,
    end: usize,
    of: PhantomData<T>,
}

impl<'a, T: ColumnValue> Model for ColumnValues<'a, T> {
    ghost use Rattle.std.specs.Prelude.{◌≤◌, ◌*◌, List, length};
    ghost use Rattle.seg_columns.specs.Columns.{AreKnown, values_between};

    ghost Value = { List T };

    ghost view = { λ s. values_between T.WIDTH T.decoded s.values.now s.place s.end };

    ghost invariant = { λ s. (s.place ≤ s.end) × (T.WIDTH * s.end ≤ length s.values.now)
        × AreKnown T.WIDTH T.decoded s.values.now s.end };
}

impl<'a, T: ColumnValue> ColumnValues<'a, T> {
    /// The values from one place to another.
    pub(crate) fn new(values: &'a [u8], place: usize, end: usize) -> ColumnValues<'a, T>
        requires order { place ≤ end }
        requires within { T.WIDTH * end ≤ length values.now }
        requires known { AreKnown T.WIDTH T.decoded values.now end }
        ensures { result ≡ values_between T.WIDTH T.decoded values.now place end }
    {
        ColumnValues {
            values,
            place,
            end,
            of: PhantomData,
        }
    }
}

impl<'a, T: ColumnValue> Iterator for ColumnValues<'a, T> {
    type Item = T;

    ghost next_gives = { YieldsFirst (λ rest. rest) };

    ghost remaining = { item_count (λ rest. rest) };

    fn next(&mut self) -> Option<T> {
        if self.place == self.end {
            return None;
        }
        let start = self.place * T::WIDTH;
        self.place += 1;
        T::decode(&self.values[start..start + T::WIDTH])
    }
}

impl<'a, T: ColumnValue> FusedIterator for ColumnValues<'a, T> {}

//! The rows of merged files, in their order.
ghost use Rattle.std.specs.Prelude.{◌≡◌, ◌+◌, ◌^◌, ◌<◌, [], ◌∷◌, IfSome, MatchOption};
ghost use Rattle.std.specs.Iterator.{YieldsFirst, item_count};
ghost use Rattle.seg_column_file.specs.RowOrders.{rows_in_order, stacked_from};

use crate::RowAddr;
use std::iter::FusedIterator;
use std::marker::Model;

/// Which rows of several files a merge keeps, and in which order.
#[derive(Drop)]
pub enum MergeRowOrder {
    /// All rows of the first file, then all of the second, and so on.
    Stack,
    /// These rows.
    Shuffled(Vec<RowAddr>),
}

/// Iterates over rows without memory, each by the number of its file and its own number there. It is seen as those that
/// are left: the rest of the files that are stacked, and then the rest of the addresses.
#[derive(Drop)]
pub struct OrderedRows<'a> {
    counts: &'a [u32],
    file: usize,
    row: u32,
    addresses: &'a [RowAddr],
}

impl<'a> Model for OrderedRows<'a> {
    ghost use Rattle.std.specs.Prelude.{◌++◌, List, map};
    ghost use Rattle.seg_column_file.specs.RowOrders.{Place, place_of, stacked_from};

    ghost Value = { List Place };

    ghost view = { λ s. stacked_from s.counts.now s.file s.row ++ map place_of s.addresses.now };
}

impl<'a> OrderedRows<'a> {
    /// The rows of files that have this many each.
    pub fn new(counts: &'a [u32], order: &'a MergeRowOrder) -> OrderedRows<'a>
        ensures { result ≡ rows_in_order counts.now order.now }
    {
        match order {
            MergeRowOrder::Stack => OrderedRows {
                counts,
                file: 0,
                row: 0,
                addresses: &[],
            },
            MergeRowOrder::Shuffled(addresses) => OrderedRows {
                counts: &[],
                file: 0,
                row: 0,
                addresses: addresses.as_slice(),
            },
        }
    }
}

impl<'a> Iterator for OrderedRows<'a> {
    type Item = (usize, u32);

    ghost next_gives = { YieldsFirst (λ rest. rest) };

    ghost remaining = { item_count (λ rest. rest) };

    fn next(&mut self) -> Option<(usize, u32)> {
        if let Some((file, row)) = next_stacked(self.counts, self.file, self.row) {
            self.file = file;
            self.row = row + 1;
            return Some((file, row));
        }
        let Some((address, rest)) = self.addresses.split_first() else {
            return None;
        };
        self.addresses = rest;
        Some((address.segment_ord as usize, address.row_id))
    }
}

impl<'a> FusedIterator for OrderedRows<'a> {}

/// The first row of stacked files that is left, from a row of one of them on.
fn next_stacked(counts: &[u32], file: usize, row: u32) -> Option<(usize, u32)>
    ensures next { MatchOption result (stacked_from counts.now file row ≡ [])
        (λ p. stacked_from counts.now file row ≡ p ∷ stacked_from counts.now p.0 (p.1 + 1)) }
    ensures fits { IfSome result (λ p. p.1 + 1 < 2 ^ 32) }
{
    let mut file = file;
    let mut row = row;
    while file < counts.len() {
        if row < counts[file] {
            return Some((file, row));
        }
        file += 1;
        row = 0;
    }
    None
}

//! The columns of a file, one after another.
ghost use Rattle.std.specs.Prelude.{◌≡◌};
ghost use Rattle.std.specs.Iterator.{YieldsFirstBy, item_count};
ghost use Rattle.seg_column_file.specs.ColumnFiles.{IsColumnFile, columns_from, named};
ghost use Rattle.seg_column_file.specs.Footers.{IsFooterOf};

use crate::entry::{end_in, path_in, place_behind, type_in};
use crate::footer::{Footer, table_in};
use crate::format::COUNT;
use seg_columns::DynamicColumnHandle;
use seg_common::OwnedBytes;
use std::iter::FusedIterator;
use std::marker::Model;

/// Iterates over the columns of a file in order of path and type, and takes no memory. It is seen as those that are
/// left.
#[derive(Drop)]
pub struct ColumnIter<'a> {
    bytes: &'a OwnedBytes,
    footer: Footer,
    place: u64,
    at: usize,
    start: usize,
}

impl<'a> Model for ColumnIter<'a> {
    ghost use Rattle.std.specs.Prelude.{◌≡◌, ◌≤◌, List};
    ghost use Rattle.seg_column_file.specs.ColumnFiles.{IsColumnFile, NamedColumn, columns_from, column_count, table_of};
    ghost use Rattle.seg_column_file.specs.ColumnTable.{column_start, place_of};
    ghost use Rattle.seg_column_file.specs.Footers.{IsFooterOf};

    ghost Value = { List NamedColumn };

    ghost view = { λ it. columns_from it.bytes.now it.place };

    ghost invariant = { λ it. IsColumnFile it.bytes.now
        × IsFooterOf it.bytes.now it.footer
        × (it.place ≤ column_count it.bytes.now)
        × (it.at ≡ place_of (table_of it.bytes.now) it.place)
        × (it.start ≡ column_start (table_of it.bytes.now) it.place) };
}

impl<'a> ColumnIter<'a> {
    /// All columns of a file.
    pub(crate) fn new(bytes: &'a OwnedBytes, footer: Footer) -> ColumnIter<'a>
        requires file { IsColumnFile bytes.now }
        requires footer { IsFooterOf bytes.now footer }
        ensures { result ≡ columns_from bytes.now 0 }
    {
        ColumnIter {
            bytes,
            footer,
            place: 0,
            at: COUNT,
            start: 0,
        }
    }
}

impl<'a> Iterator for ColumnIter<'a> {
    type Item = (&'a str, DynamicColumnHandle);

    ghost next_gives = { YieldsFirstBy named (λ rest. rest) };

    ghost remaining = { item_count (λ rest. rest) };

    fn next(&mut self) -> Option<(&'a str, DynamicColumnHandle)> {
        if self.place == self.footer.num_columns {
            return None;
        }
        let table = table_in(self.bytes.as_slice(), self.footer.size);
        let at = self.at;
        let end = end_in(table, at) as usize;
        let path = text(path_in(table, at));
        let handle = DynamicColumnHandle::of_checked(
            type_in(table, at),
            self.bytes.slice(self.start, end),
            self.footer.num_rows,
        );
        self.place += 1;
        self.at = place_behind(table, at);
        self.start = end;
        Some((path, handle))
    }
}

impl<'a> FusedIterator for ColumnIter<'a> {}

/// The text that bytes are.
fn text(bytes: &[u8]) -> &str
    requires { Rattle.std.specs.Prelude.IsUtf8 bytes.now }
    ensures { result.now ≡ bytes.now }
{
    match str::from_utf8(bytes) {
        Ok(text) => text,
        Err(_) => unreachable!(),
    }
}

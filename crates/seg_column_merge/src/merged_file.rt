//! A file while its columns are put.
ghost use Rattle.std.specs.Prelude.{◌≡◌, ◌<◌, ◌^◌, [], List, length, IfOk, OnOk};
ghost use Rattle.seg_column_format.specs.FileBytes.{WrittenColumn, file_bytes};
ghost use Rattle.seg_column_merge.specs.MergedFiles.{AddsEntry, IsFileOf};

use crate::planned_group::PlannedGroup;
use crate::room::{entries_room, file_room};
use seg_column_format::{put_entry, put_table};
use seg_common::ColumnType;
use std::alloc::{AllocError, Global};

/// The bytes of the columns that were put, and their entries in the table.
#[derive(Drop)]
pub(crate) struct MergedFile {
    pub(crate) bytes: Vec<u8>,
    pub(crate) entries: Vec<u8>,
    pub(crate) count: u64,
}

impl MergedFile {
    /// Takes the memory of the file with the columns of such groups.
    pub(crate) fn new(alloc: Global, groups: &[PlannedGroup]) -> Result<MergedFile, AllocError>
        ensures { IfOk result (IsFileOf []) }
    {
        let entries_room = entries_room(groups);
        let bytes = Vec::with_capacity(alloc, file_room(groups, entries_room))?;
        let entries = Vec::with_capacity(alloc, entries_room)?;
        Ok(MergedFile {
            bytes,
            entries,
            count: 0,
        })
    }

    /// Adds the entry of the column whose bytes were added last.
    pub(crate) fn end_column(
        &mut self,
        path: &[u8],
        column_type: ColumnType,
    ) -> Result<(), AllocError>
        ensures { OnOk result (AddsEntry path.now column_type self.old self.new) }
    {
        let Some(count) = self.count.checked_add(1) else {
            return Err(AllocError);
        };
        let end = self.bytes.len() as u64;
        put_entry(&mut self.entries, path, column_type, end)?;
        self.count = count;
        Ok(())
    }

    /// The whole file, of this many rows.
    pub(crate) fn finish(self, num_rows: u32) -> Result<Vec<u8>, AllocError>
        ensures { (columns : List WrittenColumn) → IsFileOf columns self
            → IfOk result (λ bytes. (bytes.items ≡ file_bytes num_rows columns) × (length bytes.items < 2 ^ 64)) }
    {
        let MergedFile {
            mut bytes,
            entries,
            count,
        } = self;
        put_table(&mut bytes, count, entries.as_slice(), num_rows)?;
        let _length = bytes.len();
        Ok(bytes)
    }
}

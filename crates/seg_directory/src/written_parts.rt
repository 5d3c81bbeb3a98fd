//! The parts of a composite file that is being written.
ghost use Rattle.std.specs.Prelude.{◌≡◌, ◌≤◌, ◌<◌, ◌-◌, ◌^◌, ◌++◌, ◌∷◌, [], List, Some, IfOk, OnOk, OnErr};
ghost use Rattle.std.specs.Int.{w32, w64, to_le_bytes};
ghost use Rattle.seg_directory.specs.CompositeFiles.{Part, entries_of, parts_from, composite, low_after};
ghost use Rattle.seg_directory.specs.CompositeWriterParts.{IsWritten};

use seg_common::{put_u32, put_u64};
use std::alloc::{AllocError, Global};
use std::marker::Model;

/// Parts one after the other, and their table.
#[derive(Drop)]
pub(crate) struct WrittenParts {
    body: Vec<u8>,
    table: Vec<u8>,
    count: u32,
}

impl Model for WrittenParts {
    ghost Value = { List Part };

    ghost view = { λ w. parts_from 0 (entries_of w.count w.table.items) w.body.items };

    ghost invariant = { λ w. IsWritten w.body.items w.table.items w.count };
}

impl WrittenParts {
    pub(crate) fn new(alloc: Global) -> WrittenParts
        ensures { result ≡ [] }
    {
        WrittenParts {
            body: Vec::new(alloc),
            table: Vec::new(alloc),
            count: 0,
        }
    }

    /// Adds a part at the end.
    pub(crate) fn write(&mut self, field: u32, bytes: &[u8]) -> Result<(), AllocError>
        requires ascends { low_after 0 self.old ≤ field }
        requires limit { field < 2 ^ 32 - 1 }
        ensures ok { OnOk result (self.new ≡ self.old ++ (field, bytes.now) ∷ []) }
        ensures err { OnErr result (self.new ≡ self.old) }
    {
        let before = self.body.len();
        self.body.extend_from_slice(bytes)?;
        let end = self.body.len() as u64;
        match put_entry(&mut self.table, field, end) {
            Ok(()) => {
                self.count += 1;
                Ok(())
            }
            Err(error) => {
                self.body.truncate(before);
                Err(error)
            }
        }
    }

    /// The bytes of the file.
    pub(crate) fn close(self) -> Result<Vec<u8>, AllocError>
        ensures { IfOk result (λ file. composite file.items ≡ Some self) }
    {
        let WrittenParts {
            mut body,
            table,
            count,
        } = self;
        body.extend_from_slice(&table)?;
        put_u32(&mut body, count)?;
        Ok(body)
    }
}

/// Adds an entry of the table.
fn put_entry(table: &mut Vec<u8>, field: u32, end: u64) -> Result<(), AllocError>
    ensures ok { OnOk result (table.new.items ≡ table.old.items ++ (to_le_bytes w32 field ++ to_le_bytes w64 end)) }
    ensures err { OnErr result (table.new.items ≡ table.old.items) }
{
    let before = table.len();
    if put_u32(table, field).is_err() {
        return Err(AllocError);
    }
    if put_u64(table, end).is_err() {
        table.truncate(before);
        return Err(AllocError);
    }
    Ok(())
}

//! A recorded column as a file has it.
ghost use Rattle.std.specs.Prelude.{◌≡◌, ◌<◌, Some, All, OnOk};
ghost use Rattle.seg_column_writer.specs.EncodedColumns.{AddsAddresses, AddsColumn, AddsTexts};
ghost use Rattle.seg_column_writer.specs.RecordedColumns.{column_type_of};
ghost use Rattle.seg_column_format.specs.ValuesByRow.{Rise};

use crate::encoded_values::{put_images, put_ordinals, put_terms};
use crate::known_values::KnownValues;
use crate::recorded_column::RecordedColumn;
use crate::value_kind::ValueKind;
use seg_column_format::{put_dictionary, sum};
use seg_common::ColumnType;
use std::alloc::{AllocError, Global};

impl RecordedColumn {
    /// Adds the bytes of the column in a file of this many rows.
    pub fn put(
        &self,
        alloc: Global,
        out: &mut Vec<u8>,
        column_type: ColumnType,
        num_rows: u32,
    ) -> Result<(), AllocError>
        requires typed { column_type_of self.now ≡ Some column_type }
        requires rows { All (λ v. v.row < num_rows) self.now.values }
        ensures { OnOk result (AddsColumn self.now column_type num_rows out.old.items out.new.items) }
    {
        match column_type {
            ColumnType::Bytes => {
                put_texts(alloc, out, &self.known, self.sorts, num_rows)?;
                Ok(())
            }
            ColumnType::Str => {
                put_texts(alloc, out, &self.known, self.sorts, num_rows)?;
                Ok(())
            }
            ColumnType::IpAddr => {
                put_addresses(alloc, out, &self.known, self.sorts, num_rows)?;
                Ok(())
            }
            _ => {
                let values = &self.known.values;
                put_images(alloc, out, values, column_type, self.sorts, num_rows)?;
                Ok(())
            }
        }
    }

    /// How many bytes `put` adds in a file of this many rows. More than there can be counts as out of memory.
    pub fn room(&self, num_rows: u32) -> Result<usize, AllocError> {
        let ends = (num_rows as usize).saturating_mul(8);
        let values = self.known.values.len();
        let rest = match self.kind {
            ValueKind::Bytes => texts_room(&self.known)?,
            ValueKind::Str => texts_room(&self.known)?,
            ValueKind::IpAddr => values.saturating_mul(16),
            _ => values.saturating_mul(8),
        };
        sum(ends, rest)
    }
}

/// How many bytes the ordinals of values and the dictionary have.
fn texts_room(known: &KnownValues) -> Result<usize, AllocError> {
    let mut room = sum(known.values.len().saturating_mul(8), 8)?;
    for number in 0..known.terms.len() {
        let entry = sum(known.terms.term(number).len(), 8)?;
        room = sum(room, entry)?;
    }
    Ok(room)
}

/// Adds a column of texts or bytes: the ordinals of its values, and the dictionary.
fn put_texts(
    alloc: Global,
    out: &mut Vec<u8>,
    known: &KnownValues,
    sorts: bool,
    num_rows: u32,
) -> Result<(), AllocError>
    requires { Rise (λ v. v.row) 0 known.now.values.items }
    ensures { OnOk result
        (AddsTexts known.now.terms sorts known.now.values.items num_rows out.old.items out.new.items) }
{
    let order = known.terms.order(alloc)?;
    put_ordinals(alloc, out, &known.values, &order, sorts, num_rows)?;
    put_dictionary(out, &known.terms, &order.numbers)?;
    Ok(())
}

/// Adds a column of addresses.
fn put_addresses(
    alloc: Global,
    out: &mut Vec<u8>,
    known: &KnownValues,
    sorts: bool,
    num_rows: u32,
) -> Result<(), AllocError>
    requires { Rise (λ v. v.row) 0 known.now.values.items }
    ensures { OnOk result (AddsAddresses known.now.terms sorts known.now.values.items num_rows
        out.old.items out.new.items) }
{
    let order = known.terms.order(alloc)?;
    put_terms(
        alloc,
        out,
        &known.values,
        &known.terms,
        &order,
        sorts,
        num_rows,
    )?;
    Ok(())
}

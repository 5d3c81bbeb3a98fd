//! The rows of a column of one file, as they are written.
ghost use Rattle.std.specs.Prelude.{◌≡◌, ◌+◌, ◌^◌, ◌<◌, ◌≤◌, ◌++◌, All, length, take, IfOk, IfSome, OnOk};
ghost use Rattle.std.specs.List.{flat_map};
ghost use Rattle.std.specs.Net.Addr.{ipv6_octets};
ghost use Rattle.seg_column_merge_parts.specs.SourceRows.{AddsEnds, CanMap, CanPut, CanPutFirst, first_rows, number_code, row_codes};

use crate::number_map::NumberMap;
use crate::row_ends::{put_ends_after, put_same_ends};
use crate::value_bytes::{address_bytes, number_bytes};
use seg_columns::{Column, ColumnValue, ColumnValues};
use seg_common::put_u64;
use std::alloc::AllocError;
use std::net::Ipv6Addr;

/// The numbers that stand for the values of a column, and what is written for them.
#[derive(Drop)]
pub struct NumberSource {
    pub numbers: Column<u64>,
    pub written: NumberMap,
}

/// What a file has of a merged column.
#[derive(Drop)]
pub enum Source {
    Nothing,
    Numbers(NumberSource),
    Addresses(Column<Ipv6Addr>),
}

impl Source {
    /// This many, and the values of a row in addition; nothing where no u64 counts them.
    pub fn count(&self, row: u32, before: u64) -> Option<u64>
        requires { CanPut self.now row }
        ensures count { IfSome result (λ count. count ≡ before + length (row_codes self.now row)) }
        ensures fits { IfSome result (λ count. count < 2 ^ 64) }
    {
        match self {
            Source::Nothing => Some(before),
            Source::Numbers(source) => counted(source.numbers.values_for_doc(row), before),
            Source::Addresses(column) => counted(column.values_for_doc(row), before),
        }
    }

    /// Adds the bytes of the values of a row.
    pub fn put(&self, row: u32, out: &mut Vec<u8>) -> Result<(), AllocError>
        requires { CanPut self.now row }
        ensures { OnOk result (out.new.items ≡ out.old.items ++ flat_map (λ code. code) (row_codes self.now row)) }
    {
        match self {
            Source::Nothing => Ok(()),
            Source::Numbers(source) => {
                put_numbers(source.numbers.values_for_doc(row), &source.written, out)
            }
            Source::Addresses(column) => put_addresses(column.values_for_doc(row), out),
        }
    }

    /// Adds how many values there are up to each of this many rows from the first on, after this many; then it says how
    /// many these are with those of all the rows.
    pub fn put_first_ends(
        &self,
        rows: u32,
        before: u64,
        out: &mut Vec<u8>,
    ) -> Result<u64, AllocError>
        requires { CanPutFirst self.now rows }
        ensures { IfOk result (AddsEnds (first_rows self.now rows) before out.old.items out.new.items) }
    {
        match self {
            Source::Nothing => put_same_ends(rows, before, out),
            Source::Numbers(source) => put_ends_after(source.numbers.as_bytes(), rows, before, out),
            Source::Addresses(column) => put_ends_after(column.as_bytes(), rows, before, out),
        }
    }

    /// Adds the bytes of the values of this many rows from the first on: as one slice, where all are written as they
    /// are.
    pub fn put_first(&self, rows: u32, out: &mut Vec<u8>) -> Result<(), AllocError>
        requires { CanPutFirst self.now rows }
        ensures { OnOk result (out.new.items
            ≡ out.old.items ++ flat_map (flat_map (λ code. code)) (first_rows self.now rows)) }
    {
        if let Some(bytes) = self.first_bytes(rows) {
            return out.extend_from_slice(bytes);
        }
        self.put_each(rows, out)
    }

    /// These bytes, where they stand in the file.
    fn first_bytes(&self, rows: u32) -> Option<&[u8]>
        requires { CanPutFirst self.now rows }
        ensures { IfSome result (λ bytes. bytes.now ≡ flat_map (flat_map (λ code. code)) (first_rows self.now rows)) }
    {
        match self {
            Source::Nothing => Some(&[]),
            Source::Numbers(source) => source.first_bytes(rows),
            Source::Addresses(column) => Some(address_bytes(column, rows)),
        }
    }

    /// Adds them row by row.
    fn put_each(&self, rows: u32, out: &mut Vec<u8>) -> Result<(), AllocError>
        requires { CanPutFirst self.now rows }
        ensures { OnOk result (out.new.items
            ≡ out.old.items ++ flat_map (flat_map (λ code. code)) (first_rows self.now rows)) }
    {
        for row in 0..rows {
            self.put(row, out)?;
        }
        Ok(())
    }
}

impl NumberSource {
    /// The bytes of the numbers of this many rows from the first on, where they stand in the file as they are written.
    fn first_bytes(&self, rows: u32) -> Option<&[u8]>
        requires { rows ≤ length self.now.numbers }
        ensures { IfSome result (λ bytes. bytes.now
            ≡ flat_map (flat_map (λ n. number_code self.now.written n)) (take rows self.now.numbers)) }
    {
        match self.written {
            NumberMap::Same => Some(number_bytes(&self.numbers, rows)),
            _ => None,
        }
    }
}

fn counted<T: ColumnValue>(values: ColumnValues<'_, T>, before: u64) -> Option<u64>
    ensures count { IfSome result (λ count. count ≡ before + length values.entry) }
    ensures fits { IfSome result (λ count. count < 2 ^ 64) }
{
    let mut count = before;
    for _value in values {
        count = count.checked_add(1)?;
    }
    Some(count)
}

fn put_numbers(
    numbers: ColumnValues<'_, u64>,
    written: &NumberMap,
    out: &mut Vec<u8>,
) -> Result<(), AllocError>
    requires { All (CanMap written.now) numbers }
    ensures { OnOk result (out.new.items
        ≡ out.old.items ++ flat_map (λ n. number_code written.now n) numbers.entry) }
{
    for number in numbers {
        put_u64(out, written.of(number))?;
    }
    Ok(())
}

fn put_addresses(addresses: ColumnValues<'_, Ipv6Addr>, out: &mut Vec<u8>) -> Result<(), AllocError>
    ensures { OnOk result (out.new.items ≡ out.old.items ++ flat_map ipv6_octets addresses.entry) }
{
    for address in addresses {
        out.extend_from_slice(&address.octets())?;
    }
    Ok(())
}

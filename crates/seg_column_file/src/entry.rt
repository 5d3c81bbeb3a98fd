//! Entries of the table of columns, each by the place where it begins.
ghost use Rattle.std.specs.Prelude.{◌≡◌, ◌<◌, ◌≤◌, length, IsUtf8, MatchBool, MatchOption};
ghost use Rattle.seg_column_file.specs.ColumnTable as spec;

use crate::format::ENTRY_BYTES;
use seg_common::{ColumnType, u64_at};
use std::cmp::Ordering;

/// Where the next entry begins, if this one lies within the table, has a text as path, and is of a type.
pub(crate) fn checked_entry(table: &[u8], at: usize) -> Option<usize>
    requires { at ≤ length table.now }
    ensures { MatchOption result (spec.IsEntry table.now at → ⊥)
        (λ next. (next ≡ spec.next_place table.now at) × spec.IsEntry table.now at) }
{
    let next = next_place(table, at)?;
    if code_in(table, at) > 6 {
        return None;
    }
    if !is_utf8(path_in(table, at)) {
        return None;
    }
    Some(next)
}

/// Where the next entry begins, if this one lies within the table.
#[tactic(auto, unfolding(crate::specs::ColumnTable::next_place))]
fn next_place(table: &[u8], at: usize) -> Option<usize>
    requires { at ≤ length table.now }
    ensures { MatchOption result (length table.now < spec.next_place table.now at)
        (λ next. (next ≡ spec.next_place table.now at) × (next ≤ length table.now)) }
{
    let rest = table.len() - at;
    if rest < ENTRY_BYTES {
        return None;
    }
    let length = u64_at(table, at);
    if length > (rest - ENTRY_BYTES) as u64 {
        return None;
    }
    Some(at + ENTRY_BYTES + length as usize)
}

/// Where the entry after one that lies within the table begins.
#[tactic(auto, unfolding(crate::specs::ColumnTable::next_place))]
pub(crate) fn place_behind(table: &[u8], at: usize) -> usize
    requires { spec.next_place table.now at ≤ length table.now }
    ensures { result ≡ spec.next_place table.now at }
{
    let length = u64_at(table, at) as usize;
    at + ENTRY_BYTES + length
}

#[tactic(auto, unfolding(crate::specs::ColumnTable::next_place, crate::specs::ColumnTable::path_in))]
pub(crate) fn path_in(table: &[u8], at: usize) -> &[u8]
    requires { spec.next_place table.now at ≤ length table.now }
    ensures { result.now ≡ spec.path_in table.now at }
{
    let length = u64_at(table, at) as usize;
    &table[at + 8..at + 8 + length]
}

#[tactic(auto, unfolding(crate::specs::ColumnTable::next_place, crate::specs::ColumnTable::code_in))]
fn code_in(table: &[u8], at: usize) -> u8
    requires { spec.next_place table.now at ≤ length table.now }
    ensures { result ≡ spec.code_in table.now at }
{
    table[at + 8 + u64_at(table, at) as usize]
}

#[tactic(auto, unfolding(crate::specs::ColumnTable::next_place, crate::specs::ColumnTable::end_in))]
pub(crate) fn end_in(table: &[u8], at: usize) -> u64
    requires { spec.next_place table.now at ≤ length table.now }
    ensures { result ≡ spec.end_in table.now at }
{
    u64_at(table, at + 9 + u64_at(table, at) as usize)
}

/// The type of an entry's column.
pub(crate) fn type_in(table: &[u8], at: usize) -> ColumnType
    requires { spec.next_place table.now at ≤ length table.now }
    ensures { result ≡ spec.type_of_code (spec.code_in table.now at) }
{
    match code_in(table, at) {
        0 => ColumnType::I64,
        1 => ColumnType::U64,
        2 => ColumnType::Bytes,
        3 => ColumnType::Str,
        4 => ColumnType::Bool,
        5 => ColumnType::IpAddr,
        _ => ColumnType::DateTime,
    }
}

/// Whether an entry may stand after another.
#[tactic(auto, unfolding(crate::specs::ColumnTable::may_follow))]
pub(crate) fn may_follow(table: &[u8], before: usize, at: usize) -> bool
    requires first { spec.next_place table.now before ≤ length table.now }
    requires second { spec.next_place table.now at ≤ length table.now }
    ensures { result ≡ spec.may_follow table.now before at }
{
    match path_in(table, before).cmp(&path_in(table, at)) {
        Ordering::Less => true,
        Ordering::Equal => are_apart(code_in(table, before), code_in(table, at)),
        Ordering::Greater => false,
    }
}

/// Whether a path may have columns of two types in this order.
fn are_apart(first: u8, second: u8) -> bool
    ensures { result ≡ spec.are_apart first second }
{
    first < second && !(first == 0 && second == 1)
}

fn is_utf8(bytes: &[u8]) -> bool
    ensures { MatchBool result (IsUtf8 bytes.now) (IsUtf8 bytes.now → ⊥) }
{
    match str::from_utf8(bytes) {
        Ok(_) => true,
        Err(_) => false,
    }
}

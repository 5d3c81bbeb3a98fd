//! Composite files: the parts of several fields in one file.
ghost use Rattle.std.specs.Prelude.{◌≡◌, ◌≤◌, ◌<◌, ◌+◌, ◌*◌, ◌++◌, List, ℕ, true, false, length, slice_get, slice_range, IfErr, IfSome, MatchResult, MatchOption, option_map, Some, None};
ghost use Rattle.seg_common.specs.LittleEndian as numbers;
ghost use Rattle.seg_directory.specs.CompositeBytes.{spelling};
ghost use Rattle.seg_directory.specs.CompositeEntry.{IsEntry};
ghost use Rattle.seg_directory.specs.CompositeFiles.{Part, entries_of, are_entries, parts_from, is_composite, parts_of, composite, field_of, count_of};

use seg_common::{ByteCount, CommonError, OwnedBytes, u32_at, u64_at};
use seg_values::Field;
use std::marker::Model;

/// The bytes of one entry of the table: a field and an end.
const ENTRY: usize = 12;

/// The bytes of the number of parts.
const COUNT: usize = 4;

/// The parts of a composite file, each the bytes of a field. A part is a slice of the file.
#[derive(Drop)]
pub struct CompositeFile {
    bytes: OwnedBytes,
    count: u32,
}

impl Model for CompositeFile {
    ghost Value = { List Part };

    ghost view = { λ c. parts_of c.bytes };

    ghost invariant = { λ c. (is_composite c.bytes ≡ true) × (c.count ≡ count_of c.bytes) };
}

impl CompositeFile {
    /// Checks the table whole. `Malformed`: the bytes are too short for it, its fields don't ascend, its ends fall, or
    /// the last of them isn't where the table begins.
    pub fn open(bytes: OwnedBytes) -> Result<CompositeFile, CommonError>
        ensures read { MatchResult result (λ parts. composite bytes ≡ Some parts) (λ _. composite bytes ≡ None) }
        ensures err { IfErr result (λ e. e ≡ CommonError.Malformed) }
    {
        match checked_count(bytes.as_slice()) {
            Some(count) => Ok(CompositeFile { bytes, count }),
            None => Err(CommonError::Malformed),
        }
    }

    /// The same file again, over the same bytes; this takes no memory.
    pub fn share(&self) -> CompositeFile
        ensures { result ≡ self.now }
    {
        CompositeFile {
            bytes: self.bytes.share(),
            count: self.count,
        }
    }

    /// The bytes of a field, which share those of the file: found in the table by binary search.
    pub fn open_read(&self, field: Field) -> Option<OwnedBytes>
        ensures { result ≡ field_of self.now field }
    {
        let bytes = self.bytes.as_slice();
        let body = bytes.len() - (COUNT + ENTRY * self.count as usize);
        let (_, table) = bytes.split_at(body);
        match find_entry(table, self.count, body, field.field_id()) {
            Some((start, end)) => Some(self.bytes.slice(start, end)),
            None => None,
        }
    }

    /// The part at a place, after its field. Parts are in the order of their fields.
    pub fn part(&self, place: u32) -> (Field, OwnedBytes)
        requires { place < length self.now }
        ensures { slice_get self.now place ≡ Some result }
    {
        let bytes = self.bytes.as_slice();
        let body = bytes.len() - (COUNT + ENTRY * self.count as usize);
        let (_, table) = bytes.split_at(body);
        let (start, end) = entry_range(table, self.count, body, place);
        let field = u32_at(table, ENTRY * place as usize);
        (Field::from_field_id(field), self.bytes.slice(start, end))
    }

    /// How many parts there are.
    pub fn num_fields(&self) -> u32
        ensures { result ≡ length self.now }
    {
        self.count
    }

    /// How many bytes the file has.
    pub fn num_bytes(&self) -> ByteCount
        ensures { result.0 ≡ length (spelling self.now) }
    {
        ByteCount(self.bytes.len() as u64)
    }
}

/// The number of parts, where the bytes are a composite file.
fn checked_count(bytes: &[u8]) -> Option<u32>
    ensures { MatchOption result (is_composite bytes.now ≡ false)
        (λ n. (is_composite bytes.now ≡ true) × (n ≡ count_of bytes.now)) }
{
    if bytes.len() < COUNT {
        return None;
    }
    let count = u32_at(bytes, bytes.len() - COUNT);
    let tail = COUNT + ENTRY * count as usize;
    if bytes.len() < tail {
        return None;
    }
    let body = bytes.len() - tail;
    let (_, table) = bytes.split_at(body);
    if is_table(table, count, body) {
        Some(count)
    } else {
        None
    }
}

/// Whether the fields of this many entries ascend, their ends never fall, and the last is the total.
fn is_table(table: &[u8], count: u32, total: usize) -> bool
    requires { 12 * count ≤ length table.now }
    ensures { result ≡ are_entries 0 0 total (entries_of count table.now) }
{
    let mut low = 0u64;
    let mut start = 0u64;
    for i in 0..count as usize {
        let field = u32_at(table, ENTRY * i);
        let end = u64_at(table, ENTRY * i + 4);
        if (field as u64) < low {
            return false;
        }
        if end < start {
            return false;
        }
        low = field as u64 + 1;
        start = end;
    }
    start == total as u64
}

/// Where the part at a place begins and ends.
fn entry_range(table: &[u8], count: u32, total: usize, place: u32) -> (usize, usize)
    requires room { 12 * count ≤ length table.now }
    requires place { place < count }
    requires good { are_entries 0 0 total (entries_of count table.now) ≡ true }
    ensures { IsEntry count table.now place total result.0 result.1 }
{
    let place = place as usize;
    let end = u64_at(table, ENTRY * place + 4);
    if place == 0 {
        (0, end as usize)
    } else {
        let start = u64_at(table, ENTRY * (place - 1) + 4);
        (start as usize, end as usize)
    }
}

/// Where the part of a field begins and ends.
fn find_entry(table: &[u8], count: u32, total: usize, field: u32) -> Option<(usize, usize)>
    requires room { 12 * count ≤ length table.now }
    requires good { are_entries 0 0 total (entries_of count table.now) ≡ true }
    ensures found { (body : List ℕ)
        → field_of (parts_from 0 (entries_of count table.now) body) field
        ≡ option_map (λ r. slice_range body r.0 r.1) result }
    ensures within { IfSome result (λ r. (r.0 ≤ r.1) × (r.1 ≤ total)) }
{
    let place = first_not_below(table, count, field);
    if place == count {
        return None;
    }
    if u32_at(table, ENTRY * place as usize) != field {
        return None;
    }
    Some(entry_range(table, count, total, place))
}

/// The first of this many entries whose field isn't below a field, or their number.
fn first_not_below(table: &[u8], count: u32, field: u32) -> u32
    requires { 12 * count ≤ length table.now }
    ensures within { result ≤ count }
    ensures before { (i : ℕ) → i + 1 ≡ result → numbers.u32_at table.now (12 * i) < field }
    ensures past { result < count → field ≤ numbers.u32_at table.now (12 * result) }
{
    let mut low = 0;
    let mut high = count;
    while low < high {
        let middle = low + (high - low) / 2;
        if u32_at(table, ENTRY * middle as usize) < field {
            low = middle + 1;
        } else {
            high = middle;
        }
    }
    low
}

//! Whether bytes are a table of columns.
ghost use Rattle.std.specs.Prelude.{◌≡◌, ◌≤◌, ◌<◌, true, false, length, MatchBool};
ghost use Rattle.seg_column_file.specs.ColumnTable as spec;

use crate::entry::{checked_entry, may_follow};
use crate::format::COUNT;

/// Whether this many entries fill the table, in order.
pub(crate) fn are_entries(table: &[u8], count: u64) -> bool
    requires { 8 ≤ length table.now }
    ensures { MatchBool result (spec.AreEntries table.now count) (spec.AreEntries table.now count → ⊥) }
{
    let mut at = COUNT;
    let mut before = COUNT;
    for i in 0..count {
        let Some(next) = checked_entry(table, at) else {
            return false;
        };
        if !is_in_order(table, i, before, at) {
            return false;
        }
        before = at;
        at = next;
    }
    if at != table.len() {
        return false;
    }
    true
}

/// Whether an entry is the first, or may stand after the one before it.
fn is_in_order(table: &[u8], i: u64, before: usize, at: usize) -> bool
    requires first { 0 < i → spec.next_place table.now before ≤ length table.now }
    requires second { spec.next_place table.now at ≤ length table.now }
    ensures { MatchBool result (0 < i → spec.may_follow table.now before at ≡ true)
        ((0 < i) × (spec.may_follow table.now before at ≡ false)) }
{
    if i == 0 {
        return true;
    }
    may_follow(table, before, at)
}

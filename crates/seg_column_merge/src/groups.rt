//! Rows of a table that have one key.
ghost use Rattle.std.specs.Prelude.{◌≡◌, ◌<◌, length};
ghost use Rattle.seg_column_merge.specs.Groups.{IsGroup, has_key};

use seg_column_merge_parts::TableRow;

/// Where the rows end that have the key of the one at a place.
pub(crate) fn group_end(table: &[TableRow<'_>], start: usize) -> usize
    requires { start < length table.now }
    ensures { IsGroup table.now start result }
{
    let first = &table[start];
    let mut end = start + 1;
    while end < table.len() {
        if !is_like(&table[end], first) {
            return end;
        }
        end += 1;
    }
    end
}

/// Whether a row has the key of another one.
fn is_like(row: &TableRow<'_>, other: &TableRow<'_>) -> bool
    ensures { result ≡ has_key row.now other.now }
{
    row.key() == other.key()
}

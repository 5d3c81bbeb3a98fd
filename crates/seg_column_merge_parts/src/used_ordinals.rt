//! Marks of the ordinals that the rows that are kept have.
ghost use Rattle.std.specs.Prelude.{◌≡◌, ◌<◌, ◌||◌, ℕ, true, false, [], All, get_or, if◌then◌else◌, length, nat_eq, replicate, IfOk};
ghost use Rattle.std.specs.List.{list_all, list_any};
ghost use Rattle.seg_columns.specs.TermColumns.{UsesEach};
ghost use Rattle.seg_column_file.specs.KeptRows.{kept_values};
ghost use Rattle.seg_column_merge_parts.specs.UsedOrdinals.{AreUsed};

use seg_columns::{Column, ColumnValues};
use std::alloc::{AllocError, Global};

/// A mark for each ordinal below a count. Where all rows are kept, so are all ordinals, and none is looked at.
pub(crate) fn used_ordinals(
    alloc: Global,
    ords: &Column<u64>,
    count: usize,
    kept: &[bool],
) -> Result<Vec<bool>, AllocError>
    requires uses { UsesEach count ords.now }
    requires rows { length kept.now ≡ length ords.now }
    ensures { IfOk result (λ used. AreUsed count (kept_values kept.now ords.now) used.items) }
{
    if are_all_kept(kept) {
        return all_used(alloc, count);
    }
    let mut used = vec![in alloc; false; count]?;
    for row in 0..ords.num_docs() {
        mark_row(&mut used, kept[row as usize], ords.values_for_doc(row));
    }
    Ok(used)
}

fn are_all_kept(kept: &[bool]) -> bool
    ensures { result ≡ list_all (λ mark. mark) kept.now }
{
    kept.iter().all(|mark| *mark)
}

fn all_used(alloc: Global, count: usize) -> Result<Vec<bool>, AllocError>
    ensures { IfOk result (λ used. used.items ≡ replicate count true) }
{
    let used = vec![in alloc; true; count]?;
    Ok(used)
}

/// Marks the ordinals of a row, if it is kept.
fn mark_row(used: &mut Vec<bool>, is_kept: bool, ords: ColumnValues<'_, u64>)
    requires { All (λ ord. ord < length used.old.items) ords }
    ensures length { length used.new.items ≡ length used.old.items }
    ensures marks { (ord : ℕ) → ord < length used.old.items → get_or used.new.items ord false
        ≡ (get_or used.old.items ord false || list_any (nat_eq ord) (if is_kept then ords.entry else [])) }
{
    if !is_kept {
        return;
    }
    for ord in ords {
        used[ord as usize] = true;
    }
}

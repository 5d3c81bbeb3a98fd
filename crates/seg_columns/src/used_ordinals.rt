//! Whether the ordinals of a column are the places of a dictionary, each of them used.
ghost use Rattle.std.specs.Prelude.{◌≡◌, ◌<◌, ◌||◌, ℕ, true, false, All, get_or, length, nat_eq, IfOk, IsTrue, MatchBool};
ghost use Rattle.std.specs.List.{list_any, list_all};
ghost use Rattle.seg_columns.specs.TermColumns.{UsesEach};

use crate::column::Column;
use crate::column_values::ColumnValues;
use std::alloc::{AllocError, Global};

/// Whether all ordinals are below the count, and each below it is there. It takes a byte for each ordinal, and gives
/// them back.
pub(crate) fn uses_each(alloc: Global, ords: &Column<u64>, count: usize) -> Result<bool, AllocError>
    ensures { IfOk result (λ uses. MatchBool uses (UsesEach count ords.now) (UsesEach count ords.now → ⊥)) }
{
    let mut used = vec![in alloc; false; count]?;
    for doc in 0..ords.num_docs() {
        if !mark(&mut used, ords.values_for_doc(doc)) {
            return Ok(false);
        }
    }
    Ok(are_true(used.as_slice()))
}

/// Marks the ordinals of a document, where all have a place.
fn mark(used: &mut Vec<bool>, ords: ColumnValues<'_, u64>) -> bool
    ensures length { length used.new.items ≡ length used.old.items }
    ensures below { MatchBool result (All (λ ord. ord < length used.old.items) ords.entry)
        (All (λ ord. ord < length used.old.items) ords.entry → ⊥) }
    ensures marks { IsTrue result → (ord : ℕ) → ord < length used.old.items
        → get_or used.new.items ord false ≡ (get_or used.old.items ord false || list_any (nat_eq ord) ords.entry) }
{
    for ord in ords {
        if ord >= used.len() as u64 {
            return false;
        }
        used[ord as usize] = true;
    }
    true
}

fn are_true(marks: &[bool]) -> bool
    ensures { result ≡ list_all (λ mark. mark) marks.now }
{
    marks.iter().all(|mark| *mark)
}

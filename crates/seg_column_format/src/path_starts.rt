//! What the paths of all columns below fast JSON fields begin with.
ghost use Rattle.std.specs.Prelude.{◌≡◌, ◌≤◌, ◌++◌, ◌∷◌, [], cond, length, IfOk, OnOk};
ghost use Rattle.std.specs.List.{list_any};
ghost use Rattle.std.specs.List.Sorted.{IsPermutation};
ghost use Rattle.seg_column_format.specs.PathStarts as spec;
ghost use Rattle.seg_column_format.specs.SchemaColumns.{is_fast_json as is_fast_json_entry};

use crate::json_fields::is_fast_json;
use crate::path_start::PathStart;
use seg_values::FieldEntry;
use std::alloc::{AllocError, Global};

/// Those of all fast JSON fields, in byte order. One that begins with another one is left out, since whatever begins
/// with it begins with that other one too: so a path begins with one at most, the last one that isn't after it.
pub(crate) fn path_starts(
    alloc: Global,
    schema: &[FieldEntry],
) -> Result<Vec<PathStart>, AllocError>
    ensures { IfOk result (λ starts. spec.AreStarts schema.now starts.items) }
{
    let mut starts = all_starts(alloc, schema)?;
    sort(&mut starts);
    outermost(alloc, starts)
}

fn all_starts(alloc: Global, schema: &[FieldEntry]) -> Result<Vec<PathStart>, AllocError>
    ensures { IfOk result (λ starts. spec.TellBelow schema.now starts.items) }
{
    let mut starts = Vec::new(alloc);
    for entry in schema {
        add_field(alloc, &mut starts, entry)?;
    }
    Ok(starts)
}

fn add_field(
    alloc: Global,
    starts: &mut Vec<PathStart>,
    entry: &FieldEntry,
) -> Result<(), AllocError>
    ensures { OnOk result (starts.new.items
        ≡ starts.old.items ++ cond (is_fast_json_entry entry.now) (spec.start_of entry.now ∷ []) []) }
{
    if !is_fast_json(entry) {
        return Ok(());
    }
    starts.push(PathStart::below(alloc, entry.name.as_str())?)?;
    Ok(())
}

fn sort(starts: &mut Vec<PathStart>)
    ensures permutation { IsPermutation starts.old.items starts.new.items }
    ensures ascend { spec.Ascend starts.new.items }
{
    starts.sort_unstable_by(|one, other| one.compare(other));
}

/// Those that don't begin with another one.
fn outermost(alloc: Global, sorted: Vec<PathStart>) -> Result<Vec<PathStart>, AllocError>
    requires { spec.Ascend sorted.items }
    ensures { IfOk result (λ starts. spec.AreApart starts.items × spec.TellSame starts.items sorted.items) }
{
    let mut starts = Vec::new(alloc);
    for start in sorted {
        add_start(&mut starts, start)?;
    }
    Ok(starts)
}

fn add_start(starts: &mut Vec<PathStart>, start: PathStart) -> Result<(), AllocError>
    ensures { OnOk result (starts.new.items
        ≡ starts.old.items ++ cond (spec.begins_as_last starts.old.items start) [] (start ∷ [])) }
{
    if begins_as_last(starts, start.as_slice()) {
        return Ok(());
    }
    starts.push(start)?;
    Ok(())
}

fn begins_as_last(starts: &[PathStart], start: &[u8]) -> bool
    ensures { result ≡ spec.begins_as_last starts.now start.now }
{
    if starts.is_empty() {
        return false;
    }
    starts[starts.len() - 1].begins(start)
}

/// Whether a path begins with one of them. It takes the logarithm of their number in comparisons.
pub(crate) fn is_below_some(starts: &[PathStart], path: &[u8]) -> bool
    requires { spec.AreApart starts.now }
    ensures { result ≡ list_any (spec.begins path.now) starts.now }
{
    let up_to = count_up_to(starts, path);
    if up_to == 0 {
        return false;
    }
    starts[up_to - 1].begins(path)
}

/// How many are not after a path in byte order.
fn count_up_to(starts: &[PathStart], path: &[u8]) -> usize
    requires { spec.AreApart starts.now }
    ensures bound { result ≤ length starts.now }
    ensures ends { spec.EndsAt path.now starts.now result }
{
    starts.partition_point(|start| start.is_up_to(path))
}

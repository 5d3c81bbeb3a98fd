//! The leaves of a value, each with the number of its path.
ghost use Rattle.std.specs.Prelude.{◌≡◌, None, Some, Bool, List, ℕ, ◌++◌, map, IfOk, OnOk};
ghost use Rattle.seg_model.specs.DocumentCheck.{tree_refusal};
ghost use Rattle.seg_model.specs.Leaves.{PlacedLeaf, leaves, leaves_at, joined_path};
ghost use Rattle.seg_paths.specs.NumberedLeaves.{numbered, in_table, IsPathOf};
ghost use Rattle.seg_paths.specs.Paths.{Extends, IsAbove, number_of};
ghost use Rattle.seg_values.specs.ValueTrees.{tree_of};

use crate::path_table::PathTable;
use seg_values::OwnedValue;
use std::alloc::{AllocError, Global};

/// A leaf, and the number of its path.
#[derive(Drop)]
pub struct NumberedLeaf<'a> {
    pub path: u32,
    pub leaf: &'a OwnedValue,
}

/// The leaves of a value that a JSON field takes, from left to right, whose paths come into the table. It costs the
/// bytes of the value.
pub fn leaves_of<'a>(
    alloc: Global,
    table: &mut PathTable,
    expand_dots: bool,
    value: &'a OwnedValue,
) -> Result<Vec<NumberedLeaf<'a>>, AllocError>
    requires { tree_refusal (tree_of value.now) ≡ None }
    ensures extends { Extends table.old table.new }
    ensures leaves { IfOk result (λ found. map numbered found.items
        ≡ map (in_table table.new expand_dots) (leaves (tree_of value.now))) }
{
    let mut found = Vec::new(alloc);
    push_leaves(&mut found, alloc, table, expand_dots, None, value)?;
    Ok(found)
}

/// Adds the leaves of a value that is below the path with a number, or at the root.
fn push_leaves<'a>(
    out: &mut Vec<NumberedLeaf<'a>>,
    alloc: Global,
    table: &mut PathTable,
    expand_dots: bool,
    above: Option<u32>,
    value: &'a OwnedValue,
) -> Result<(), AllocError>
    requires above { IsAbove table.old above }
    requires taken { tree_refusal (tree_of value.now) ≡ None }
    ensures extends { Extends table.old table.new }
    ensures leaves { (keys : List (List ℕ)) → (level : ℕ) → (found : List PlacedLeaf)
        → IsPathOf table.old expand_dots above keys
        → map numbered out.old.items ≡ map (in_table table.old expand_dots) found
        → OnOk result (map numbered out.new.items
        ≡ map (in_table table.new expand_dots) (found ++ leaves_at keys level (tree_of value.now))) }
{
    match value {
        OwnedValue::Array(values) => {
            for at in 0..values.len() {
                push_leaves(out, alloc, table, expand_dots, above, values.get(at))?;
            }
            Ok(())
        }
        OwnedValue::Object(members) => {
            for index in 0..members.len() {
                let (key, child) = members.get(index);
                let path = table.add_key(alloc, above, expand_dots, key)?;
                push_leaves(out, alloc, table, expand_dots, Some(path), child)?;
            }
            Ok(())
        }
        _ => {
            let path = leaf_path(alloc, table, above)?;
            out.push(NumberedLeaf { path, leaf: value })?;
            Ok(())
        }
    }
}

/// The number of the path of a leaf: that of the keys above it, or of none at the root.
fn leaf_path(alloc: Global, table: &mut PathTable, above: Option<u32>) -> Result<u32, AllocError>
    ensures extends { Extends table.old table.new }
    ensures number { (expand_dots : Bool) → (keys : List (List ℕ)) → IsPathOf table.old expand_dots above keys
        → IfOk result (λ number. number_of table.new (joined_path expand_dots keys) ≡ Some number) }
{
    match above {
        Some(number) => Ok(number),
        None => table.add_root(alloc),
    }
}

//! The joined paths of a JSON field.
ghost use Rattle.std.specs.Prelude.{◌≡◌, List, ℕ, [], ◌∷◌, ◌++◌, None, Some, map, IfOk, OnOk};
ghost use Rattle.seg_values.specs.Tree.{Leaf};
ghost use Rattle.seg_values.specs.ValueTrees.{tree_of};
ghost use Rattle.seg_tokens.specs.declared.token.Token.{Token};
ghost use Rattle.seg_model.specs.DocumentCheck.{tree_refusal};
ghost use Rattle.seg_model.specs.Leaves.{leaves};
ghost use Rattle.seg_model.specs.Occurrences.{leaf_text};
ghost use Rattle.seg_paths.specs.Paths.{number_of};
ghost use Rattle.seg_check.specs.Paths.{AreLeaves, PathsStand, at_path};
ghost use Rattle.seg_check.specs.TextSizes.{size_of};

use crate::size::TextSize;
use crate::totals::Totals;
use seg_paths::{NumberedLeaf, PathTable, leaves_of, set_value, value_of};
use seg_values::OwnedValue;
use std::alloc::{AllocError, Global};

/// The leaves that came at each joined path, by its number, and whether these are within the limits at every one. At a
/// path whose number is past the totals none came.
#[derive(Drop)]
pub(crate) struct PathTotals {
    pub table: PathTable,
    pub totals: Vec<Totals>,
    pub are_within: bool,
}

impl PathTotals {
    /// Before any leaf.
    pub fn new(alloc: Global) -> PathTotals
        ensures { (analyze : List ℕ → List Token) → PathsStand analyze result [] }
    {
        PathTotals {
            table: PathTable::new(alloc),
            totals: Vec::new(alloc),
            are_within: true,
        }
    }

    /// The leaves of a value that passed the check of leaves and keys, whose joined paths get numbers.
    pub fn leaves_of<'a>(
        &mut self,
        alloc: Global,
        expand_dots: bool,
        value: &'a OwnedValue,
    ) -> Result<Vec<NumberedLeaf<'a>>, AllocError>
        requires { tree_refusal (tree_of value.now) ≡ None }
        ensures leaves { IfOk result (λ found. AreLeaves self.new.table
            (map (at_path expand_dots) (leaves (tree_of value.now))) found.items) }
        ensures stands { (analyze : List ℕ → List Token) → (found : List (List ℕ × Leaf))
            → PathsStand analyze self.old found → PathsStand analyze self.new found }
    {
        leaves_of(alloc, &mut self.table, expand_dots, value)
    }

    /// One more leaf at the joined path with a number, whose text has this size.
    pub fn add(&mut self, number: u32, size: TextSize) -> Result<(), AllocError>
        ensures table { OnOk result (self.new.table ≡ self.old.table) }
        ensures stands { (analyze : List ℕ → List Token) → (found : List (List ℕ × Leaf)) → (path : List ℕ)
            → (l : Leaf) → number_of self.old.table path ≡ Some number → size ≡ size_of (map analyze (leaf_text l))
            → PathsStand analyze self.old found → OnOk result (PathsStand analyze self.new (found ++ (path, l) ∷ [])) }
    {
        let totals = value_of(&self.totals, number, Totals::none()).with(size);
        set_value(&mut self.totals, number, Totals::none(), totals)?;
        self.are_within &= totals.fits();
        Ok(())
    }
}

//! The pairs of a document, lent.
ghost use Rattle.std.specs.Prelude.{◌≡◌, ◌<◌, [], ◌∷◌, ◌++◌, length, slice_get, Some, IfOk, OnOk, OnErr};
ghost use Rattle.seg_values.specs.ValueTrees.{tree_of};

use crate::schema::Field;
use crate::value::OwnedValue;
use std::alloc::{AllocError, Global};
use std::marker::Model;

/// The fields of a document with their values, in its order: what readers of any document go by.
#[derive(Drop)]
pub struct Pairs<'a> {
    pairs: Vec<(Field, &'a OwnedValue)>,
}

impl<'a> Model for Pairs<'a> {
    ghost use Rattle.std.specs.Prelude.{List, ℕ, map};
    ghost use Rattle.std.specs.Coded.{coded_list, coded×, coded_ℕ};
    ghost use Rattle.seg_values.specs.Tree.{Tree};
    ghost use Rattle.seg_values.specs.ValueCodes.{tree_code};

    ghost Value = { List (ℕ × Tree) };

    ghost coded = { coded_list (coded× coded_ℕ tree_code) };

    ghost use Rattle.seg_values.specs.LentPairs.{lent_pair};

    ghost view = { λ a. map lent_pair a.pairs.items };
}

impl<'a> Pairs<'a> {
    /// No pairs, with room for as many.
    pub fn with_capacity(alloc: Global, capacity: usize) -> Result<Pairs<'a>, AllocError>
        ensures { IfOk result (λ pairs. pairs ≡ []) }
    {
        let pairs = Vec::with_capacity(alloc, capacity)?;
        Ok(Pairs { pairs })
    }

    pub fn len(&self) -> usize
        ensures { result ≡ length self.now }
    {
        self.pairs.len()
    }

    pub fn pair(&self, at: usize) -> (Field, &OwnedValue)
        requires { at < length self.now }
        ensures { slice_get self.now at ≡ Some (result.0, tree_of result.1.now) }
    {
        let (field, value) = self.pairs[at];
        (field, value)
    }

    /// Adds a pair at the end.
    pub fn push(&mut self, field: Field, value: &'a OwnedValue) -> Result<(), AllocError>
        ensures ok { OnOk result (self.new ≡ self.old ++ (field, tree_of value.now) ∷ []) }
        ensures err { OnErr result (self.new ≡ self.old) }
    {
        match self.pairs.push((field, value)) {
            Ok(()) => Ok(()),
            Err(_) => Err(AllocError),
        }
    }
}

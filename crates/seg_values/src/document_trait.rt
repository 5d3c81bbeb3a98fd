//! What a document is for those that read it.
ghost use Rattle.std.specs.Prelude.{◌≡◌, ℕ, ◌<◌, List, length, slice_get, Some, IfOk};
ghost use Rattle.seg_values.specs.Tree.{Tree};
ghost use Rattle.seg_values.specs.ValueTrees.{tree_of};

use crate::pairs::Pairs;
use crate::schema::Field;
use crate::value::OwnedValue;
use std::alloc::{AllocError, Global};

/// Fields with values, in an order.
pub trait Document {
    ghost pairs_of: { Self → List (ℕ × Tree) };

    fn len(&self) -> usize
        ensures { result ≡ length (pairs_of self.now) };

    /// The pair at a place. A map is walked to it: `pairs` tells all of them in one walk.
    fn pair(&self, at: usize) -> (Field, &OwnedValue)
        requires { at < length (pairs_of self.now) }
        ensures { slice_get (pairs_of self.now) at ≡ Some (result.0, tree_of result.1.now) };

    /// The pairs, in order.
    fn pairs(&self, alloc: Global) -> Result<Pairs<'_>, AllocError>
        ensures { IfOk result (λ pairs. pairs ≡ pairs_of self.now) }
    {
        let mut pairs = Pairs::with_capacity(alloc, self.len())?;
        for at in 0..self.len() {
            let (field, value) = self.pair(at);
            pairs.push(field, value)?;
        }
        Ok(pairs)
    }
}

//! Values that are read from pieces. tantivy's `ValueDeserialize`, without visitors.
ghost use Rattle.std.specs.Prelude.{◌≡◌, ◌++◌, ◌⊎◌, List, IfOk, IfErr};
ghost use Rattle.seg_values.specs.Tree.{Tree};
ghost use Rattle.seg_access.specs.Pieces.{Mark, spelling, SpellsNone};

use crate::pieces::Pieces;
use seg_values::ValueError;
use std::alloc::Global;

/// A value that pieces spell. Nothing is told of the place among the pieces after an error.
pub trait ValueDeserialize: Sized {
    ghost seen: { List Mark → List Mark };

    ghost tree: { Self → Tree };

    /// Reads one value, and stops after it.
    fn from_pieces(alloc: Global, pieces: &mut Pieces) -> Result<Self, ValueError>
        ensures ok { IfOk result (λ v. seen pieces.old ≡ spelling (tree v) ++ seen pieces.new) }
        ensures err { IfErr result (λ e. (e ≡ ValueError.OutOfMemory)
            ⊎ ((e ≡ ValueError.Malformed) × SpellsNone (seen pieces.old))) };
}

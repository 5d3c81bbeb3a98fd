//! How the values of a column are printed.
ghost use Rattle.std.specs.Prelude.{◌≡◌, ◌++◌, OnOk};
ghost use Rattle.seg_text.specs.ColumnText.{printed_value};
ghost use Rattle.seg_model.specs.Columns as model;

use seg_columns::ColumnValue;
use std::alloc::{AllocError, Global};

/// Prints what the values of a column stand for.
pub(crate) trait Printer<T: ColumnValue> {
    /// What a value stands for.
    ghost meant: { Self → T → model.ColumnValue };

    fn push(&self, out: &mut Vec<u8>, alloc: Global, value: T) -> Result<(), AllocError>
        ensures { OnOk result (out.new.items ≡ out.old.items ++ printed_value (meant self.now value)) };
}

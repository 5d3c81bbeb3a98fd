//! The line of a field, which its terms follow.
ghost use Rattle.std.specs.Prelude.{◌≡◌, ◌++◌, OnOk};
ghost use Rattle.seg_text.specs.FieldText.{field_line};

use crate::decimal::push_decimal;
use crate::quoted_text::push_quoted;
use std::alloc::{AllocError, Global};

/// The line of a field with this many terms.
/// After an error it is open what `out` holds.
pub fn push_field(
    out: &mut Vec<u8>,
    alloc: Global,
    name: &str,
    terms: usize,
) -> Result<(), AllocError>
    ensures { OnOk result (out.new.items ≡ out.old.items ++ field_line name.now terms) }
{
    out.extend_from_slice(b"field ")?;
    push_quoted(out, alloc, name)?;
    out.extend_from_slice(b" terms ")?;
    push_decimal(out, terms as u64)?;
    out.push(b'\n')?;
    Ok(())
}

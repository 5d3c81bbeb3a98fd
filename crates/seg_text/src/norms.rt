//! The lines of length ids.
ghost use Rattle.std.specs.Prelude.{◌≡◌, ◌++◌, OnOk};
ghost use Rattle.std.specs.List.{flat_map};
ghost use Rattle.seg_text.specs.HeaderText.{id_word};
ghost use Rattle.seg_text.specs.NormsText.{norms_line};

use crate::decimal::push_decimal;
use crate::quoted_text::push_quoted;
use std::alloc::{AllocError, Global};

/// The line of the length ids that a field has, one for each document.
/// After an error it is open what `out` holds.
pub fn push_norms(
    out: &mut Vec<u8>,
    alloc: Global,
    name: &str,
    ids: &[u8],
) -> Result<(), AllocError>
    ensures { OnOk result (out.new.items ≡ out.old.items ++ norms_line name.now ids.now) }
{
    out.extend_from_slice(b"norms ")?;
    push_quoted(out, alloc, name)?;
    push_ids(out, ids)?;
    out.push(b'\n')?;
    Ok(())
}

/// Each id after a space.
fn push_ids(out: &mut Vec<u8>, ids: &[u8]) -> Result<(), AllocError>
    ensures { OnOk result (out.new.items ≡ out.old.items ++ flat_map id_word ids.now) }
{
    for id in ids {
        out.push(b' ')?;
        push_decimal(out, u64::from(*id))?;
    }
    Ok(())
}

//! The dictionary of a column whose terms were merged.
ghost use Rattle.std.specs.Prelude.{◌≡◌, ◌<◌, ◌^◌, ◌++◌, length, map, OnOk};
ghost use Rattle.std.specs.List.{flat_map};
ghost use Rattle.seg_column_format.specs.ColumnBytes.{dictionary_bytes, ends_from, number_bytes, total};

use seg_common::put_u64;
use std::alloc::AllocError;

/// Adds the dictionary of terms in their order.
pub fn put_terms_dictionary(out: &mut Vec<u8>, terms: &[&[u8]]) -> Result<(), AllocError>
    ensures ok { OnOk result (out.new.items ≡ out.old.items ++ dictionary_bytes (map (λ t. t.now) terms.now)) }
    ensures count { OnOk result (length terms.now < 2 ^ 64) }
    ensures few { OnOk result (total (map (λ t. t.now) terms.now) < 2 ^ 64) }
{
    put_u64(out, terms.len() as u64)?;
    put_ends(out, terms)?;
    put_texts(out, terms)?;
    Ok(())
}

/// Adds where each term ends.
fn put_ends(out: &mut Vec<u8>, terms: &[&[u8]]) -> Result<(), AllocError>
    ensures ok { OnOk result (out.new.items
        ≡ out.old.items ++ number_bytes (ends_from 0 (map (λ t. t.now) terms.now))) }
    ensures few { OnOk result (total (map (λ t. t.now) terms.now) < 2 ^ 64) }
{
    let mut end: u64 = 0;
    for term in terms {
        let Some(next) = end.checked_add(term.len() as u64) else {
            return Err(AllocError);
        };
        put_u64(out, next)?;
        end = next;
    }
    Ok(())
}

fn put_texts(out: &mut Vec<u8>, terms: &[&[u8]]) -> Result<(), AllocError>
    ensures { OnOk result (out.new.items ≡ out.old.items ++ flat_map (λ term. term) (map (λ t. t.now) terms.now)) }
{
    for term in terms {
        out.extend_from_slice(*term)?;
    }
    Ok(())
}

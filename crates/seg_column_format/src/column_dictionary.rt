//! The dictionary of a column of texts or bytes.
ghost use Rattle.std.specs.Prelude.{◌≡◌, ◌<◌, ◌^◌, ◌++◌, length, OnOk};
ghost use Rattle.std.specs.List.{flat_map};
ghost use Rattle.seg_column_format.specs.ColumnBytes.{dictionary_bytes, ends_from, number_bytes, total};
ghost use Rattle.seg_column_format.specs.NumberedTerms.{terms_at};

use crate::room::sum;
use crate::term_key::TermKey;
use crate::term_order::bytes_at;
use crate::term_table::TermTable;
use seg_common::put_u64;
use std::alloc::AllocError;

/// Adds the dictionary of the terms with these numbers, in this order. Its memory is taken once, before the first byte.
/// A number without a term is as that of the empty one.
pub fn put_dictionary(
    out: &mut Vec<u8>,
    table: &TermTable,
    numbers: &[usize],
) -> Result<(), AllocError>
    ensures ok { OnOk result (out.new.items ≡ out.old.items ++ dictionary_bytes (terms_at table.now numbers.now)) }
    ensures count { OnOk result (length numbers.now < 2 ^ 64) }
    ensures few { OnOk result (total (terms_at table.now numbers.now) < 2 ^ 64) }
{
    let terms = table.as_slice();
    out.reserve(dictionary_room(terms, numbers)?)?;
    put_u64(out, numbers.len() as u64)?;
    put_ends(out, terms, numbers)?;
    put_texts(out, terms, numbers)?;
    Ok(())
}

/// How many bytes a dictionary has.
fn dictionary_room(terms: &[TermKey], numbers: &[usize]) -> Result<usize, AllocError> {
    let mut room: usize = 8;
    for number in numbers {
        let entry = sum(bytes_at(terms, *number).len(), 8)?;
        room = sum(room, entry)?;
    }
    Ok(room)
}

/// Adds where each term ends.
fn put_ends(out: &mut Vec<u8>, terms: &[TermKey], numbers: &[usize]) -> Result<(), AllocError>
    ensures ok { OnOk result (out.new.items
        ≡ out.old.items ++ number_bytes (ends_from 0 (terms_at terms.now numbers.now))) }
    ensures few { OnOk result (total (terms_at terms.now numbers.now) < 2 ^ 64) }
{
    let mut end: u64 = 0;
    for number in numbers {
        let Some(next) = end.checked_add(bytes_at(terms, *number).len() as u64) else {
            return Err(AllocError);
        };
        put_u64(out, next)?;
        end = next;
    }
    Ok(())
}

fn put_texts(out: &mut Vec<u8>, terms: &[TermKey], numbers: &[usize]) -> Result<(), AllocError>
    ensures { OnOk result (out.new.items
        ≡ out.old.items ++ flat_map (λ term. term) (terms_at terms.now numbers.now)) }
{
    for number in numbers {
        out.extend_from_slice(bytes_at(terms, *number))?;
    }
    Ok(())
}

//! Stored values with no values below them, as JSON: each call prints what is at the front of bytes, or gives up.
//!
//! Where it gives up, some of the bytes may be gone, and some of the text printed.
ghost use Rattle.std.specs.Prelude.{IfOk, decimal};
ghost use Rattle.std.specs.Fmt.{signed_decimal};
ghost use Rattle.std.specs.Int.{w64, cast_signed};
ghost use Rattle.base64.specs.Engines.{standard};
ghost use Rattle.base64.specs.GeneralPurpose.{encode_of};
ghost use Rattle.json.specs.Print.{quoted};
ghost use Rattle.serde_json.specs.Data as json;
ghost use Rattle.serde_json.specs.Written.{compact_text};
ghost use Rattle.seg_common.specs.DateText.{date_text};
ghost use Rattle.seg_doc_bytes.specs.FrontReaders as read;
ghost use Rattle.seg_doc_bytes.specs.StoredTree as trees;
ghost use Rattle.seg_values.specs.AddressText.{address_text};
ghost use Rattle.seg_values.specs.Facets.{path_of};
ghost use Rattle.seg_values.specs.ValueJson.{leaf_json};
ghost use Rattle.seg_text.specs.PrintedFronts.{Prints};

use crate::decimal::{push_decimal, push_signed};
use crate::leaf::{push_address, push_base64, push_bool, push_date, push_facet};
use crate::quoted_text::push_quoted;
use crate::stored_tokens::push_stored_pre_tokenized;
use seg_common::DateTime;
use seg_doc_bytes::{take_address, take_bit, take_number, take_sized, take_text};
use seg_values::Facet;
use std::alloc::{AllocError, Global};

/// What has this tag and no trees below it.
pub(crate) fn push_stored_leaf(
    out: &mut Vec<u8>,
    alloc: Global,
    bytes: &mut &[u8],
    tag: u8,
) -> Result<Option<()>, AllocError>
    ensures { IfOk result (Prints (trees.leaf_at tag)
        (λ l. compact_text (leaf_json l)) bytes.old.now bytes.new.now out.old.items out.new.items) }
{
    match tag {
        0 => {
            out.extend_from_slice(b"null")?;
            Ok(Some(()))
        }
        1 => push_stored_text(out, alloc, bytes),
        2 => push_stored_pre_tokenized(out, alloc, bytes),
        3 => push_stored_unsigned(out, bytes),
        4 => push_stored_signed(out, bytes),
        6 => push_stored_bool(out, bytes),
        7 => push_stored_date(out, bytes),
        8 => push_stored_facet(out, alloc, bytes),
        9 => push_stored_bytes(out, alloc, bytes),
        12 => push_stored_address(out, alloc, bytes),
        _ => Ok(None),
    }
}

fn push_stored_text(
    out: &mut Vec<u8>,
    alloc: Global,
    bytes: &mut &[u8],
) -> Result<Option<()>, AllocError>
    ensures { IfOk result (Prints read.text_at quoted bytes.old.now bytes.new.now out.old.items out.new.items) }
{
    let Some(text) = take_text(bytes) else {
        return Ok(None);
    };
    push_quoted(out, alloc, text)?;
    Ok(Some(()))
}

fn push_stored_unsigned(out: &mut Vec<u8>, bytes: &mut &[u8]) -> Result<Option<()>, AllocError>
    ensures { IfOk result (Prints read.number_at decimal bytes.old.now bytes.new.now out.old.items out.new.items) }
{
    let Some(number) = take_number(bytes) else {
        return Ok(None);
    };
    push_decimal(out, number)?;
    Ok(Some(()))
}

fn push_stored_signed(out: &mut Vec<u8>, bytes: &mut &[u8]) -> Result<Option<()>, AllocError>
    ensures { IfOk result (Prints read.number_at
        (λ n. signed_decimal (cast_signed w64 n)) bytes.old.now bytes.new.now out.old.items out.new.items) }
{
    let Some(number) = take_number(bytes) else {
        return Ok(None);
    };
    push_signed(out, number.cast_signed())?;
    Ok(Some(()))
}

fn push_stored_bool(out: &mut Vec<u8>, bytes: &mut &[u8]) -> Result<Option<()>, AllocError>
    ensures { IfOk result (Prints trees.bit_at
        (λ b. compact_text (json.boolean b)) bytes.old.now bytes.new.now out.old.items out.new.items) }
{
    let Some(bit) = take_bit(bytes) else {
        return Ok(None);
    };
    push_bool(out, bit)?;
    Ok(Some(()))
}

/// A moment, of which the nanoseconds since 1970 are stored.
fn push_stored_date(out: &mut Vec<u8>, bytes: &mut &[u8]) -> Result<Option<()>, AllocError>
    ensures { IfOk result (Prints read.number_at
        (λ n. quoted (date_text (cast_signed w64 n))) bytes.old.now bytes.new.now out.old.items out.new.items) }
{
    let Some(number) = take_number(bytes) else {
        return Ok(None);
    };
    push_date(out, DateTime::from_timestamp_nanos(number.cast_signed()))?;
    Ok(Some(()))
}

fn push_stored_facet(
    out: &mut Vec<u8>,
    alloc: Global,
    bytes: &mut &[u8],
) -> Result<Option<()>, AllocError>
    ensures { IfOk result
        (Prints read.text_at (λ t. quoted (path_of t)) bytes.old.now bytes.new.now out.old.items out.new.items) }
{
    let Some(text) = take_text(bytes) else {
        return Ok(None);
    };
    let encoded = String::from_str(alloc, text)?;
    push_facet(out, alloc, &Facet::from_encoded_string(encoded))?;
    Ok(Some(()))
}

fn push_stored_bytes(
    out: &mut Vec<u8>,
    alloc: Global,
    bytes: &mut &[u8],
) -> Result<Option<()>, AllocError>
    ensures { IfOk result (Prints read.sized_at
        (λ b. quoted (encode_of standard b)) bytes.old.now bytes.new.now out.old.items out.new.items) }
{
    let Some(stored) = take_sized(bytes) else {
        return Ok(None);
    };
    push_base64(out, alloc, stored)?;
    Ok(Some(()))
}

fn push_stored_address(
    out: &mut Vec<u8>,
    alloc: Global,
    bytes: &mut &[u8],
) -> Result<Option<()>, AllocError>
    ensures { IfOk result (Prints (read.front 16)
        (λ o. quoted (address_text o)) bytes.old.now bytes.new.now out.old.items out.new.items) }
{
    let Some(address) = take_address(bytes) else {
        return Ok(None);
    };
    push_address(out, alloc, address)?;
    Ok(Some(()))
}

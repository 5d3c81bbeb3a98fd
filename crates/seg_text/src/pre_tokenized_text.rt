//! Texts that come with their tokens, as JSON.
ghost use Rattle.std.specs.Prelude.{◌≡◌, ◌++◌, OnOk};
ghost use Rattle.serde_json.specs.Data.{array};
ghost use Rattle.serde_json.specs.Written.{compact_text};
ghost use Rattle.seg_values.specs.Tree.{pre_tokenized};
ghost use Rattle.seg_values.specs.ValueJson.{leaf_json, token_json, tokens_items};

use crate::decimal::push_decimal;
use crate::quoted_text::push_quoted;
use seg_tokens::{PreTokenizedString, Token};
use std::alloc::{AllocError, Global};

pub(crate) fn push_pre_tokenized(
    out: &mut Vec<u8>,
    alloc: Global,
    text: &PreTokenizedString,
) -> Result<(), AllocError>
    ensures { OnOk result (out.new.items ≡ out.old.items ++ compact_text (leaf_json (pre_tokenized text.now))) }
{
    out.extend_from_slice(b"{\"text\":")?;
    push_quoted(out, alloc, text.text.as_str())?;
    out.extend_from_slice(b",\"tokens\":")?;
    push_tokens(out, alloc, text.tokens.as_slice())?;
    out.push(b'}')?;
    Ok(())
}

fn push_tokens(out: &mut Vec<u8>, alloc: Global, tokens: &[Token]) -> Result<(), AllocError>
    ensures { OnOk result (out.new.items ≡ out.old.items ++ compact_text (array (tokens_items tokens.now))) }
{
    out.push(b'[')?;
    let mut later = false;
    for token in tokens {
        if later {
            out.push(b',')?;
        }
        push_token(out, alloc, token)?;
        later = true;
    }
    out.push(b']')?;
    Ok(())
}

fn push_token(out: &mut Vec<u8>, alloc: Global, token: &Token) -> Result<(), AllocError>
    ensures { OnOk result (out.new.items ≡ out.old.items ++ compact_text (token_json token.now)) }
{
    let (from, to) = (token.offset_from as u64, token.offset_to as u64);
    let text = token.text.as_str();
    push_token_parts(
        out,
        alloc,
        from,
        to,
        token.position,
        token.position_length,
        text,
    )
}

/// A token, by its parts.
pub(crate) fn push_token_parts(
    out: &mut Vec<u8>,
    alloc: Global,
    offset_from: u64,
    offset_to: u64,
    position: u32,
    position_length: u32,
    text: &str,
) -> Result<(), AllocError>
    ensures { OnOk result (out.new.items
        ≡ out.old.items
        ++ compact_text (token_json (record {
          offset_from = offset_from;
          offset_to = offset_to;
          position = position;
          position_length = position_length;
          text = text.now;
        }))) }
{
    out.extend_from_slice(b"{\"offset_from\":")?;
    push_decimal(out, offset_from)?;
    out.extend_from_slice(b",\"offset_to\":")?;
    push_decimal(out, offset_to)?;
    out.extend_from_slice(b",\"position\":")?;
    push_decimal(out, u64::from(position))?;
    out.extend_from_slice(b",\"position_length\":")?;
    push_decimal(out, u64::from(position_length))?;
    out.extend_from_slice(b",\"text\":")?;
    push_quoted(out, alloc, text)?;
    out.push(b'}')?;
    Ok(())
}

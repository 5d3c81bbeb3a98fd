//! Texts that come with their tokens.
ghost use Rattle.std.specs.Prelude.{◌≡◌, IfOk, option_map};
ghost use Rattle.serde_json.specs.View.{view, members_view};
ghost use Rattle.seg_meta.specs.JsonReaders.{list_of};
ghost use Rattle.seg_script_values.specs.TokenizedTexts.{token_from, text_and_tokens, tokenized_from};

use crate::members::{small_at, take_member};
use crate::parts::{text_of, two_members};
use seg_meta::{has_only, number_at};
use seg_tokens::{PreTokenizedString, Text, Token, Tokens};
use serde_json::{Map, Value};
use std::alloc::{AllocError, Global};

/// The text with its tokens that an object is, as `to_json` of a value prints it. Texts are moved.
pub fn tokenized_from(alloc: Global, json: Value) -> Result<Option<PreTokenizedString>, AllocError>
    ensures { IfOk result (λ text. text ≡ tokenized_from (view json)) }
{
    let Value::Object(members) = json else {
        return Ok(None);
    };
    let Some((text, tokens)) = text_and_tokens(members) else {
        return Ok(None);
    };
    let Some(text) = text_of(text) else {
        return Ok(None);
    };
    let Some(tokens) = tokens_from(alloc, tokens)? else {
        return Ok(None);
    };
    Ok(Some(PreTokenizedString {
        text: Text::from_string(text),
        tokens,
    }))
}

/// The values of the members `text` and `tokens`, where an object has just these. An object has its members in the
/// order of their names.
fn text_and_tokens(members: Map<String, Value>) -> Option<(Value, Value)>
    ensures { option_map (λ p. (view p.0, view p.1)) result ≡ text_and_tokens (members_view members.entries) }
{
    let (first, text, second, tokens) = two_members(members)?;
    if first.as_str() == "text" && second.as_str() == "tokens" {
        Some((text, tokens))
    } else {
        None
    }
}

/// The tokens that a list is.
fn tokens_from(alloc: Global, json: Value) -> Result<Option<Tokens>, AllocError>
    ensures { IfOk result (λ tokens. tokens ≡ list_of token_from (view json)) }
{
    let Value::Array(items) = json else {
        return Ok(None);
    };
    let mut tokens = Tokens::new(alloc);
    for item in items {
        let Some(token) = token_from(item) else {
            return Ok(None);
        };
        tokens.push(token)?;
    }
    Ok(Some(tokens))
}

/// The token that an object is.
fn token_from(json: Value) -> Option<Token>
    ensures { result ≡ token_from (view json) }
{
    if !has_only(
        &json,
        &[
            "offset_from",
            "offset_to",
            "position",
            "position_length",
            "text",
        ],
    ) {
        return None;
    }
    let offset_from = number_at(&json, "offset_from")?;
    let offset_to = number_at(&json, "offset_to")?;
    let position = small_at(&json, "position")?;
    let position_length = small_at(&json, "position_length")?;
    let text = text_of(take_member(json, "text")?)?;
    Some(Token {
        offset_from: offset_from as usize,
        offset_to: offset_to as usize,
        position,
        position_length,
        text: Text::from_string(text),
    })
}

//! An owned leaf, made from a leaf that is lent.
ghost use Rattle.std.specs.Prelude.{◌≡◌, IfOk};
ghost use Rattle.seg_access.specs.ReadTrees.{leaf_of};
ghost use Rattle.seg_values.specs.Tree.{leaf};
ghost use Rattle.seg_values.specs.ValueTrees.{tree_of};

use crate::value::ReferenceValueLeaf;
use seg_tokens::{Bytes, PreTokenizedString, Text, Token, Tokens};
use seg_values::{Facet, OwnedValue};
use std::alloc::{AllocError, Global};

pub(crate) fn leaf_to_owned(
    alloc: Global,
    value: ReferenceValueLeaf<'_>,
) -> Result<OwnedValue, AllocError>
    ensures { IfOk result (λ owned. tree_of owned ≡ leaf (leaf_of value.entry)) }
{
    match value {
        ReferenceValueLeaf::Null => Ok(OwnedValue::Null),
        ReferenceValueLeaf::Str(text) => Ok(OwnedValue::Str(Text::copy_of(alloc, text)?)),
        ReferenceValueLeaf::PreTokStr(text) => Ok(OwnedValue::PreTokStr(copy_pre_tokenized(
            alloc, text,
        )?)),
        ReferenceValueLeaf::U64(number) => Ok(OwnedValue::U64(number)),
        ReferenceValueLeaf::I64(number) => Ok(OwnedValue::I64(number)),
        ReferenceValueLeaf::Bool(truth) => Ok(OwnedValue::Bool(truth)),
        ReferenceValueLeaf::Date(date) => Ok(OwnedValue::Date(date)),
        ReferenceValueLeaf::Facet(encoded) => {
            let encoded = String::from_str(alloc, encoded)?;
            Ok(OwnedValue::Facet(Facet::from_encoded_string(encoded)))
        }
        ReferenceValueLeaf::Bytes(bytes) => Ok(OwnedValue::Bytes(copy_bytes(alloc, bytes)?)),
        ReferenceValueLeaf::IpAddr(address) => Ok(OwnedValue::IpAddr(address)),
    }
}

fn copy_bytes(alloc: Global, bytes: &[u8]) -> Result<Bytes, AllocError>
    ensures { IfOk result (λ copy. copy ≡ bytes.now) }
{
    let mut copy = Vec::new(alloc);
    copy.extend_from_slice(bytes)?;
    Ok(Bytes::from_vec(copy))
}

fn copy_pre_tokenized(
    alloc: Global,
    text: &PreTokenizedString,
) -> Result<PreTokenizedString, AllocError>
    ensures { IfOk result (λ copy. copy ≡ text.now) }
{
    let tokens = copy_tokens(alloc, text.tokens.as_slice())?;
    Ok(PreTokenizedString {
        text: Text::copy_of(alloc, text.text.as_str())?,
        tokens,
    })
}

fn copy_tokens(alloc: Global, tokens: &[Token]) -> Result<Tokens, AllocError>
    ensures { IfOk result (λ copy. copy ≡ tokens.now) }
{
    let mut copy = Tokens::new(alloc);
    for token in tokens {
        copy.push(copy_token(alloc, token)?)?;
    }
    Ok(copy)
}

fn copy_token(alloc: Global, token: &Token) -> Result<Token, AllocError>
    ensures { IfOk result (λ copy. copy ≡ token.now) }
{
    Ok(Token {
        offset_from: token.offset_from,
        offset_to: token.offset_to,
        position: token.position,
        position_length: token.position_length,
        text: Text::copy_of(alloc, token.text.as_str())?,
    })
}

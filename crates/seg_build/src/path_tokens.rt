//! Terms at a joined path, by its number.
ghost use Rattle.std.specs.Prelude.{◌≡◌, ◌<◌, ◌^◌, [], ◌∷◌, ◌++◌, length, slice_index_or, OnOk};
ghost use Rattle.seg_model.specs.Occurrences.{placed_from, start_after};
ghost use Rattle.seg_terms.specs.AddedOccurrences.{with_occurrence, with_occurrences};

use seg_terms::{Hit, PathTerms};
use seg_tokens::{MAX_TOKEN_LEN, Token};
use seg_values::TEXT_CODE;
use std::alloc::{AllocError, Global};

/// Adds the tokens of a text at a path, which begins at the first of these places. `room` is for the bytes of a term.
pub(crate) fn add_path_tokens(
    terms: &mut PathTerms,
    alloc: Global,
    path: u32,
    first: Hit,
    tokens: &[Token],
    room: &mut Vec<u8>,
) -> Result<(), AllocError>
    requires path { path < length terms.old.paths }
    requires fits { start_after first.position tokens.now < 2 ^ 32 }
    ensures paths { terms.new.paths ≡ terms.old.paths }
    ensures added { OnOk result (terms.new.terms ≡ with_occurrences terms.old.terms first.document
        (placed_from first.position (slice_index_or terms.old.paths path [] ++ 0 ∷ 115 ∷ []) tokens.now)) }
{
    for token in tokens {
        add_path_token(terms, alloc, path, first, token, room)?;
    }
    Ok(())
}

/// Adds a token of a text, unless it is longer than a term may be.
fn add_path_token(
    terms: &mut PathTerms,
    alloc: Global,
    path: u32,
    first: Hit,
    token: &Token,
    room: &mut Vec<u8>,
) -> Result<(), AllocError>
    requires path { path < length terms.old.paths }
    requires fits { start_after first.position (token.now ∷ []) < 2 ^ 32 }
    ensures paths { terms.new.paths ≡ terms.old.paths }
    ensures added { OnOk result (terms.new.terms ≡ with_occurrences terms.old.terms first.document
        (placed_from first.position (slice_index_or terms.old.paths path [] ++ 0 ∷ 115 ∷ []) (token.now ∷ []))) }
{
    if token.text.len() > MAX_TOKEN_LEN {
        return Ok(());
    }
    let hit = Hit {
        document: first.document,
        position: first.position + token.position,
    };
    add_path_term(
        terms,
        alloc,
        path,
        hit,
        TEXT_CODE,
        token.text.as_bytes(),
        room,
    )?;
    Ok(())
}

/// Adds an occurrence of a term at a path: its type code, and the bytes after it.
pub(crate) fn add_path_term(
    terms: &mut PathTerms,
    alloc: Global,
    path: u32,
    hit: Hit,
    code: u8,
    bytes: &[u8],
    room: &mut Vec<u8>,
) -> Result<(), AllocError>
    requires { path < length terms.old.paths }
    ensures paths { terms.new.paths ≡ terms.old.paths }
    ensures added { OnOk result (terms.new.terms ≡ with_occurrence terms.old.terms hit.document
        (record { bytes = slice_index_or terms.old.paths path [] ++ 0 ∷ code ∷ bytes.now; position = hit.position })) }
{
    room.clear();
    room.push(code)?;
    room.extend_from_slice(bytes)?;
    terms.add(alloc, path, room.as_slice(), hit.document, hit.position)?;
    Ok(())
}

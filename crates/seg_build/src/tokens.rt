//! The tokens of a text.
ghost use Rattle.std.specs.Prelude.{◌≡◌, ◌<◌, ◌^◌, [], OnOk};
ghost use Rattle.seg_terms.specs.AddedOccurrences.{with_occurrences};
ghost use Rattle.seg_model.specs.Occurrences.{placed_from, start_after};

use seg_check::text_width;
use seg_terms::TermIndex;
use seg_tokens::{MAX_TOKEN_LEN, Token};
use std::alloc::{AllocError, Global};

/// Adds the tokens of a text that begins at `start`.
pub(crate) fn add_tokens(
    terms: &mut TermIndex,
    alloc: Global,
    document: u32,
    start: u32,
    tokens: &[Token],
) -> Result<(), AllocError>
    requires { start_after start tokens.now < 2 ^ 32 }
    ensures { OnOk result (terms.new ≡ with_occurrences terms.old document (placed_from start [] tokens.now)) }
{
    for token in tokens {
        if token.text.len() <= MAX_TOKEN_LEN {
            let at = start + token.position;
            terms.add(alloc, token.text.as_bytes(), document, at)?;
        }
    }
    Ok(())
}

/// Where the next text begins, after one that begins at `start`.
pub(crate) fn next_start(start: u32, tokens: &[Token]) -> u32
    requires { start_after start tokens.now < 2 ^ 32 }
    ensures { result ≡ start_after start tokens.now }
{
    start + text_width(tokens) as u32
}

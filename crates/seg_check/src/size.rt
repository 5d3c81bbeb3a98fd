//! How much texts take of what is limited.
ghost use Rattle.std.specs.Prelude.{◌≡◌, ◌∷◌, [], length};
ghost use Rattle.seg_model.specs.DocumentCheck.{is_rising};
ghost use Rattle.seg_model.specs.Occurrences.{counted, reach, start_after};
ghost use Rattle.seg_model.specs.SaturatedNumbers.{saturated};
ghost use Rattle.seg_check.specs.TextSizes.{plus, measured, size_of};

use seg_tokens::{MAX_TOKEN_LEN, Token};

/// How much some texts take of what is limited. Each number stays at its type's end.
#[derive(Clone, Copy)]
pub(crate) struct TextSize {
    /// How far the running start goes.
    pub width: u64,
    /// How many tokens there are.
    pub tokens: u64,
}

impl TextSize {
    /// Of no texts.
    pub fn none() -> TextSize
        ensures { result ≡ size_of [] }
    {
        TextSize {
            width: 0,
            tokens: 0,
        }
    }

    pub fn plus(self, other: TextSize) -> TextSize
        ensures { result ≡ plus self other }
    {
        TextSize {
            width: self.width.saturating_add(other.width),
            tokens: self.tokens.saturating_add(other.tokens),
        }
    }
}

/// The size of a text; none where its positions decrease.
pub(crate) fn text_size(tokens: &[Token]) -> Option<TextSize>
    ensures { result ≡ measured (tokens.now ∷ []) }
{
    if !rises(tokens) {
        return None;
    }
    Some(TextSize {
        width: text_width(tokens),
        tokens: counted_len(tokens) as u64,
    })
}

/// How far a text goes, with the gap to the next one: where that one begins, if this one begins at 0.
pub fn text_width(tokens: &[Token]) -> u64
    ensures { result ≡ saturated (start_after 0 tokens.now) }
{
    reach(tokens).saturating_add(1)
}

/// Whether no position is below the one before it.
fn rises(tokens: &[Token]) -> bool
    ensures { result ≡ is_rising (counted tokens.now) }
{
    let mut last = 0;
    for token in tokens {
        if token.text.len() <= MAX_TOKEN_LEN {
            if token.position < last {
                return false;
            }
            last = token.position;
        }
    }
    true
}

/// The greatest end of a token.
fn reach(tokens: &[Token]) -> u64
    ensures { result ≡ reach 0 (counted tokens.now) }
{
    let mut end = 0;
    for token in tokens {
        if token.text.len() <= MAX_TOKEN_LEN {
            let position: u32 = token.position;
            let position_length: u32 = token.position_length;
            let stop = u64::from(position) + u64::from(position_length);
            end = stop.max(end);
        }
    }
    end
}

/// How many tokens give terms: those that are no longer than a term may be.
pub fn counted_len(tokens: &[Token]) -> usize
    ensures { result ≡ length (counted tokens.now) }
{
    tokens
        .iter()
        .filter(|t| t.text.len() <= MAX_TOKEN_LEN)
        .count()
}

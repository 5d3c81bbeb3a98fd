//! The tokenizers `default`, `raw` and `whitespace`.
ghost use Rattle.std.specs.Prelude.{◌≡◌, ◌+◌, ◌<◌, ◌^◌, ◌++◌, [], ◌∷◌, ℕ, Bool, map, length, true, false, string_bytes, IfOk, OnOk, OnErr};
ghost use Rattle.std.proofs.Common.{sym};
ghost use mathlib.Core.Bool.{true≢false};
ghost use Rattle.std.specs.Char.{to_ascii_lowercase};
ghost use Rattle.seg_tokens.specs.GrowingLists.{Keeps};
ghost use Rattle.seg_tokens.specs.Words.{words, numbered, tokens_cut};
ghost use Rattle.seg_tokens.specs.Tokenizers.{separates_words, is_blank, default_tokens, raw_tokens, whitespace_tokens, separates_words-ascii, is_blank-ascii};

use crate::text::Text;
use crate::token::{Token, Tokens};
use crate::tokenizer::Tokenizer;
use std::alloc::{AllocError, Global};

/// Words of ASCII letters, digits and characters that aren't ASCII, with ASCII letters in lower case.
#[derive(Clone, Copy, Debug)]
pub struct DefaultTokenizer;

/// The whole text as one token, and none where it is empty.
#[derive(Clone, Copy, Debug)]
pub struct RawTokenizer;

/// What is between spaces, tabs and ends of lines.
#[derive(Clone, Copy, Debug)]
pub struct WhitespaceTokenizer;

impl Tokenizer for DefaultTokenizer {
    ghost tokens_of = { λ _ text. default_tokens text };

    fn tokens(&self, alloc: Global, text: &str, out: &mut Tokens) -> Result<(), AllocError> {
        push_words::<DefaultTokenizer>(alloc, text, out)
    }
}

impl Tokenizer for RawTokenizer {
    ghost tokens_of = { λ _ text. raw_tokens text };

    fn tokens(&self, alloc: Global, text: &str, out: &mut Tokens) -> Result<(), AllocError> {
        push_words::<RawTokenizer>(alloc, text, out)
    }
}

impl Tokenizer for WhitespaceTokenizer {
    ghost tokens_of = { λ _ text. whitespace_tokens text };

    fn tokens(&self, alloc: Global, text: &str, out: &mut Tokens) -> Result<(), AllocError> {
        push_words::<WhitespaceTokenizer>(alloc, text, out)
    }
}

/// Where a text is cut into words, and what is kept of them.
trait Cut {
    /// The bytes between words.
    ghost separates: { ℕ → Bool };

    /// What is kept of a byte of a word.
    ghost kept: { ℕ → ℕ };

    fn separates(byte: u8) -> bool
        ensures { result ≡ separates byte };

    fn keep(word: &mut String)
        ensures { string_bytes word.new ≡ map kept (string_bytes word.old) };

    ghost cuts_at_ascii: { (byte : ℕ) → separates byte ≡ true → byte < 128 };
}

impl Cut for DefaultTokenizer {
    ghost separates = { separates_words };

    ghost kept = { to_ascii_lowercase };

    ghost cuts_at_ascii = { separates_words-ascii };

    fn separates(byte: u8) -> bool {
        byte.is_ascii() && !byte.is_ascii_alphanumeric()
    }

    fn keep(word: &mut String) {
        word.make_ascii_lowercase();
    }
}

impl Cut for RawTokenizer {
    ghost separates = { λ _. false };

    ghost kept = { λ byte. byte };

    ghost cuts_at_ascii = { λ _ h. absurd (true≢false (sym h)) };

    fn separates(_byte: u8) -> bool {
        false
    }

    fn keep(_word: &mut String) {}
}

impl Cut for WhitespaceTokenizer {
    ghost separates = { is_blank };

    ghost kept = { λ byte. byte };

    ghost cuts_at_ascii = { is_blank-ascii };

    fn separates(byte: u8) -> bool {
        matches!(byte, b' ' | b'\t' | b'\n' | b'\r')
    }

    fn keep(_word: &mut String) {}
}

/// Appends the tokens of a text.
fn push_words<C: Cut>(alloc: Global, text: &str, out: &mut Tokens) -> Result<(), AllocError>
    ensures ok { OnOk result (out.new ≡ out.old ++ tokens_cut C.separates C.kept text.now) }
    ensures err { OnErr result (Keeps out.old out.new) }
{
    let mut kept = String::new(alloc);
    let mut from = 0;
    let mut count = 0;
    for (at, byte) in text.as_bytes().iter().enumerate() {
        if C::separates(*byte) {
            count = push_word::<C>(alloc, &text[from..at], from, count, &mut kept, out)?;
            from = at + 1;
        }
    }
    let _ = push_word::<C>(alloc, &text[from..], from, count, &mut kept, out)?;
    Ok(())
}

/// Appends the token of a word unless it is empty, and gives the index of the next word. `kept` lends its room to what
/// is kept of a word.
fn push_word<C: Cut>(
    alloc: Global,
    word: &str,
    from: usize,
    index: usize,
    kept: &mut String,
    out: &mut Tokens,
) -> Result<usize, AllocError>
    requires range { from + length word.now < 2 ^ 64 }
    requires few { index + 1 < 2 ^ 64 }
    ensures ok { OnOk result (out.new ≡ out.old ++ numbered C.kept index (words ((from, word.now) ∷ []))) }
    ensures next { IfOk result (λ next. next ≡ index + length (words ((from, word.now) ∷ []))) }
    ensures err { OnErr result (out.new ≡ out.old) }
{
    if word.is_empty() {
        return Ok(index);
    }
    kept.clear();
    kept.push_str(word)?;
    C::keep(kept);
    out.push(Token {
        offset_from: from,
        offset_to: from + word.len(),
        position: u32::try_from(index).unwrap_or(u32::MAX),
        position_length: 1,
        text: Text::copy_of(alloc, kept.as_str())?,
    })?;
    Ok(index + 1)
}

//! Tokens of a text.
ghost use Rattle.std.specs.Prelude.{◌≡◌, List, ℕ, [], ◌∷◌, ◌++◌, OnOk, OnErr, length};

use crate::text::Text;
use std::alloc::{AllocError, Global};
use std::marker::Model;

/// The most bytes of a token that gives a term. A longer one isn't counted, and moves no position.
pub const MAX_TOKEN_LEN: usize = 65_530;

/// A token of a text: its byte range there, its position, how many positions it spans, and its own text.
#[derive(Debug, Drop)]
pub struct Token {
    pub offset_from: usize,
    pub offset_to: usize,
    pub position: u32,
    pub position_length: u32,
    pub text: Text,
}

/// Tokens, in order.
#[derive(Debug, Drop)]
pub struct Tokens {
    tokens: Vec<Token>,
}

impl Model for Tokens {
    ghost use Rattle.std.specs.Prelude.{List};
    ghost use Rattle.seg_tokens.specs.declared.token.Token.{Token};

    ghost Value = { List Token };

    ghost view = { λ a. a.tokens.items };
}

impl Tokens {
    pub fn new(alloc: Global) -> Tokens
        ensures { result ≡ [] }
    {
        Tokens {
            tokens: Vec::new(alloc),
        }
    }

    pub fn len(&self) -> usize
        ensures { result ≡ length self.now }
    {
        self.tokens.len()
    }

    #[inline]
    pub fn as_slice(&self) -> &[Token]
        ensures { result.now ≡ self.now }
    {
        &self.tokens
    }

    #[inline]
    pub fn push(&mut self, token: Token) -> Result<(), AllocError>
        ensures ok { OnOk result (self.new ≡ self.old ++ token ∷ []) }
        ensures err { OnErr result (self.new ≡ self.old) }
    {
        self.tokens.push(token)?;
        Ok(())
    }
}

/// A text that comes with its tokens.
#[derive(Debug, Drop)]
pub struct PreTokenizedString {
    pub text: Text,
    pub tokens: Tokens,
}

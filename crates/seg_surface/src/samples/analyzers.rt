//! An analyzer that knows every name.

use seg_tokens::{Analyzers, DefaultTokenizer, Tokenizer, Tokens};
use std::alloc::{AllocError, Global};

/// An analyzer that has the words of a text under every name.
pub(crate) struct Words;

impl Analyzers for Words {
    ghost use Rattle.std.specs.Prelude.{true};
    ghost use Rattle.seg_tokens.specs.Tokenizers.{default_tokens};

    ghost knows = { λ _ _. true };

    ghost tokens_of = { λ _ _ text. default_tokens text };

    fn known(&self, _name: &str) -> bool {
        true
    }

    fn tokens(
        &self,
        alloc: Global,
        _name: &str,
        text: &str,
        out: &mut Tokens,
    ) -> Result<(), AllocError> {
        DefaultTokenizer.tokens(alloc, text, out)
    }
}

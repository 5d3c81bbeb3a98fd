//! What turns a text into tokens.
ghost use Rattle.std.specs.Prelude.{◌≡◌, ◌++◌, List, ℕ, OnOk, OnErr};
ghost use Rattle.seg_tokens.specs.GrowingLists.{Keeps};
ghost use Rattle.seg_tokens.specs.declared.token.Token.{Token};

use crate::token::Tokens;
use std::alloc::{AllocError, Global};

/// What turns a text into tokens. The tokens are a function of the text.
pub trait Tokenizer: Drop {
    /// The tokens of a text.
    ghost tokens_of: { Self → List ℕ → List Token };

    /// Appends the tokens of a text. After an error some of them may have been appended.
    fn tokens(&self, alloc: Global, text: &str, out: &mut Tokens) -> Result<(), AllocError>
        ensures ok { OnOk result (out.new ≡ out.old ++ tokens_of self.now text.now) }
        ensures err { OnErr result (Keeps out.old out.new) };
}

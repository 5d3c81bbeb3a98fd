//! What turns texts into tokens.
ghost use Rattle.std.specs.Prelude.{◌≡◌, ◌++◌, List, ℕ, Bool, IsTrue, OnOk, OnErr};
ghost use Rattle.seg_tokens.specs.GrowingLists.{Keeps};
ghost use Rattle.seg_tokens.specs.declared.token.Token.{Token};

use crate::token::Tokens;
use std::alloc::{AllocError, Global};

/// Analyzers by name. The tokens of a text are a function of the name and the text.
pub trait Analyzers {
    /// Whether a name is known.
    ghost knows: { Self → List ℕ → Bool };

    /// The tokens of a text by the analyzer with a name.
    ghost tokens_of: { Self → List ℕ → List ℕ → List Token };

    /// Whether there is an analyzer with a name.
    fn known(&self, name: &str) -> bool
        ensures { result ≡ knows self.now name.now };

    /// Appends the tokens of a text. After an error some of them may have been appended.
    fn tokens(
        &self,
        alloc: Global,
        name: &str,
        text: &str,
        out: &mut Tokens,
    ) -> Result<(), AllocError>
        requires { IsTrue (knows self.now name.now) }
        ensures ok { OnOk result (out.new ≡ out.old ++ tokens_of self.now name.now text.now) }
        ensures err { OnErr result (Keeps out.old out.new) };
}

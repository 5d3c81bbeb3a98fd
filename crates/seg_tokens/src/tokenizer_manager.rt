//! Tokenizers by name.
ghost use Rattle.std.specs.Prelude.{◌≡◌, ◌++◌, ◌<◌, List, ℕ, OnOk, OnErr, [], slice_get, length, Some, None, position, IfSome, MatchOption, is_some, false};
ghost use Rattle.std.specs.Option.{option_map_or};
ghost use Rattle.std.specs.Str.{bytes_eq};
ghost use Rattle.seg_tokens.specs.GrowingLists.{Keeps};
ghost use Rattle.seg_tokens.specs.RegisteredTokenizers.{item_named, Registers, KeepsRegistered};

use crate::analyzers::Analyzers;
use crate::text::Text;
use crate::token::Tokens;
use crate::tokenizer::Tokenizer;
use std::alloc::{AllocError, Global};

/// A value with its name.
#[derive(Drop)]
struct Named<T> {
    name: Text,
    value: T,
}

/// Tokenizers by name.
#[derive(Drop)]
pub struct TokenizerManager {
    tokenizers: Vec<Named<Box<dyn Tokenizer>>>,
}

impl TokenizerManager {
    /// A manager that knows no name.
    pub fn new(alloc: Global) -> TokenizerManager
        ensures { (name : List ℕ) → ⟦<TokenizerManager as Analyzers>⟧.knows result name ≡ false }
    {
        TokenizerManager {
            tokenizers: Vec::new(alloc),
        }
    }

    /// Gives a name a tokenizer, in place of the one that it had.
    pub fn register(&mut self, name: &str, tokenizer: Box<dyn Tokenizer>) -> Result<(), AllocError>
        ensures ok { let analyzers = ⟦<TokenizerManager as Analyzers>⟧ in
            OnOk result (Registers (analyzers.knows self.old) (analyzers.knows self.new) (analyzers.tokens_of self.old)
            (analyzers.tokens_of self.new) name.now ((Tokenizer-box tokenizer).tokens_of tokenizer.value)) }
        ensures err { let analyzers = ⟦<TokenizerManager as Analyzers>⟧ in
            OnErr result (KeepsRegistered (analyzers.knows self.old) (analyzers.knows self.new)
            (analyzers.tokens_of self.old) (analyzers.tokens_of self.new)) }
    {
        match place_of(&self.tokenizers, name) {
            Some(place) => self.tokenizers[place].value = tokenizer,
            None => {
                let name = Text::copy_of(*self.tokenizers.allocator(), name)?;
                self.tokenizers.push(Named {
                    name,
                    value: tokenizer,
                })?;
            }
        }
        Ok(())
    }
}

/// The first place of a name.
fn place_of<T>(values: &[Named<T>], name: &str) -> Option<usize>
    ensures place { result ≡ position (λ v. bytes_eq v.name name.now) values.now }
    ensures within { IfSome result (λ place. place < length values.now) }
    ensures found { MatchOption result (item_named (λ v. v.name) values.now name.now ≡ None)
        (λ place. item_named (λ v. v.name) values.now name.now ≡ slice_get values.now place) }
{
    values.iter().position(|v| v.name.as_str() == name)
}

impl Analyzers for TokenizerManager {
    ghost knows = { λ m name. is_some (item_named (λ t. t.name) m.tokenizers.items name) };

    ghost tokens_of = { λ m name text. option_map_or (λ t. (Tokenizer-box t.value).tokens_of t.value.value text)
        (item_named (λ t. t.name) m.tokenizers.items name) [] };

    fn known(&self, name: &str) -> bool {
        place_of(&self.tokenizers, name).is_some()
    }

    fn tokens(
        &self,
        alloc: Global,
        name: &str,
        text: &str,
        out: &mut Tokens,
    ) -> Result<(), AllocError> {
        let place = place_of(&self.tokenizers, name).unwrap();
        push_tokens(&self.tokenizers[place], alloc, text, out)
    }
}

/// Appends the tokens of a text by one tokenizer.
fn push_tokens(
    named: &Named<Box<dyn Tokenizer>>,
    alloc: Global,
    text: &str,
    out: &mut Tokens,
) -> Result<(), AllocError>
    ensures ok { OnOk result
        (out.new ≡ out.old ++ (Tokenizer-box named.now.value).tokens_of named.now.value.value text.now) }
    ensures err { OnErr result (Keeps out.old out.new) }
{
    named.value.tokens(alloc, text, out)
}

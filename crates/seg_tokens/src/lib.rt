//! Texts and bytes, and how a text is cut into tokens, by tokenizers that are registered under names.
//!
//! Its model: texts and bytes are lists of numbers, and the tokens of a text are a list that the tokenizer and the text
//! determine (`default_tokens`, `raw_tokens` and `whitespace_tokens`; by `tokens_are_words` the words of the text, one
//! after another).
//!
//! ```rust
//! let mut analyzers = TokenizerManager::new(alloc);
//! analyzers.register("default", Box::new(alloc, DefaultTokenizer)?)?;
//! let mut tokens = Tokens::new(alloc);
//! if analyzers.known("default") {
//!     analyzers.tokens(alloc, "default", "Red mug", &mut tokens)?;
//! }
//! ```
//!
//! `tokens` then has `red` at position 0 and `mug` at position 1.
#![tactic(auto)]

// Texts, and tokens.
mod text;
mod token;

// What cuts a text into tokens.
mod tokenizer;
mod tokenizers;

// Tokenizers by name.
mod analyzers;
mod tokenizer_manager;

// What holds of all.
mod equality;
mod laws;
mod utf8;

pub use analyzers::Analyzers;
pub use laws::tokens_are_words;
pub use text::{Bytes, Text};
pub use token::{MAX_TOKEN_LEN, PreTokenizedString, Token, Tokens};
pub use tokenizer::Tokenizer;
pub use tokenizer_manager::TokenizerManager;
pub use tokenizers::{DefaultTokenizer, RawTokenizer, WhitespaceTokenizer};

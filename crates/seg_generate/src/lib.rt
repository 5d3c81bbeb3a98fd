//! A generated input: 250 groups of eight documents and a delete, in five batches, by a seed that says which documents
//! are deleted; and the lines of a summary, which is printed of what is made of it.
//!
//! Its model: `generated` gives the input of a seed, which is valid over analyzers that take its texts (`TakesTexts`),
//! as the default tokenizer does, and `summary_line` the line of a segment.
//!
//! ```rust
//! let input = generated_input(alloc, 7)?;
//! let mut out = Vec::new(alloc);
//! push_generated(&mut out)?;
//! let totals = TermTotals { terms: 590, bytes: 4550 };
//! push_summary(&mut out, "work", SegmentId::from_u128(1), 400, 350, totals)?;
//! let seed = seed_named("7");
//! ```
//!
//! `out` has `generated 2250 operations 2000 documents`, and in a second line
//! `work 00000000000000000000000000000001 docs 400 alive 350 terms 590 bytes 4550`. `seed` is `Some(7)`; that of `07`
//! is `None`.
#![tactic(auto)]

// The input.
mod documents;
mod input;
mod operations;

// The number that a word names.
mod seed;

// The lines of a summary.
mod summary;

// Generated inputs are valid.
mod laws;

pub use input::generated_input;
pub use laws::{default_takes_texts, generated_inputs_are_valid};
pub use seed::seed_named;
pub use summary::{TermTotals, push_generated, push_summary};

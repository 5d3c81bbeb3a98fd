//! The term dictionary of a field: its terms in the order of their bytes, each with what is known of it: in how many
//! documents it occurs, and where its postings and its positions are. A dictionary is written term by term, its bytes
//! are checked whole when it is opened, and its terms are looked up, streamed by ranges, or merged with those of
//! others.
//!
//! Its model: a dictionary is one list of terms, each a key with its info, whose keys strictly ascend (`SortedTerms`),
//! and a builder the terms that it was given, with the key that waits for its info; a streamer is its terms, or what
//! `streamed` has of a range, with how many it has come to, and a merger what is left of `merged_terms`; a builder and
//! a merger are nothing, once out of memory.
//!
//! ```rust
//! let mut builder = TermDictionaryBuilder::create(alloc)?;
//! builder.insert(b"blue", &blue)?;
//! builder.insert(b"mug", &mug)?;
//! let file = builder.finish()?;
//! let dictionary = TermDictionary::open(bytes)?; // the bytes of `file`, shared
//! let mut terms = dictionary.range(alloc).ge(b"c")?.into_stream();
//! while terms.advance() {
//!     let (key, info) = (terms.key(), terms.value());
//! }
//! ```
//!
//! The loop comes to `mug` alone, and `dictionary.get(b"blue")` answers `blue`, the `TermInfo` that was inserted.
#![tactic(auto)]

// Why a call fails, and the numbers of the format.
mod dictionary_type;
mod error;
mod format;

// What is written.
mod builder;
mod written_terms;

// What is read: the tables in the bytes, their check, and the dictionary.
mod check;
mod dictionary;
mod infos;
mod keys;
mod tables;

// The terms of a dictionary, or of a range of them.
mod kept_key;
mod streamer;
mod streamer_builder;

// The terms of several dictionaries, merged.
mod fronts;
mod head;
mod merger;

// What holds of all.
mod laws;

pub use builder::TermDictionaryBuilder;
pub use dictionary::TermDictionary;
pub use dictionary_type::DictionaryType;
pub use error::TermDictError;
pub use format::TermOrdinal;
pub use laws::{merged_terms_are_known_by_their_answers, ranges_of_sorted_terms};
pub use merger::TermMerger;
pub use streamer::TermStreamer;
pub use streamer_builder::TermStreamerBuilder;

//! Values as a script has them: JSON values as values of documents, each by a kind, texts that come with their tokens,
//! and the terms that deletes name; and the texts of addresses, bytes and facets.
//!
//! Its model: a JSON value is that of `serde_json`, and each call answers what a definition says of it, or nothing:
//! `tree_from` a tree, by a kind, `tokenized_from` a text with tokens, `plain_term` and `json_term` the bytes of a
//! term.
//!
//! ```rust
//! let value = tree_from(alloc, FieldKind::Date, json)?;
//! let term = plain_term_from(alloc, title, FieldKind::Text, word)?;
//! let address = address_from("127.0.0.1");
//! let bytes = bytes_from(alloc, "bXVn")?;
//! let facet = facet_from(alloc, "/kitchen/mugs")?;
//! ```
//!
//! `value` is a date where the text in `json` tells one, and else a text; `bytes` has `mug`, and `facet` the two steps
//! of the path. `None` says that a value or a text is read as nothing of the kind.
#![tactic(auto)]

// Looks into a JSON value.
mod members;
mod parts;

// Texts that are read as addresses, bytes and facets.
mod addresses;
mod byte_texts;
mod facet_texts;
mod laws;

// Values of documents.
mod leaves;
mod tokenized_texts;
mod trees;

// The terms that deletes name.
mod deletes;

pub use addresses::address_from;
pub use byte_texts::bytes_from;
pub use deletes::{json_term_from, plain_term_from};
pub use facet_texts::facet_from;
pub use laws::{addresses_are_texts, paths_are_facets};
pub use members::{flag_or, small_at, small_or, take_member};
pub use parts::{only_member, text_of};
pub use tokenized_texts::tokenized_from;
pub use trees::tree_from;

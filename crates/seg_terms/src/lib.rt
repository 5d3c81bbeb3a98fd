//! The terms of a field while documents come, and then in byte order. Each term has a number, in the order in which
//! terms came, and all occurrences are one list, each with the number of its term; at the end they are ordered by these
//! numbers, and the terms by their bytes. A term of a JSON field begins with a path: it is kept by the number of the
//! path, and ordered by the path's rank.
//!
//! Its model: a field is a finite map from the bytes of a term to its postings (`with_occurrences` adds to it), and
//! then the list of its entries in byte order (`TermEntries`).
//!
//! ```rust
//! let mut terms = TermIndex::new(alloc);
//! terms.add(alloc, b"red", 0, 0)?;
//! terms.add(alloc, b"mug", 0, 1)?;
//! terms.add(alloc, b"red", 1, 0)?;
//! let ordered = order_terms(alloc, terms)?;
//! let (bytes, hits) = (ordered.bytes_at(1), ordered.hits_at(1));
//! let documents = posting_count(hits);
//! ```
//!
//! `bytes` is `red`, the second of two terms, which occurs at position 0 of the documents 0 and 1: `documents` is 2.
#![tactic(auto)]

// Occurrences, and those of one term, which are its postings.
mod hit;
mod runs;

// The terms so far, by their bytes.
mod known_terms;
mod term_index;

// The terms in byte order, each with its part of all occurrences.
mod ordered_hits;
mod ordered_terms;
mod parts;
mod term_part;

// Terms on the paths of a JSON field.
mod ordered_path_terms;
mod path_key;
mod path_terms;

pub use hit::Hit;
pub use ordered_path_terms::{OrderedPathTerms, order_path_terms};
pub use ordered_terms::{OrderedTerms, order_terms};
pub use path_terms::PathTerms;
pub use runs::{first_run, posting_count};
pub use term_index::TermIndex;

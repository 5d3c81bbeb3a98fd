//! Postings of the fields of a segment, as they are written and as they are read: in which documents each term of a
//! field occurs, how often, and where.
//!
//! Its model: a field is the total of its tokens and its terms in byte order, each with its postings, which say of
//! ascending documents that the term occurs, how often, or at which positions (`OpenField`); the postings of a term are
//! those that are left, the current one first, and the number of all (`OpenPostings`); a serializer is nothing, once
//! out of memory.
//!
//! ```rust
//! let mut files = InvertedIndexSerializer::new(alloc);
//! let mut field = files.new_field(title, 2)?;
//! field.new_term(b"mug", RecordKind::Positions)?;
//! field.write_doc_at(0, 2, &[1, 3])?;
//! field.close_term()?;
//! field.close(&mut files)?;
//! let PostingsFiles { terms, postings, positions } = files.close()?;
//! let field = FieldTerms::open(alloc, terms_part, &entry, max_doc)?;
//! let field = field.with_postings(postings_part)?.with_positions(positions_part)?;
//! ```
//!
//! The three files have a part for each field, by which it is opened. `field.terms().get(b"mug")` then answers what is
//! known of the term, and `field.read_postings_from_terminfo` its postings, which `doc`, `term_freq` and `advance` read
//! one after another.
#![tactic(auto)]

// What postings keep of a document, and its bytes.
mod occurrence;
mod record_kind;

// What is written: a term, a field, and the three files.
mod field_parts;
mod field_serializer;
mod inverted_index_serializer;
mod open_term;

// The check of what is read.
mod asked_kind;
mod documents;
mod postings_check;

// The terms of a field, whose form its kind asks for.
mod last_term;
mod range;
mod term_form;
mod terms_check;

// What is read: a field part by part, and the postings of a term.
mod field_postings;
mod field_terms;
mod inverted_index_reader;
mod segment_postings;

// How much space the terms of a JSON field take.
mod field_space;
mod json_spaces;

// What holds of all.
mod laws;

pub use asked_kind::AskedKind;
pub use documents::TERMINATED;
pub use field_postings::FieldPostings;
pub use field_serializer::FieldSerializer;
pub use field_space::InvertedIndexFieldSpace;
pub use field_terms::FieldTerms;
pub use inverted_index_reader::InvertedIndexReader;
pub use inverted_index_serializer::{InvertedIndexSerializer, PostingsFiles};
pub use laws::terms_read_have_shape;
pub use record_kind::RecordKind;
pub use segment_postings::SegmentPostings;

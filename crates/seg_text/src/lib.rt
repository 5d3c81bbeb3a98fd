//! The printed text of a segment, by pieces that a caller puts together: first lines, fields with terms and postings,
//! stored documents, columns, and length ids. Each call appends its piece.
//!
//! Its model: `segment_text` gives the bytes that stand for what a segment holds under a schema, `columns_text` those
//! of its columns, and `norms_text` those of its length ids.
//!
//! ```rust
//! let mut out = Vec::new(alloc);
//! push_header(&mut out, "work", SegmentId::from_u128(1), 2, 1)?;
//! push_field(&mut out, alloc, "title", 4)?;
//! push_term(&mut out, b"mug")?;
//! push_posting(&mut out, 0, RecordedRef::Positions(&[1]))?;
//! out.push(b'\n')?;
//! push_columns(&mut out, alloc, reader.columns())?;
//! ```
//!
//! `out` begins with the lines `work 00000000000000000000000000000001 docs 2 alive 1` and `field "title" terms 4`; then
//! come `mug 0x1@1`, for the term at position 1 of document 0, and a line for each column.
#![tactic(auto)]

// What lines are made of.
mod comma;
mod decimal;
mod hexadecimal;
mod quoted_text;

// The first lines, and those of fields, terms and postings.
mod field;
mod header;
mod posting;
mod term;

// Values as JSON.
mod leaf;
mod pair;
mod pre_tokenized_text;
mod value;

// The same from the bytes of a store, and the line of a document.
mod document;
mod stored_leaf;
mod stored_pairs;
mod stored_tokens;
mod stored_tree;

// The lines of columns.
mod column_line;
mod column_printer;
mod column_rows;
mod column_terms;
mod columns;
mod plain_values;

// The lines of length ids.
mod norms;

pub use columns::push_columns;
pub use decimal::{push_decimal, push_signed};
pub use document::push_document;
pub use field::push_field;
pub use header::{push_dead, push_header};
pub use leaf::{push_address, push_base64, push_bool, push_date};
pub use norms::push_norms;
pub use posting::{RecordedRef, push_posting};
pub use quoted_text::push_quoted;
pub use term::push_term;

//! Stored documents: the bytes that a document is written to, and what is read from them. Code that scans the bytes
//! itself takes them apart piece by piece, and passes trees over, without memory.
//!
//! Its model: `stored_form` gives the bytes of a document's stored pairs, and `stored_document_of` the fields with
//! trees that bytes read as, if anything; the first reads back (`stored_documents_are_read`).
//!
//! ```rust
//! let mut stored = Vec::new(alloc);
//! put_document(&mut stored, &document.pairs(alloc)?, &schema)?;
//! let again = document_of(alloc, &stored)?;
//! let mut left = stored.as_slice();
//! let count = take_varint(&mut left);
//! let field = take_field(&mut left);
//! let passed = pass_tree(&mut left, MOST_LEVELS);
//! ```
//!
//! `again` has the document with those of its pairs whose fields are stored. `count` is how many these are, `field` that
//! of the first, and `left` what comes after its tree.
#![tactic(auto)]

// What is written.
mod document_law;
mod document_writer;
mod tree_writer;

// What is at the front of bytes.
mod pieces;

// What is passed over.
mod tree_check;

// What is read.
mod document_reader;
mod leaf_reader;
mod tree_reader;

pub use document_law::stored_documents_are_read;
pub use document_reader::document_of;
pub use document_writer::put_document;
pub use pieces::{
    take_address, take_bit, take_byte, take_field, take_front, take_number, take_sized, take_small,
    take_text, take_varint,
};
pub use tree_check::pass_tree;

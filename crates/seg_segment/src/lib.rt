//! The six files of a segment: terms, postings, positions, stored documents, fast fields and field norms. Their bytes
//! are made here whether documents are indexed or segments are merged, and are written to a directory under an id.
//!
//! Its model: the bytes of six files spell contents (`Spell`), and at most one (`files_spell_one_contents`); a
//! directory holds contents under an id where it has six files that spell them (`Holds`), and a serializer is what each
//! component is to have (`Serializing`).
//!
//! ```rust
//! let postings = write_fields(alloc, &schema, &terms)?;
//! let norms = write_lengths(alloc, &schema, &lengths)?;
//! let serializer = SegmentSerializer::from_parts(alloc, segment, postings, store, fast, norms);
//! serializer.close(&mut directory)?;
//! ```
//!
//! `terms` and `lengths` are what has the terms and the lengths of each field (`TermsByField`, `LengthsByField`),
//! `store` is a `StoreWriter`, and `fast` the bytes of the columns.
#![tactic(auto)]

// The terms and the lengths of the fields, written field by field.
mod lengths_by_field;
mod term_writer;
mod terms_by_field;

// The six files, and the serializer that makes them.
mod component_files;
mod segment_files;
mod segment_serializer;

// What holds of all.
mod laws;

pub use laws::{files_hold_one_contents, files_spell_one_contents, held_files_spell};
pub use lengths_by_field::{LengthsByField, write_lengths};
pub use segment_files::{MAX_DOCUMENTS, SegmentFiles};
pub use segment_serializer::SegmentSerializer;
pub use term_writer::TermWriter;
pub use terms_by_field::{TermsByField, write_fields};

//! Field norms: the length of each field in each document, kept in one byte, exactly up to 40 and then to an eighth.
//! They are recorded while documents come, written to one file, and looked up in its bytes.
//!
//! Its model: a file is the list of the ids of each field that has lengths, one id for each document (`HoldNorms`), an
//! id stands for a length by `length_of_id` of `seg_model`, and a writer is the ids so far, or nothing once out of
//! memory.
//!
//! ```rust
//! let mut lengths = FieldNormsWriter::for_schema(alloc, &schema)?;
//! lengths.record(0, title, 45)?;
//! let mut file = FieldNormsSerializer::new(alloc);
//! if let Some(ids) = lengths.ids(title) {
//!     file.serialize_field(title, ids)?;
//! }
//! let file = file.close()?;
//! let readers = FieldNormReaders::open(bytes)?; // the bytes of `file`, shared
//! let length = readers.get_field(title).map(|ids| ids.fieldnorm(0));
//! ```
//!
//! `length` is `Some(44)`, the greatest length that has an id and is at most 45.
#![tactic(auto)]

// Lengths in one byte.
mod field_norm_id;
mod length_ids;

// What is written.
mod field_norms_serializer;
mod field_norms_writer;

// What is read.
mod field_norm_reader;
mod field_norm_readers;

pub use field_norm_reader::FieldNormReader;
pub use field_norm_readers::FieldNormReaders;
pub use field_norms_serializer::FieldNormsSerializer;
pub use field_norms_writer::FieldNormsWriter;

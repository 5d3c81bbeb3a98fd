//! Indexes documents in memory, one by one, and writes them as the six files of a segment, or as an index of that one
//! segment, whose meta is saved at the end. Each document is checked first; then its terms, its lengths, the values of
//! its fast fields and what is stored of it are added.
//!
//! Its model: a writer keeps no documents, so `Writes` says that what it has is what a list of documents makes, with
//! their stamps, and the files that it makes stand for these documents (`StandFor`).
//!
//! ```rust
//! let mut writer = SegmentWriter::for_segment(alloc, 15_000, segment, &settings, &analyzers)?;
//! writer.add_ref(0, &document)?;
//! let stamps = writer.finalize(&mut directory)?;
//! let empty = Index::create(alloc, schema, settings, &mut other)?;
//! let mut writer = SingleSegmentIndexWriter::new(alloc, empty, 15_000, id, &analyzers)?;
//! writer.add_document(document)?;
//! let index = writer.finalize(&mut other)?;
//! ```
//!
//! `stamps` has the stamp of each document, here 0, and `index` lists its one segment.
#![tactic(auto)]

// The terms of a field so far, by its kind.
mod gathered_terms;
mod json_terms;
mod path_start;

// What one more value adds to them.
mod coded_leaf;
mod field;
mod json_leaves;
mod path_tokens;
mod tokens;
mod value_terms;

// The terms of a field in byte order.
mod ordered_field;
mod sorted_terms;

// All fields, with the lengths of documents, and how much memory they take.
mod fields;
mod lengths;
mod usage;

// What the files of a segment are to hold.
mod laws;
mod norms_file;
mod serializer_contents;
mod terms_files;
mod written_terms;

// The writer of a segment.
mod add_operation;
mod added_values;
mod finished_segment;
mod memory_segment;
mod segment_writer;
mod writer_parts;

// The writer of an index of one segment.
mod index_meta;
mod single_segment_index_writer;

pub use add_operation::{AddOperation, Opstamp};
pub use fields::{IndexedBatch, IndexedFields};
pub use laws::taken_terms_can_be_written;
pub use memory_segment::MemorySegment;
pub use seg_terms::{Hit, first_run};
pub use segment_writer::SegmentWriter;
pub use single_segment_index_writer::SingleSegmentIndexWriter;
pub use sorted_terms::SortedTerms;

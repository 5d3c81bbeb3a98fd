//! The merge of segments: the documents of each that are alive, one segment after another, as the files of one segment.
//! Stored documents are copied as they are, the terms of a field are merged key by key, with one term of each segment
//! in memory, and columns path by path.
//!
//! Its model: a merger is its schema and what its readers have (`Merging`), and what it writes are files that hold the
//! `join` of the readers' contents, each with the documents that are alive (`WritesJoined`).
//!
//! ```rust
//! let mut merger = IndexMerger::open(alloc, schema.share(), &segments, &mut work)?;
//! let target = Segment::new(schema, SegmentMeta::new(id, merger.max_doc(), None));
//! let serializer = SegmentSerializer::for_segment(alloc, target, &settings)?;
//! let documents = merger.write(serializer, &mut output)?;
//! let mapping = merger.get_doc_id_from_concatenated_data(alloc)?;
//! ```
//!
//! `documents` is how many documents of all segments are alive, and `mapping.addresses()` says of each from which
//! segment it comes, and which document it is there.
#![tactic(auto)]

// How many documents there are, and where they come from.
mod doc_id_mapping;
mod joined_count;

// Stored documents, and lengths.
mod joined_norms;
mod joined_store;

// Terms, by the ids that documents get.
mod joined_terms;
mod live_tokens;
mod new_ids;
mod numbered_part;
mod term_merge;
mod term_source;

// Columns.
mod joined_columns;

// The whole, and the merger.
mod filters;
mod index_merger;
mod joined_segment;

pub use doc_id_mapping::{MappingType, SegmentDocIdMapping};
pub use filters::filters_fit;
pub use index_merger::IndexMerger;

//! What is known of the fields of segments: which there are, of JSON fields which paths, whether they are stored, and
//! how many bytes each takes in columns, dictionary, postings and positions. One segment says it, and what several say
//! is merged.
//!
//! Its model: metadata is a list of entries, each a name and a type with what is known of it (`Known`); `SegmentSays`
//! is what an open segment lists, and `merged` has each name and type once, with what all lists say of it (`together`).
//!
//! ```rust
//! let said = fields_metadata(alloc, &reader)?;
//! for field in &said {
//!     let (name, terms) = (field.field_name.as_str(), field.term_dictionary_size);
//! }
//! let all = merge_field_meta_data(alloc, lists)?; // a list of each segment
//! ```
//!
//! Of an indexed field that isn't fast, `terms` has the length of its dictionary in the file, and `fast_size` is
//! `None`. In `all` each size is the sum of those that the segments say.
#![tactic(auto)]

// What is known of a field, and of the fields of several segments.
mod field_metadata;
mod laws;
mod merged_metadata;

// What a segment says of its fields.
mod column_entries;
mod field_entries;
mod listed_names;
mod metadata;

// The sizes are the lengths of the parts that a field has in the files.
mod size_laws;

pub use field_metadata::FieldMetadata;
pub use laws::merging_in_any_order;
pub use merged_metadata::merge_field_meta_data;
pub use metadata::fields_metadata;
pub use size_laws::sizes_are_lengths;

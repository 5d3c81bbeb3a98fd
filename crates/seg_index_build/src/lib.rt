//! Indexes, built and merged. An index is built of operations on documents: a segment a batch is written into a work
//! directory, and these segments, as that directory answers them, are merged into an output directory. Segments that
//! are there are merged under filters, and several indices into one.
//!
//! Its model: both directories are one state (`Directories`), in which steps are done in turn, up to the first that
//! breaks off; `Builds` says that they have the work index and the output index of an input, `build_refusal` why an
//! input is refused, and `AreMerged` which contents segments are merged into.
//!
//! ```rust
//! let index = build_index(
//!     alloc, &schema, &settings, &analyzers, &operations, &[2], &[None, None], &ids, &mut work, &mut output,
//! )?;
//! let segments = Index::open(alloc, &mut work)?.searchable_segments(alloc)?;
//! let merged = merge_filtered_segments(alloc, &segments, settings, filters, id, &mut work, &mut other)?;
//! let all = merge_indices(alloc, &[index, merged], &mut sources, id, &mut third)?;
//! ```
//!
//! The operations are cut after the second, so there are two batches, and `ids` has an id for each and one for the
//! output. Each merge makes an index of one segment; `sources` has the directory of each index.
#![tactic(auto)]

// What an index says of itself, and how it is begun.
mod index_files;
mod metas;
mod payload;

// Segments, merged into an index of one.
mod filtered_merge;

// An index, built of operations.
mod index_build;
mod indexes;
mod merge_plan;
mod work_index;

// Indices, merged into one.
mod index_merge;
mod source_readers;
mod source_segments;

// What holds of all.
mod laws;

pub use filtered_merge::{check_segments, fill_output, live_segments, merge_filtered_segments};
pub use index_build::{build_index, build_index_of};
pub use index_files::begin_index;
pub use index_merge::merge_indices;
pub use laws::answers_determine_parts;

//! The batches of an input, each written as a segment, with what later deletes leave of it. The deletes of all
//! operations wait in one queue; a delete has a term, and removes the documents that have it, as its postings tell, and
//! that were added before the delete. A segment keeps all of its documents: where some are not alive, an alive file
//! beside its six files says so.
//!
//! Its model: a segment that was written is its id, the number of its documents, and for each whether it is alive
//! (`WrittenSegment`), a queue is its operations and how many of them are flushed (`Queue`), and `left_by` is what the
//! deletes of a queue leave.
//!
//! ```rust
//! let segments = write_batches(
//!     alloc, &schema, &settings, &analyzers, &operations, &cuts, &ids, &mut work,
//! )?;
//! write_alive_files(alloc, stamp, &segments, &mut work)?;
//! let listed = list_segments(alloc, stamp, &segments)?;
//! let mut cursor = queue.cursor();
//! let alive = apply_deletes(alloc, &mut reader, &mut queue, &mut cursor, &mapping)?;
//! ```
//!
//! `listed` is what a meta lists under that stamp. `alive` is `None` where the deletes from `cursor` on leave all
//! documents of the reader's segment; `mapping` has the stamp of each document.
#![tactic(auto)]

// Deletes that wait, and places among them.
mod delete_cursor;
mod delete_queue;
mod operation;
mod queue_laws;
mod waiting_deletes;

// What a delete names, and which documents it reaches.
mod delete_target;
mod doc_opstamp_mapping;
mod term_documents;
mod term_target;

// Deletes, applied to a segment.
mod applied_deletes;
mod deleted_documents;
mod laws;

// One batch, in memory.
mod batch_alive;
mod indexed_batch;
mod made_batch;

// All batches, in a directory.
mod alive_files;
mod listed_segments;
mod written_batches;
mod written_segment;

pub use alive_files::write_alive_files;
pub use applied_deletes::apply_deletes;
pub use delete_cursor::DeleteCursor;
pub use delete_queue::DeleteQueue;
pub use delete_target::DeleteTarget;
pub use doc_opstamp_mapping::DocToOpstampMapping;
pub use laws::applied_deletes_leave_the_alive;
pub use listed_segments::list_segments;
pub use operation::{DeleteOperation, Opstamp};
pub use queue_laws::skipping_finds_the_first;
pub use term_target::TermTarget;
pub use written_batches::write_batches;
pub use written_segment::WrittenSegment;

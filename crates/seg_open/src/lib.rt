//! Segments as they are read from a directory: a segment is opened by its six files, each read once, whole, and checked
//! against those before it before the next is read, and by its alive file. What is asked of it later is looked up in
//! these bytes. The first file that is missing or wrong is the one that the error names.
//!
//! Its model: a reader is an `OpenSegment`: the contents that its files hold (`contents_of`), and for each document
//! whether it is alive.
//!
//! ```rust
//! let reader = SegmentReader::open(alloc, &segment, &mut directory)?;
//! let prices = reader.fast_fields().u64(alloc, "price")?;
//! for doc in reader.doc_ids_alive() {
//!     let (stored, price) = (reader.store_reader().raw(doc), prices.first(doc));
//! }
//! if let Some(index) = reader.opened_field(title) {
//!     let info = index.terms().get(b"mug");
//! }
//! ```
//!
//! `stored` has the bytes of a document, and `info` says in how many documents the term `mug` occurs, `None` where it
//! is in none.
#![tactic(auto)]

// Why a segment can't be opened.
mod open_error;

// The three files that have a part for each indexed field.
mod opened_dictionaries;
mod opened_fields;
mod opened_postings;
mod term_files;

// The other three, all six, and the alive file.
mod alive_set;
mod core_readers;
mod opened_parts;

// A segment that is open, and what it has.
mod alive_docs;
mod facet_columns;
mod file_sizes;
mod reader_parts;
mod segment_reader;
mod space_usage;

// Several segments.
mod opened_segments;

pub use alive_docs::AliveDocs;
pub use file_sizes::FileSizes;
pub use open_error::OpenError;
pub use opened_segments::open_segments;
pub use segment_reader::SegmentReader;
pub use space_usage::SegmentSpaceUsage;

//! The store of a segment: the bytes of its stored documents, in blocks, with a table of where each block ends. A store
//! is written document by document, or block by block from another one, and read with or without a cache of blocks.
//!
//! Its model: a store is the list of its blocks, each the list of its documents' bytes (`store_of`), `documents_of` are
//! the documents of all blocks in order, a reader with a cache is also the numbers of the blocks that it keeps
//! (`CachedStore`), and a writer is its closed blocks and its open one (`Taken`), or nothing once out of memory.
//!
//! ```rust
//! let mut writer = StoreWriter::new(alloc, Compressor::None, 16384, false)?;
//! writer.store(&document, &schema)?;
//! let file = writer.close()?;
//! let store = StoreReader::open(bytes)?; // the bytes of `file`, shared
//! for stored in store.iter_raw(None) {
//!     let length = stored.len();
//! }
//! let again = store.get(alloc, 0)?;
//! ```
//!
//! `again` has the stored fields of `document`; the bytes of a document are those of `seg_doc_bytes`.
#![tactic(auto)]

// Why a call fails.
mod error;

// What is written.
mod block_law;
mod checkpoint;
mod store_writer;
mod written_blocks;

// The check.
mod block_check;
mod document_check;
mod parts;
mod store_check;

// What is read.
mod block_reader;
mod checkpoints;
mod document_places;
mod raw_docs;
mod store_reader;

// What is read through a cache.
mod block_cache;
mod cache_stats;
mod cached_store_reader;

pub use block_law::{documents_stay_in_order, stacked_blocks_stay_in_order};
pub use cache_stats::CacheStats;
pub use cached_store_reader::CachedStoreReader;
pub use checkpoint::Checkpoint;
pub use checkpoints::Checkpoints;
pub use error::StoreError;
pub use raw_docs::RawDocs;
pub use store_reader::StoreReader;
pub use store_writer::StoreWriter;

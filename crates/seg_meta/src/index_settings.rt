//! The settings of an index.

use seg_values::Compressor;

/// A block is closed once it has this many bytes, where nothing else is said.
pub const DEFAULT_BLOCK_SIZE: u32 = 16_384;

/// The settings of an index, which are those of its store of documents.
#[derive(Clone, Copy, Debug, PartialEq, Eq)]
pub struct IndexSettings {
    pub docstore_compression: Compressor,
    /// A block is closed once it has this many bytes.
    pub docstore_blocksize: u32,
    /// Whether a thread of its own compresses.
    pub docstore_compress_dedicated_thread: bool,
}

//! How the blocks of stored documents are compressed.

/// How the blocks of stored documents are compressed.
#[derive(Clone, Copy, Debug, PartialEq, Eq)]
pub enum Compressor {
    None,
    Lz4,
    Zstd,
}

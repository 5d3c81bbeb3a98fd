//! How a cache was used.

/// How often a block that was wanted was kept, how often it wasn't, and how many blocks are kept.
#[derive(Clone, Copy, Debug, PartialEq, Eq)]
pub struct CacheStats {
    pub cache_hits: u64,
    pub cache_misses: u64,
    pub num_entries: usize,
}

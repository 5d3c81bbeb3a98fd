//! The reader of stores that keeps the blocks that were used last.
ghost use Rattle.std.specs.Prelude.{◌≡◌, ◌<◌, ◌⊎◌, Some, None, length, true, option_map, IfOk, IfErr, OnOk, OnErr, slice_get, is_some};
ghost use Rattle.seg_store.specs.Block.{is_block, documents_in};
ghost use Rattle.seg_store.specs.Cache.{unused, after_use, after_get};
ghost use Rattle.seg_store.specs.Store.{store_of, document_count, documents_of};

use crate::block_cache::BlockCache;
use crate::block_reader::document_in_block;
use crate::cache_stats::CacheStats;
use crate::error::StoreError;
use crate::store_reader::StoreReader;
use seg_common::OwnedBytes;
use seg_values::TantivyDocument;
use std::alloc::Global;
use std::marker::Model;

/// Reads the documents of a store, and keeps the blocks that were used last, of which nothing is copied.
#[derive(Drop)]
pub struct CachedStoreReader {
    alloc: Global,
    store: StoreReader,
    cache: BlockCache,
}

impl Model for CachedStoreReader {
    ghost use Rattle.std.specs.Prelude.{All};
    ghost use Rattle.seg_store.specs.Cache.{CachedStore};
    ghost use Rattle.seg_store.specs.CachedBlocks.{cached_store, AreStored, IsBlockOf};

    ghost Value = { CachedStore };

    ghost view = { λ r. cached_store r.store r.cache };

    ghost invariant = { λ r. AreStored r.store × All (IsBlockOf r.store) r.cache.pairs };
}

impl CachedStoreReader {
    /// The reader of a file, whose bytes are scanned once, which keeps this many blocks; 0: none.
    pub fn open(
        alloc: Global,
        bytes: OwnedBytes,
        cache_num_blocks: usize,
    ) -> Result<CachedStoreReader, StoreError>
        ensures ok { IfOk result (λ r. option_map (unused cache_num_blocks) (store_of bytes) ≡ Some r) }
        ensures err { IfErr result (λ e. ((e ≡ StoreError.Malformed) × (store_of bytes ≡ None))
            ⊎ ((e ≡ StoreError.OutOfMemory) × (is_some (store_of bytes) ≡ true))) }
    {
        let store = StoreReader::open(bytes)?;
        CachedStoreReader::new(alloc, store, cache_num_blocks)
    }

    /// The reader of a store that is open, which keeps this many blocks; 0: none.
    pub fn new(
        alloc: Global,
        store: StoreReader,
        cache_num_blocks: usize,
    ) -> Result<CachedStoreReader, StoreError>
        ensures ok { IfOk result (λ r. r ≡ unused cache_num_blocks store) }
        ensures err { IfErr result (λ e. e ≡ StoreError.OutOfMemory) }
    {
        let cache = BlockCache::new(alloc, cache_num_blocks)?;
        Ok(CachedStoreReader {
            alloc,
            store,
            cache,
        })
    }

    /// The reader without the cache.
    pub fn store(&self) -> &StoreReader
        ensures { result.now ≡ self.now.blocks }
    {
        &self.store
    }

    /// How many documents there are.
    pub fn num_docs(&self) -> u32
        ensures counted { result ≡ document_count self.now.blocks }
        ensures documents { result ≡ length (documents_of self.now.blocks) }
    {
        self.store.num_docs()
    }

    /// How the cache was used since the reader was opened.
    pub fn cache_stats(&self) -> CacheStats
        ensures hits { result.cache_hits ≡ self.now.hits }
        ensures misses { result.cache_misses ≡ self.now.misses }
        ensures entries { result.num_entries ≡ length self.now.entries }
    {
        CacheStats {
            cache_hits: self.cache.hits(),
            cache_misses: self.cache.misses(),
            num_entries: self.cache.len(),
        }
    }

    /// A document, whatever the cache keeps.
    pub fn get(&mut self, doc: u32) -> Result<TantivyDocument, StoreError>
        requires { doc < document_count self.old.blocks }
        ensures ok { IfOk result (λ d. slice_get (documents_of self.old.blocks) doc ≡ Some d) }
        ensures used { OnOk result (self.new ≡ after_get doc self.old) }
        ensures err { IfErr result (λ e. e ≡ StoreError.OutOfMemory) }
        ensures failed { OnErr result ((self.new ≡ self.old) ⊎ (self.new ≡ after_get doc self.old)) }
    {
        let number = self.store.block_number(doc);
        let block = self.block(number)?;
        let index = doc - self.store.first_document(number);
        document_in_block(self.alloc, block.as_slice(), index as usize)
    }

    /// The bytes of a block, which is a use of it.
    fn block(&mut self, number: usize) -> Result<OwnedBytes, StoreError>
        requires { number < length self.old.blocks }
        ensures block { IfOk result (λ b. is_block b ≡ true) }
        ensures is { IfOk result (λ b. slice_get self.old.blocks number ≡ Some (documents_in b)) }
        ensures used { OnOk result (self.new ≡ after_use number self.old) }
        ensures err { IfErr result (λ e. e ≡ StoreError.OutOfMemory) }
        ensures failed { OnErr result (self.new ≡ self.old) }
    {
        if let Some(block) = self.cache.find(number) {
            return Ok(block);
        }
        let block = self.store.block(number);
        self.cache.keep(number, block.share())?;
        Ok(block)
    }
}

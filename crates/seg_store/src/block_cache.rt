//! The blocks of a store that were used last.
ghost use Rattle.std.specs.Prelude.{◌≡◌, [], ◌∷◌, length, take, nat_eq, Some, None, IfOk, IfErr, IfSome, OnOk, OnErr, OnSome, IfNone};
ghost use Rattle.std.specs.Map.{keys_of, lookup};
ghost use Rattle.lru.specs.LruCache.{IsValid, lru_cache, promoted};
ghost use Rattle.seg_store.specs.Cache.{entries_after};
ghost use Rattle.seg_store.specs.CachedBlocks.{capacity_of, pairs_of, no_blocks, after_hit, after_miss};

use crate::error::StoreError;
use lru::LruCache;
use seg_common::OwnedBytes;
use std::alloc::{AllocError, Global};
use std::marker::Model;
use std::num::NonZeroUsize;

/// Blocks by their numbers, the last used first, and how often one that was wanted was there.
#[derive(Drop)]
pub(crate) struct BlockCache {
    kept: Option<LruCache<usize, OwnedBytes>>,
    hits: u64,
    misses: u64,
}

impl Model for BlockCache {
    ghost use Rattle.std.specs.Prelude.{nat_eq, IfSome};
    ghost use Rattle.lru.specs.LruCache.{IsValid};
    ghost use Rattle.seg_store.specs.CachedBlocks.{CachedBlocks, cached_blocks};

    ghost Value = { CachedBlocks };

    ghost view = { λ c. cached_blocks c.kept c.hits c.misses };

    ghost invariant = { λ c. IfSome c.kept (IsValid nat_eq) };
}

impl BlockCache {
    /// Keeps no block where the capacity is 0.
    pub(crate) fn new(alloc: Global, capacity: usize) -> Result<BlockCache, AllocError>
        ensures { IfOk result (λ c. c ≡ no_blocks capacity) }
    {
        let kept = room_for(alloc, capacity)?;
        Ok(BlockCache {
            kept,
            hits: 0,
            misses: 0,
        })
    }

    /// How many blocks are kept.
    pub(crate) fn len(&self) -> usize
        ensures { result ≡ length self.now.pairs }
    {
        match &self.kept {
            Some(kept) => kept.len(),
            None => 0,
        }
    }

    pub(crate) fn hits(&self) -> u64
        ensures { result ≡ self.now.hits }
    {
        self.hits
    }

    pub(crate) fn misses(&self) -> u64
        ensures { result ≡ self.now.misses }
    {
        self.misses
    }

    /// The bytes of a block where it is kept, which is a use of it.
    pub(crate) fn find(&mut self, number: usize) -> Option<OwnedBytes>
        ensures found { result ≡ lookup (nat_eq number) self.old.pairs }
        ensures hit { OnSome result (self.new ≡ after_hit number self.old) }
        ensures order { OnSome result (keys_of self.new.pairs
            ≡ entries_after self.old.capacity number (keys_of self.old.pairs)) }
        ensures none { IfNone result (self.new ≡ self.old) }
    {
        let kept = self.kept.as_mut()?;
        let block = recalled(kept, number)?;
        self.hits = self.hits.saturating_add(1);
        Some(block)
    }

    /// Keeps a block that isn't kept, as the last used.
    pub(crate) fn keep(&mut self, number: usize, block: OwnedBytes) -> Result<(), StoreError>
        requires { lookup (nat_eq number) self.old.pairs ≡ None }
        ensures miss { OnOk result (self.new ≡ after_miss number block self.old) }
        ensures unchanged { OnErr result (self.new ≡ self.old) }
        ensures err { IfErr result (λ e. e ≡ StoreError.OutOfMemory) }
    {
        put_first(&mut self.kept, number, block)?;
        self.misses = self.misses.saturating_add(1);
        Ok(())
    }
}

/// Room for this many blocks, if there are to be any.
fn room_for(
    alloc: Global,
    capacity: usize,
) -> Result<Option<LruCache<usize, OwnedBytes>>, AllocError>
    ensures capacity { IfOk result (λ kept. capacity_of kept ≡ capacity) }
    ensures empty { IfOk result (λ kept. pairs_of kept ≡ []) }
    ensures valid { IfOk result (λ kept. IfSome kept (IsValid nat_eq)) }
{
    let Some(capacity) = NonZeroUsize::new(capacity) else {
        return Ok(None);
    };
    let kept = LruCache::sparse(alloc, capacity)?;
    Ok(Some(kept))
}

/// A kept block, which becomes the last used.
fn recalled(kept: &mut LruCache<usize, OwnedBytes>, number: usize) -> Option<OwnedBytes>
    requires { IsValid nat_eq kept.old }
    ensures found { result ≡ lookup (nat_eq number) kept.old.entries }
    ensures hit { OnSome result (kept.new ≡ lru_cache (promoted (nat_eq number) kept.old.entries) kept.old.cap) }
    ensures order { OnSome result (keys_of kept.new.entries
        ≡ entries_after kept.old.cap number (keys_of kept.old.entries)) }
    ensures none { IfNone result (kept.new ≡ kept.old) }
    ensures valid { IsValid nat_eq kept.new }
{
    let block = kept.get(&number)?;
    Some(block.share())
}

/// Keeps a block that isn't kept, as the last used, if any are to be kept.
fn put_first(
    kept: &mut Option<LruCache<usize, OwnedBytes>>,
    number: usize,
    block: OwnedBytes,
) -> Result<(), StoreError>
    requires absent { lookup (nat_eq number) (pairs_of kept.old) ≡ None }
    requires valid { IfSome kept.old (IsValid nat_eq) }
    ensures pairs { OnOk result (pairs_of kept.new
        ≡ take (capacity_of kept.old) ((number, block) ∷ pairs_of kept.old)) }
    ensures capacity { OnOk result (capacity_of kept.new ≡ capacity_of kept.old) }
    ensures valid { OnOk result (IfSome kept.new (IsValid nat_eq)) }
    ensures unchanged { OnErr result (kept.new ≡ kept.old) }
    ensures err { IfErr result (λ e. e ≡ StoreError.OutOfMemory) }
{
    let Some(kept) = kept else {
        return Ok(());
    };
    let Ok(_) = kept.put(number, block) else {
        return Err(StoreError::OutOfMemory);
    };
    Ok(())
}

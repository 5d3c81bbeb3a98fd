//! Makes the set of the documents that a filter keeps.
ghost use Rattle.std.specs.Prelude.{◌≡◌, Some, false, set, IfOk};
ghost use Rattle.seg_bits.specs.BitSets as bits;
ghost use Rattle.seg_script.specs.Filters.{ascends, all_but};

use seg_bits::{AliveBitSet, BitSet, write_alive_bitset};
use seg_common::{MemorySink, OwnedBytes};
use std::alloc::{AllocError, Global};

/// Whether each number is below the next.
pub(crate) fn ascends(numbers: &[u32]) -> bool
    ensures { result ≡ ascends numbers.now }
{
    let mut least = 0;
    for number in numbers {
        if u64::from(*number) < least {
            return false;
        }
        least = u64::from(*number) + 1;
    }
    true
}

/// Of this many documents all but those that are dropped, as a set that is read.
pub(crate) fn alive_set(
    alloc: Global,
    size: u32,
    dropped: &[u32],
) -> Result<AliveBitSet, AllocError>
    ensures { IfOk result (λ set. set ≡ all_but size dropped.now) }
{
    let kept = kept_documents(alloc, size, dropped)?;
    let file = set_in_memory(alloc, &kept)?;
    let Ok(bytes) = OwnedBytes::new(alloc, file.bytes()) else {
        return Err(AllocError);
    };
    match AliveBitSet::open(bytes) {
        Ok(set) => Ok(set),
        Err(_) => Err(AllocError),
    }
}

/// Of this many documents all but those that are dropped.
fn kept_documents(alloc: Global, size: u32, dropped: &[u32]) -> Result<BitSet, AllocError>
    ensures { IfOk result (λ kept. kept ≡ all_but size dropped.now) }
{
    let Ok(mut kept) = BitSet::with_max_value_and_full(alloc, size) else {
        return Err(AllocError);
    };
    for document in dropped {
        drop_document(&mut kept, *document);
    }
    Ok(kept)
}

/// Takes a document out; one from the size on isn't in.
fn drop_document(kept: &mut BitSet, document: u32)
    ensures { kept.new ≡ set kept.old document false }
{
    if document < kept.max_value() {
        kept.remove(document);
    }
}

/// The bytes of a set, in a sink with room for just these.
fn set_in_memory(alloc: Global, kept: &BitSet) -> Result<MemorySink, AllocError>
    ensures { IfOk result (λ file. bits.set_of file.written ≡ Some kept.now) }
{
    let words = kept.max_value().div_ceil(64);
    let mut file = MemorySink::new(alloc, 4 + 8 * words as usize, Vec::new(alloc))?;
    match write_alive_bitset(kept, &mut file) {
        Ok(()) => Ok(file),
        Err(_) => Err(AllocError),
    }
}

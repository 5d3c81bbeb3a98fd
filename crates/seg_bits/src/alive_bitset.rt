//! Which documents of a segment are alive.
ghost use Rattle.std.specs.Prelude.{◌≡◌, ◌+◌, ◌*◌, Some, None, false, not, length, get_or, IfOk, IfErr, OnOk, OnErr};
ghost use Rattle.seg_common.specs.FaultCounts.{HasCause};
ghost use Rattle.seg_common.specs.Streams.{StaysTold};
ghost use Rattle.seg_common.specs.declared.error.CommonError.TheVariants.{Malformed, OutOfMemory, WriteFault};
ghost use Rattle.seg_bits.specs.BitSets.{set_of, words_for, member_count, numbers_from, AppendsSet, AppendsPartOfSet};
ghost use Rattle.seg_common.specs.Marks.{both_marked};

use crate::bit_set::BitSet;
use crate::bit_set_iter::BitSetIter;
use crate::read_only_bit_set::{ReadOnlyBitSet, intersect_bitsets};
use seg_common::{ByteCount, CommonError, OwnedBytes, Sink};
use std::alloc::{AllocError, Global};
use std::marker::Model;

/// For each document of a segment whether it is alive. A copy takes no memory, and neither does a look-up.
#[derive(Drop)]
pub struct AliveBitSet {
    bitset: ReadOnlyBitSet,
    num_alive_docs: usize,
}

impl Model for AliveBitSet {
    ghost use Rattle.std.specs.Prelude.{◌≡◌, List, Bool};
    ghost use Rattle.seg_bits.specs.BitSets.{member_count};

    ghost Value = { List Bool };

    ghost view = { λ s. s.bitset };

    ghost invariant = { λ s. s.num_alive_docs ≡ member_count s.bitset };
}

impl AliveBitSet {
    /// Checks the bytes as `ReadOnlyBitSet::open`.
    pub fn open(bytes: OwnedBytes) -> Result<AliveBitSet, CommonError>
        ensures ok { IfOk result (λ set. set_of bytes ≡ Some set) }
        ensures malformed { IfErr result (λ e. (e ≡ Malformed) × (set_of bytes ≡ None)) }
    {
        match ReadOnlyBitSet::open(bytes) {
            Ok(bitset) => Ok(AliveBitSet::of(bitset)),
            Err(error) => Err(error),
        }
    }

    /// The documents in the set are alive.
    fn of(bitset: ReadOnlyBitSet) -> AliveBitSet
        ensures { result ≡ bitset }
    {
        let num_alive_docs = bitset.len();
        AliveBitSet {
            bitset,
            num_alive_docs,
        }
    }

    /// No document from the size on is alive.
    pub fn is_alive(&self, doc: u32) -> bool
        ensures { result ≡ get_or self.now doc false }
    {
        self.bitset.contains(doc)
    }

    /// Each document from the size on counts as deleted.
    pub fn is_deleted(&self, doc: u32) -> bool
        ensures { result ≡ not (get_or self.now doc false) }
    {
        !self.is_alive(doc)
    }

    /// The documents that are alive, ascending.
    pub fn iter_alive(&self) -> BitSetIter<'_>
        ensures { result ≡ numbers_from 0 self.now }
    {
        self.bitset.iter()
    }

    /// The documents that are alive, as a set.
    pub fn bitset(&self) -> &ReadOnlyBitSet
        ensures { result.now ≡ self.now }
    {
        &self.bitset
    }

    /// How many documents are alive.
    pub fn num_alive_docs(&self) -> usize
        ensures { result ≡ member_count self.now }
    {
        self.num_alive_docs
    }

    /// How many bytes the set has.
    pub fn space_usage(&self) -> ByteCount
        ensures { result.0 ≡ 4 + 8 * words_for (length self.now) }
    {
        self.bitset.num_bytes()
    }
}

/// The documents in the set are alive.
impl From<ReadOnlyBitSet> for AliveBitSet {
    ghost from_gives = { λ bitset set. set ≡ bitset };

    fn from(bitset: ReadOnlyBitSet) -> AliveBitSet {
        AliveBitSet::of(bitset)
    }
}

/// Shares the bytes, and never fails.
impl Clone for AliveBitSet {
    ghost is_clone = { λ set copy. copy ≡ set };

    ghost is_infallible = { λ _. Unit {0} };

    fn clone(&self) -> Result<AliveBitSet, AllocError> {
        Ok(AliveBitSet {
            bitset: self.bitset.clone()?,
            num_alive_docs: self.num_alive_docs,
        })
    }
}

/// Writes the bytes that `AliveBitSet::open` reads as this set. At an error some first bytes of them were written.
pub fn write_alive_bitset<K: Sink>(set: &BitSet, writer: &mut K) -> Result<(), CommonError>
    ensures ok { OnOk result (AppendsSet (K.written writer.old) (K.written writer.new) set.now) }
    ensures err { OnErr result (AppendsPartOfSet (K.written writer.old) (K.written writer.new) set.now) }
    ensures error { IfErr result (λ e. e ≡ WriteFault) }
    ensures told { StaysTold (K.written writer.old) (K.written writer.new) }
    ensures cause { HasCause (K.faults writer.old) (K.faults writer.new) result }
{
    set.serialize(writer)
}

/// The documents that are alive in both of two sets of one segment.
pub fn intersect_alive_bitsets(
    alloc: Global,
    left: AliveBitSet,
    right: AliveBitSet,
) -> Result<AliveBitSet, CommonError>
    requires { length left ≡ length right }
    ensures ok { IfOk result (λ set. set ≡ both_marked left right) }
    ensures err { IfErr result (λ e. e ≡ OutOfMemory) }
{
    match intersect_bitsets(alloc, &left.bitset, &right.bitset) {
        Ok(bitset) => Ok(AliveBitSet::of(bitset)),
        Err(error) => Err(error),
    }
}

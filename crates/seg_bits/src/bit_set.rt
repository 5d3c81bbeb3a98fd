//! Sets that numbers are put into and taken out of.
ghost use Rattle.std.specs.Prelude.{◌≡◌, ◌<◌, true, false, length, replicate, get_or, set, IfOk, IfErr, OnOk, OnErr};
ghost use Rattle.seg_common.specs.FaultCounts.{HasCause};
ghost use Rattle.seg_common.specs.Streams.{StaysTold};
ghost use Rattle.seg_bits.specs.BitSets as spec;

use crate::words::num_words;
use crate::write::write_set;
use seg_common::{CommonError, Sink, SinkFailed};
use std::alloc::{AllocError, Global};
use std::marker::Model;

/// A set of numbers below a size, one bit a number.
#[derive(Drop)]
pub struct BitSet {
    words: Vec<u64>,
    max_value: u32,
    len: usize,
}

impl Model for BitSet {
    ghost use Rattle.std.specs.Prelude.{List, Bool};
    ghost use Rattle.seg_bits.specs.BitSets.{members, KeepsSet};

    ghost Value = { List Bool };

    ghost view = { λ s. members s.max_value s.words.items };

    ghost invariant = { λ s. KeepsSet s.max_value s.words.items s.len };
}

impl BitSet {
    /// No number is in.
    pub fn with_max_value(alloc: Global, max_value: u32) -> Result<BitSet, CommonError>
        ensures ok { IfOk result (λ s. s ≡ replicate max_value false) }
        ensures err { IfErr result (λ e. e ≡ CommonError.OutOfMemory) }
    {
        Ok(BitSet {
            words: vec![in alloc; 0; num_words(max_value)]?,
            max_value,
            len: 0,
        })
    }

    /// Each number is in.
    pub fn with_max_value_and_full(alloc: Global, max_value: u32) -> Result<BitSet, CommonError>
        ensures ok { IfOk result (λ s. s ≡ replicate max_value true) }
        ensures err { IfErr result (λ e. e ≡ CommonError.OutOfMemory) }
    {
        Ok(BitSet {
            words: full_words(alloc, max_value)?,
            max_value,
            len: max_value as usize,
        })
    }

    /// Puts a number in.
    #[inline]
    pub fn insert(&mut self, value: u32)
        requires { value < length self.old }
        ensures { self.new ≡ set self.old value true }
    {
        if self.contains(value) {
            return;
        }
        self.words[(value / 64) as usize] |= 1 << (value % 64);
        self.len += 1;
    }

    /// Takes a number out.
    pub fn remove(&mut self, value: u32)
        requires { value < length self.old }
        ensures { self.new ≡ set self.old value false }
    {
        if !self.contains(value) {
            return;
        }
        self.words[(value / 64) as usize] &= !(1 << (value % 64));
        self.len -= 1;
    }

    /// Whether a number is in; none from the size on is.
    #[inline]
    pub fn contains(&self, value: u32) -> bool
        ensures { result ≡ get_or self.now value false }
    {
        if value >= self.max_value {
            return false;
        }
        (self.words[(value / 64) as usize] >> (value % 64)) & 1 == 1
    }

    /// How many numbers are in.
    pub fn len(&self) -> usize
        ensures { result ≡ spec.member_count self.now }
    {
        self.len
    }

    /// The size: each number is below it.
    pub fn max_value(&self) -> u32
        ensures { result ≡ length self.now }
    {
        self.max_value
    }

    /// Writes the bytes that `ReadOnlyBitSet::open` reads as this set. At an error some first bytes of them were
    /// written.
    pub fn serialize<K: Sink>(&self, writer: &mut K) -> Result<(), CommonError>
        ensures ok { OnOk result (spec.AppendsSet (K.written writer.old) (K.written writer.new) self.now) }
        ensures err { OnErr result (spec.AppendsPartOfSet (K.written writer.old) (K.written writer.new) self.now) }
        ensures error { IfErr result (λ e. e ≡ CommonError.WriteFault) }
        ensures told { StaysTold (K.written writer.old) (K.written writer.new) }
        ensures cause { HasCause (K.faults writer.old) (K.faults writer.new) result }
    {
        match write_set(writer, self.max_value, self.words.as_slice()) {
            Ok(()) => Ok(()),
            Err(SinkFailed) => Err(CommonError::WriteFault),
        }
    }
}

/// The words of the set of all numbers below a size.
fn full_words(alloc: Global, max_value: u32) -> Result<Vec<u64>, AllocError>
    ensures length { IfOk result (λ words. length words.items ≡ spec.words_for max_value) }
    ensures all { IfOk result (λ words. spec.members max_value words.items ≡ replicate max_value true) }
    ensures clear { IfOk result (λ words. spec.is_clear_from max_value words.items ≡ true) }
{
    let mut words = vec![in alloc; u64::MAX; num_words(max_value)]?;
    let used = max_value % 64;
    if used == 0 {
        return Ok(words);
    }
    words[(max_value / 64) as usize] = (1 << used) - 1;
    Ok(words)
}

//! Which documents of a segment are alive, and the sets of numbers that say it: sets that grow and shrink, sets that
//! are read from their bytes without a copy, and what two of them share. Alive files and filters are such sets.
//!
//! Its model: a set is a list of marks, one for each number below its size, and bytes read as one set or as none
//! (`set_of`).
//!
//! ```rust
//! let mut alive = BitSet::with_max_value_and_full(alloc, 3)?;
//! alive.remove(1);
//! let mut sink = MemorySink::new(alloc, 100, Vec::new(alloc))?;
//! write_alive_bitset(&alive, &mut sink)?;
//! let read = AliveBitSet::open(OwnedBytes::new(alloc, sink.bytes())?)?;
//! for doc in read.iter_alive() {
//!     let is_alive = read.is_alive(doc);
//! }
//! ```
//!
//! The loop comes to 0 and 2, `read.is_deleted(1)` is true, and `read.num_alive_docs()` is 2.
#![tactic(auto)]

// Sets that grow and shrink, and how they are written.
mod bit_set;
mod words;
mod write;

// Sets in the bytes that they were written to.
mod bit_set_iter;
mod intersect;
mod look_up;
mod read_only_bit_set;

// Which documents are alive.
mod alive_bitset;

// What holds of all.
mod laws;

pub use alive_bitset::{AliveBitSet, intersect_alive_bitsets, write_alive_bitset};
pub use bit_set::BitSet;
pub use bit_set_iter::BitSetIter;
pub use laws::{alive_sets_meet, sets_have_one_form};
pub use read_only_bit_set::{ReadOnlyBitSet, intersect_bitsets};

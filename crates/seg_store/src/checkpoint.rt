//! Where blocks end.
ghost use Rattle.std.specs.Prelude.{◌≡◌, ℕ, ◌<◌, ◌+◌, ◌*◌, ◌≤◌, length, Some};
ghost use Rattle.std.specs.List.{slice_get};
ghost use Rattle.seg_common.specs.LittleEndian as numbers;
ghost use Rattle.seg_store.specs.Store.{checkpoints_of};

use seg_common::{u32_at, u64_at};

/// How many bytes a checkpoint takes in a table.
pub(crate) const CHECKPOINT_BYTES: usize = 12;

/// Where a block ends: the number of documents up to and including it, and the number of bytes of the file up to there.
#[derive(Clone, Copy, Debug, PartialEq, Eq)]
pub struct Checkpoint {
    pub doc_end: u32,
    pub byte_end: u64,
}

/// A checkpoint of a table.
pub(crate) fn checkpoint_at(table: &[u8], index: usize) -> Checkpoint
    requires { 12 * (index + 1) ≤ length table.now }
    ensures doc_end { result.doc_end ≡ numbers.u32_at table.now (12 * index) }
    ensures byte_end { result.byte_end ≡ numbers.u64_at table.now (12 * index + 4) }
    ensures found { (n : ℕ) → index < n
        → slice_get (checkpoints_of n table.now) index ≡ Some (result.doc_end, result.byte_end) }
{
    let at = CHECKPOINT_BYTES * index;
    Checkpoint {
        doc_end: u32_at(table, at),
        byte_end: u64_at(table, at + 4),
    }
}

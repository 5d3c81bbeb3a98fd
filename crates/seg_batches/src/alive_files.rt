//! The alive files of segments, in a directory.
ghost use Rattle.std.specs.Prelude.{◌≡◌, ◌∷◌, [], Some, IfOk};
ghost use Rattle.seg_bits.specs.BitSets.{set_of};
ghost use Rattle.seg_batches.specs.AliveFiles.{WritesAlive};

use crate::Opstamp;
use crate::written_segment::WrittenSegment;
use seg_bits::{BitSet, write_alive_bitset};
use seg_common::{FileName, MemorySink};
use seg_directory::{Directory, write_file};
use seg_values::{TResult, TantivyError};
use std::alloc::{AllocError, Global};

/// Writes the alive file of each segment some of whose documents are not alive, one segment after another, under the
/// stamp of the meta that lists them. `IndexAlreadyExists`: a file of that name is there.
pub fn write_alive_files<W: Directory>(
    alloc: Global,
    stamp: Opstamp,
    segments: &[WrittenSegment],
    directory: &mut W,
) -> TResult<()>
    ensures does { WritesAlive stamp segments.now result (W.state directory.old) (W.state directory.new) }
{
    for segment in segments {
        match write_alive_file(alloc, stamp, segment, directory) {
            Ok(()) => {}
            Err(e) => return Err(e),
        }
    }
    Ok(())
}

/// Writes the alive file of a segment, where some of its documents are not alive.
fn write_alive_file<W: Directory>(
    alloc: Global,
    stamp: Opstamp,
    segment: &WrittenSegment,
    directory: &mut W,
) -> TResult<()>
    ensures { WritesAlive stamp (segment.now ∷ []) result (W.state directory.old) (W.state directory.new) }
{
    let Some(alive) = segment.alive() else {
        return Ok(());
    };
    let Ok(file) = set_in_memory(alloc, alive) else {
        return Err(TantivyError::OutOfMemory);
    };
    let name = FileName::Alive(segment.id(), stamp);
    write_file(alloc, directory, name, file.bytes())
}

/// The bytes of an alive file, in a sink with room for just these.
fn set_in_memory(alloc: Global, alive: &BitSet) -> Result<MemorySink, AllocError>
    ensures { IfOk result (λ file. set_of file.written ≡ Some alive.now) }
{
    let words = alive.max_value().div_ceil(64);
    let mut file = MemorySink::new(alloc, 4 + 8 * words as usize, Vec::new(alloc))?;
    match write_alive_bitset(alive, &mut file) {
        Ok(()) => Ok(file),
        Err(_) => Err(AllocError),
    }
}

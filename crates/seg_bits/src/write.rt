//! Sets as they are written.
ghost use Rattle.std.specs.Prelude.{◌≡◌, ◌<◌, ◌++◌, ◌^◌, ℕ, get_or, OnOk, OnErr};
ghost use Rattle.std.specs.Int.{w32, w64, to_le_bytes};
ghost use Rattle.std.specs.Io.KnownBytes.{Appends};
ghost use Rattle.std.specs.List.{flat_map};
ghost use Rattle.seg_common.specs.FaultCounts.{HasCause};
ghost use Rattle.seg_common.specs.Streams.{StaysTold, AppendsPart};

use seg_common::{Sink, SinkFailed, write_whole};

/// Writes a size, and the words after it.
pub(crate) fn write_set<K: Sink>(
    writer: &mut K,
    max_value: u32,
    words: &[u64],
) -> Result<(), SinkFailed>
    ensures ok { OnOk result (Appends (K.written writer.old) (K.written writer.new)
        (to_le_bytes w32 max_value ++ flat_map (to_le_bytes w64) words.now)) }
    ensures err { OnErr result (AppendsPart (K.written writer.old) (K.written writer.new)
        (to_le_bytes w32 max_value ++ flat_map (to_le_bytes w64) words.now)) }
    ensures told { StaysTold (K.written writer.old) (K.written writer.new) }
    ensures cause { HasCause (K.faults writer.old) (K.faults writer.new) result }
    ensures fits { (i : ℕ) → get_or words.now i 0 < 2 ^ 64 }
{
    write_whole(writer, &max_value.to_le_bytes())?;
    for word in words {
        write_whole(writer, &word.to_le_bytes())?;
    }
    Ok(())
}

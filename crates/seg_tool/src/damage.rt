//! The name of a damaged file, as it is told of a status.
ghost use Rattle.std.specs.Prelude.{◌≡◌, ◌∷◌, ◌++◌, [], OnOk, OnErr, codes, decimal};
ghost use Rattle.std.specs.Io.KnownBytes.{Appends};
ghost use Rattle.seg_common.specs.FaultCounts.{HasCause};
ghost use Rattle.seg_common.specs.FileNames.{name_text};
ghost use Rattle.seg_common.specs.SegmentIds.{id_text};
ghost use Rattle.seg_common.specs.Streams.{StaysTold, AppendsPart};
ghost use Rattle.seg_tool.specs.Statuses.{damage_text};

use seg_common::{FileName, SegmentComponent, SegmentId, Sink, SinkFailed, write_whole};
use seg_values::TantivyError;

/// Which file is damaged. It takes no memory.
pub(crate) fn write_damage<F: Sink>(faults: &mut F, error: &TantivyError) -> Result<(), SinkFailed>
    ensures ok { OnOk result (Appends (F.written faults.old) (F.written faults.new) (damage_text error.now)) }
    ensures err { OnErr result (AppendsPart (F.written faults.old) (F.written faults.new) (damage_text error.now)) }
    ensures told { StaysTold (F.written faults.old) (F.written faults.new) }
    ensures cause { HasCause (F.faults faults.old) (F.faults faults.new) result }
{
    match error {
        TantivyError::DataCorruption { name } => write_damaged(faults, name),
        _ => write_whole(faults, b"damaged: a file\n"),
    }
}

/// That the file of a name is damaged.
fn write_damaged<F: Sink>(faults: &mut F, name: &FileName) -> Result<(), SinkFailed>
    ensures ok { OnOk result (Appends (F.written faults.old) (F.written faults.new)
        (codes "damaged: " ++ (name_text name.now ++ 10 ∷ []))) }
    ensures err { OnErr result (AppendsPart (F.written faults.old) (F.written faults.new)
        (codes "damaged: " ++ (name_text name.now ++ 10 ∷ []))) }
    ensures told { StaysTold (F.written faults.old) (F.written faults.new) }
    ensures cause { HasCause (F.faults faults.old) (F.faults faults.new) result }
{
    write_whole(faults, b"damaged: ")?;
    write_name(faults, name)?;
    write_whole(faults, b"\n")
}

fn write_name<F: Sink>(faults: &mut F, name: &FileName) -> Result<(), SinkFailed>
    ensures ok { OnOk result (Appends (F.written faults.old) (F.written faults.new) (name_text name.now)) }
    ensures err { OnErr result (AppendsPart (F.written faults.old) (F.written faults.new) (name_text name.now)) }
    ensures told { StaysTold (F.written faults.old) (F.written faults.new) }
    ensures cause { HasCause (F.faults faults.old) (F.faults faults.new) result }
{
    match name {
        FileName::Meta => write_whole(faults, b"meta.json"),
        FileName::Part(id, component) => write_part(faults, *id, *component),
        FileName::Alive(id, stamp) => write_alive(faults, *id, *stamp),
    }
}

fn write_part<F: Sink>(
    faults: &mut F,
    id: SegmentId,
    component: SegmentComponent,
) -> Result<(), SinkFailed>
    ensures ok { OnOk result
        (Appends (F.written faults.old) (F.written faults.new) (name_text (FileName.Part id component))) }
    ensures err { OnErr result
        (AppendsPart (F.written faults.old) (F.written faults.new) (name_text (FileName.Part id component))) }
    ensures told { StaysTold (F.written faults.old) (F.written faults.new) }
    ensures cause { HasCause (F.faults faults.old) (F.faults faults.new) result }
{
    write_id(faults, id)?;
    write_whole(faults, component.extension().as_bytes())
}

fn write_alive<F: Sink>(faults: &mut F, id: SegmentId, stamp: u64) -> Result<(), SinkFailed>
    ensures ok { OnOk result
        (Appends (F.written faults.old) (F.written faults.new) (name_text (FileName.Alive id stamp))) }
    ensures err { OnErr result
        (AppendsPart (F.written faults.old) (F.written faults.new) (name_text (FileName.Alive id stamp))) }
    ensures told { StaysTold (F.written faults.old) (F.written faults.new) }
    ensures cause { HasCause (F.faults faults.old) (F.faults faults.new) result }
{
    write_id(faults, id)?;
    write_stamp(faults, stamp)
}

/// The digits of an id.
fn write_id<F: Sink>(faults: &mut F, id: SegmentId) -> Result<(), SinkFailed>
    ensures ok { OnOk result (Appends (F.written faults.old) (F.written faults.new) (id_text id)) }
    ensures err { OnErr result (AppendsPart (F.written faults.old) (F.written faults.new) (id_text id)) }
    ensures told { StaysTold (F.written faults.old) (F.written faults.new) }
    ensures cause { HasCause (F.faults faults.old) (F.faults faults.new) result }
{
    let mut digits = [0u8; 32];
    write_whole(faults, id.encode_uuid(&mut digits).as_bytes())
}

/// What follows the id in the name of an alive file.
fn write_stamp<F: Sink>(faults: &mut F, stamp: u64) -> Result<(), SinkFailed>
    ensures ok { OnOk result
        (Appends (F.written faults.old) (F.written faults.new) (46 ∷ (decimal stamp ++ codes ".del"))) }
    ensures err { OnErr result
        (AppendsPart (F.written faults.old) (F.written faults.new) (46 ∷ (decimal stamp ++ codes ".del"))) }
    ensures told { StaysTold (F.written faults.old) (F.written faults.new) }
    ensures cause { HasCause (F.faults faults.old) (F.faults faults.new) result }
{
    write_whole(faults, b".")?;
    let mut buffer = itoa::Buffer::new();
    write_whole(faults, buffer.format(stamp).as_bytes())?;
    write_whole(faults, b".del")
}

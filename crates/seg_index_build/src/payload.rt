//! What a merged index says about itself.
ghost use Rattle.std.specs.Prelude.{◌≡◌, ◌++◌, ◌∷◌, map, string_bytes, IfOk, OnOk};
ghost use Rattle.std.specs.List.{join_with_byte};
ghost use Rattle.seg_common.specs.SegmentIds.{id_text};
ghost use Rattle.seg_index_build.specs.IndexFiles.{merge_payload};

use seg_common::SegmentId;
use seg_meta::Segment;
use seg_tokens::Text;
use std::alloc::{AllocError, Global};

/// The payload of an index whose segment was merged from those with these ids.
pub(crate) fn merge_payload(alloc: Global, ids: &[SegmentId]) -> Result<Text, AllocError>
    ensures { IfOk result (λ text. text ≡ merge_payload ids.now) }
{
    let mut text = String::new(alloc);
    text.push_str("Segments Merge: [")?;
    push_ids(&mut text, ids)?;
    text.push(']')?;
    Ok(Text::from_string(text))
}

/// Adds ids, with a space between them.
fn push_ids(text: &mut String, ids: &[SegmentId]) -> Result<(), AllocError>
    ensures { OnOk result (string_bytes text.new ≡ string_bytes text.old ++ join_with_byte 32 (map id_text ids.now)) }
{
    let Some((first, rest)) = ids.split_first() else {
        return Ok(());
    };
    push_id(text, *first)?;
    for id in rest {
        push_next_id(text, *id)?;
    }
    Ok(())
}

/// Adds an id after a space.
fn push_next_id(text: &mut String, id: SegmentId) -> Result<(), AllocError>
    ensures { OnOk result (string_bytes text.new ≡ string_bytes text.old ++ 32 ∷ id_text id) }
{
    text.push(' ')?;
    push_id(text, id)
}

fn push_id(text: &mut String, id: SegmentId) -> Result<(), AllocError>
    ensures { OnOk result (string_bytes text.new ≡ string_bytes text.old ++ id_text id) }
{
    let mut buffer = [0u8; 32];
    text.push_str(id.encode_uuid(&mut buffer))
}

/// The ids of segments.
pub(crate) fn ids_of(alloc: Global, segments: &[Segment]) -> Result<Vec<SegmentId>, AllocError>
    ensures { IfOk result (λ ids. ids.items ≡ map (λ s. s.meta.id) segments.now) }
{
    let mut ids = Vec::new(alloc);
    for segment in segments {
        ids.push(segment.id())?;
    }
    Ok(ids)
}

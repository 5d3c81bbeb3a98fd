//! Reads the segments of a meta from JSON.
ghost use Rattle.std.specs.Prelude.{◌≡◌, Some, None, Err, IfOk};
ghost use Rattle.serde_json.specs.View.{view};
ghost use Rattle.seg_meta.specs.ParsedMeta.{segments_from};
ghost use Rattle.seg_meta.specs.SavableMetas.{IsMetaList};

use crate::{ReadError, SegmentMetas, segment_from};
use serde_json::Value;
use std::alloc::Global;
use std::collections::HashSet;

/// The segments that a list says, with distinct ids.
pub(crate) fn segments_from(alloc: Global, json: &Value) -> Result<SegmentMetas, ReadError>
    ensures ok { IfOk result (λ s. segments_from (view json.now) ≡ Some s) }
    ensures list { IfOk result IsMetaList }
    ensures none { result ≡ Err ReadError.NoMeta → segments_from (view json.now) ≡ None }
{
    let Some(items) = json.as_array() else {
        return Err(ReadError::NoMeta);
    };
    if items.len() > u32::MAX as usize {
        return Err(ReadError::NoMeta);
    }
    let mut segments = SegmentMetas::new(alloc);
    let mut ids = HashSet::new(alloc);
    for item in items {
        let Some(segment) = segment_from(item) else {
            return Err(ReadError::NoMeta);
        };
        let Ok(added) = ids.insert(segment.id().as_u128()) else {
            return Err(ReadError::OutOfMemory);
        };
        if !added {
            return Err(ReadError::NoMeta);
        }
        segments.push(segment)?;
    }
    Ok(segments)
}

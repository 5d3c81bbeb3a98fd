//! The metas of both indexes.
ghost use Rattle.std.specs.Prelude.{◌≡◌, ◌<◌, ◌^◌, IfOk};
ghost use Rattle.seg_meta.specs.SavableMetas.{IsMetaList};
ghost use Rattle.seg_meta.specs.MetaMeaning.{meta_of, settings_of};
ghost use Rattle.seg_index_build.specs.IndexFiles.{merged_meta, segments_meta};

use crate::payload::merge_payload;
use seg_common::SegmentId;
use seg_meta::{IndexMeta, IndexSettings, SegmentMeta, SegmentMetas};
use seg_values::Schema;
use std::alloc::{AllocError, Global};

/// The meta of an index of the segments of batches, as of a stamp.
pub(crate) fn work_metas(
    schema: &Schema,
    settings: &IndexSettings,
    stamp: u64,
    segments: SegmentMetas,
) -> IndexMeta
    ensures meta { meta_of result ≡ segments_meta (settings_of settings.now) schema.now stamp segments }
    ensures list { result.segments ≡ segments }
{
    IndexMeta {
        index_settings: *settings,
        segments,
        schema: schema.share(),
        opstamp: stamp,
        payload: None,
    }
}

/// The meta of an index of one segment without deletes that was merged from those with these ids.
pub(crate) fn output_metas(
    alloc: Global,
    schema: &Schema,
    settings: &IndexSettings,
    ids: &[SegmentId],
    id: SegmentId,
    documents: u32,
) -> Result<IndexMeta, AllocError>
    requires few { documents < 2 ^ 31 }
    ensures meta { IfOk result (λ metas. meta_of metas
        ≡ merged_meta (settings_of settings.now) schema.now ids.now id documents) }
    ensures list { IfOk result (λ metas. IsMetaList metas.segments) }
{
    let mut segments = SegmentMetas::new(alloc);
    segments.push(SegmentMeta::new(id, documents, None))?;
    Ok(IndexMeta {
        index_settings: *settings,
        segments,
        schema: schema.share(),
        opstamp: 0,
        payload: Some(merge_payload(alloc, ids)?),
    })
}

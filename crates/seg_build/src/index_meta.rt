//! The meta of an index of one segment.
ghost use Rattle.std.specs.Prelude.{◌≡◌, ◌<◌, ◌^◌, IfOk, Some};
ghost use Rattle.seg_directory.specs.DirectorySteps.{Works};
ghost use Rattle.seg_meta.specs.ParsedMeta.{meta_read};
ghost use Rattle.seg_meta.specs.MetaText.{meta_text};
ghost use Rattle.seg_meta.specs.SavableMetas.{IsMetaList};
ghost use Rattle.seg_meta.specs.MetaMeaning.{meta_of, settings_of};
ghost use Rattle.seg_build.specs.IndexWriters.{one_segment_meta, publish_steps};

use seg_common::SegmentId;
use seg_directory::{Directory, sync_files};
use seg_meta::{Index, IndexMeta, SegmentMeta, SegmentMetas, metas_read_back, save_metas};
use seg_values::{TResult, TantivyError};
use std::alloc::{AllocError, Global};

/// The meta of an index of one segment without deletes.
fn one_segment_metas(
    alloc: Global,
    index: &Index,
    id: SegmentId,
    documents: u32,
) -> Result<IndexMeta, AllocError>
    requires few { documents < 2 ^ 31 }
    ensures meta { IfOk result (λ metas. meta_of metas
        ≡ one_segment_meta (settings_of index.now.index_settings) index.now.schema id documents) }
    ensures list { IfOk result (λ metas. IsMetaList metas.segments) }
{
    let mut segments = SegmentMetas::new(alloc);
    segments.push(SegmentMeta::new(id, documents, None))?;
    Ok(IndexMeta {
        index_settings: *index.settings(),
        segments,
        schema: index.schema().share(),
        opstamp: 0,
        payload: None,
    })
}

/// Saves the meta of an index of one segment, and has it reach the disk.
pub(crate) fn save_one_segment<W: Directory>(
    alloc: Global,
    index: &Index,
    id: SegmentId,
    documents: u32,
    directory: &mut W,
) -> TResult<Index>
    requires few { documents < 2 ^ 31 }
    ensures meta { IfOk result (λ saved. meta_of saved
        ≡ one_segment_meta (settings_of index.now.index_settings) index.now.schema id documents) }
    ensures back { IfOk result (λ saved. meta_read (meta_text (meta_of saved)) ≡ Some (meta_of saved)) }
    ensures does { Works
        (publish_steps (one_segment_meta (settings_of index.now.index_settings) index.now.schema id documents))
        result (W.state directory.old) (W.state directory.new) }
{
    let Ok(metas) = one_segment_metas(alloc, index, id, documents) else {
        return Err(TantivyError::OutOfMemory);
    };
    metas_read_back(&metas);
    match save_synced(alloc, &metas, directory) {
        Ok(()) => Ok(Index::from_metas(metas)),
        Err(e) => Err(e),
    }
}

/// Saves a meta, and has it reach the disk.
fn save_synced<W: Directory>(alloc: Global, metas: &IndexMeta, directory: &mut W) -> TResult<()>
    requires { IsMetaList metas.now.segments }
    ensures { Works (publish_steps (meta_of metas.now)) result (W.state directory.old) (W.state directory.new) }
{
    match save_metas(alloc, metas, directory) {
        Ok(()) => sync_files(alloc, directory),
        Err(e) => Err(e),
    }
}

//! The beginning of an index, and the saving of its meta.
ghost use Rattle.seg_directory.specs.DirectorySteps.{Works};
ghost use Rattle.seg_meta.specs.SavableMetas.{IsMetaList};
ghost use Rattle.seg_meta.specs.MetaMeaning.{meta_of, settings_of};
ghost use Rattle.seg_index_build.specs.IndexWriteSteps.{begin_steps, publish_steps};

use seg_directory::{Directory, sync_files};
use seg_meta::{Index, IndexMeta, IndexSettings, save_metas};
use seg_values::{Schema, TResult};
use std::alloc::Global;

/// Begins an index in a directory without files.
pub fn begin_index<W: Directory>(
    alloc: Global,
    schema: &Schema,
    settings: &IndexSettings,
    directory: &mut W,
) -> TResult<()>
    ensures { Works (begin_steps (settings_of settings.now) schema.now) result
        (W.state directory.old)
        (W.state directory.new) }
{
    let _index = match Index::create(alloc, schema.share(), *settings, directory) {
        Ok(index) => index,
        Err(e) => return Err(e),
    };
    Ok(())
}

/// Saves a meta, and has it reach the disk.
pub(crate) fn save_index<W: Directory>(
    alloc: Global,
    metas: &IndexMeta,
    directory: &mut W,
) -> TResult<()>
    requires { IsMetaList metas.now.segments }
    ensures { Works (publish_steps (meta_of metas.now)) result (W.state directory.old) (W.state directory.new) }
{
    match save_metas(alloc, metas, directory) {
        Ok(()) => sync_files(alloc, directory),
        Err(e) => Err(e),
    }
}

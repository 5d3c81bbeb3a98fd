//! Saving the meta of an index.
ghost use Rattle.std.specs.Prelude.{◌≡◌, IsTrue, OnOk};
ghost use Rattle.std.specs.FinMap.{insert};
ghost use Rattle.seg_common.specs.declared.name.FileName.TheVariants.{Meta};
ghost use Rattle.seg_directory.specs.Disk.{exactly, with_change};
ghost use Rattle.seg_directory.specs.DiskRuns.{SavesOnDisk};
ghost use Rattle.seg_directory.specs.FileDisks.{settled};
ghost use Rattle.seg_directory.specs.DirectorySteps.{Works};
ghost use Rattle.seg_meta.specs.MetaSteps.{save_steps};
ghost use Rattle.seg_meta.specs.MetaText.{meta_text};
ghost use Rattle.seg_meta.specs.SavableMetas.{IsMetaList};
ghost use Rattle.seg_meta.specs.MetaMeaning.{meta_of};

use crate::{IndexMeta, meta_text};
use seg_common::FileName;
use seg_directory::{Directory, rewrite_file, sync_files};
use seg_values::{TResult, TantivyError};
use std::alloc::Global;

/// Saves a meta: has the files of its segments reach the disk, and then replaces the file of the meta in one step.
///
/// A crash during the call, or after it, leaves what it might have left before, or the files as they were with this
/// meta. At Ok all that was written before is safe, and the meta may still be the old one until the directory is
/// synced.
pub fn save_metas<O: Directory>(alloc: Global, metas: &IndexMeta, directory: &mut O) -> TResult<()>
    requires { IsMetaList metas.now.segments }
    ensures does { Works (save_steps (meta_text (meta_of metas.now))) result
        (O.state directory.old) (O.state directory.new) }
    ensures disk { IsTrue (O.state directory.old).disk.told
        → SavesOnDisk (insert (O.state directory.old).files Meta (meta_text (meta_of metas.now)))
        (O.state directory.old).disk (O.state directory.new).disk }
    ensures safe { IsTrue (O.state directory.old).disk.told → OnOk result ((O.state directory.new).disk.now
        ≡ with_change (settled (O.state directory.old).files) Meta (exactly (meta_text (meta_of metas.now)))) }
{
    let Ok(bytes) = meta_text(alloc, metas) else {
        return Err(TantivyError::OutOfMemory);
    };
    match sync_files(alloc, directory) {
        Ok(()) => rewrite_file(alloc, directory, FileName::Meta, &bytes),
        Err(e) => Err(e),
    }
}

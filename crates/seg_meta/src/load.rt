//! Loading the meta of an index.
ghost use Rattle.std.specs.Prelude.{IfOk, IsTrue};
ghost use Rattle.seg_directory.specs.DiskChanges.{KeepsDisk};
ghost use Rattle.seg_meta.specs.MetaSteps.{LoadsMetas};
ghost use Rattle.seg_meta.specs.SavableMetas.{IsMetaList};

use crate::{IndexMeta, ReadError, read_meta};
use seg_common::FileName;
use seg_directory::{Directory, read_file};
use seg_values::{TResult, TantivyError};
use std::alloc::Global;

/// Loads the meta that the directory has, in one reading. Where it is missing or can't be read, the index is damaged.
pub fn load_metas<W: Directory>(alloc: Global, directory: &mut W) -> TResult<IndexMeta>
    ensures does { LoadsMetas result (W.state directory.old) (W.state directory.new) }
    ensures disk { IsTrue (W.state directory.old).disk.told
        → KeepsDisk (W.state directory.old).disk (W.state directory.new).disk }
    ensures list { IfOk result (λ m. IsMetaList m.segments) }
{
    let bytes = match read_file(alloc, directory, FileName::Meta) {
        Ok(bytes) => bytes,
        Err(e) => return Err(e),
    };
    match read_meta(alloc, bytes.as_slice()) {
        Ok(metas) => Ok(metas),
        Err(ReadError::NoMeta) => Err(TantivyError::DataCorruption {
            name: FileName::Meta,
        }),
        Err(ReadError::OutOfMemory) => Err(TantivyError::OutOfMemory),
    }
}

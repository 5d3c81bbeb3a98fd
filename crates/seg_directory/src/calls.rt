//! The calls of a directory, with the errors of an index. All crates above call a directory by these alone.
ghost use Rattle.std.specs.Prelude.{[], ◌∷◌, ◌≡◌, ◌++◌, ◌⊎◌, IsTrue, IfOk, IfErr};
ghost use Rattle.std.specs.FinMap.{get, len};
ghost use Rattle.seg_directory.specs.CallAnswers.{seen_listing, seen_reading, seen_writing, seen_rewriting, seen_syncing, ReadsFile, WritesFile};
ghost use Rattle.seg_directory.specs.FileChanges.{KeepsOthers, Replaces};
ghost use Rattle.seg_directory.specs.Faults.{FaultHasCause};
ghost use Rattle.seg_directory.specs.Calls.{listed, read, made, replaced, synced};
ghost use Rattle.seg_directory.specs.DirectorySteps.{Works, WorksFor, calls};

use crate::call_error::call_error;
use crate::{CallKind, Directory};
use seg_common::{FileName, OwnedBytes};
use seg_values::{TResult, TantivyError};
use std::alloc::Global;

/// Refuses a directory that has files.
pub fn expect_no_files<D: Directory>(alloc: Global, directory: &mut D) -> TResult<()>
    ensures { Works (calls (listed 0) ∷ []) result (D.state directory.old) (D.state directory.new) }
{
    match directory.list(alloc) {
        Ok(0) => Ok(()),
        Ok(_) => Err(TantivyError::IndexAlreadyExists),
        Err(e) => Err(call_error(CallKind::List, FileName::Meta, e)),
    }
}

/// How many files there are.
pub fn list_files<D: Directory>(alloc: Global, directory: &mut D) -> TResult<u64>
    ensures does { WorksFor (λ n. calls (listed n) ∷ []) result (D.state directory.old) (D.state directory.new) }
    ensures number { IfOk result
        (λ n. IsTrue (D.state directory.old).tells → n ≡ len (D.state directory.old).files) }
    ensures files { (D.state directory.new).files ≡ (D.state directory.old).files }
    ensures tells { (D.state directory.new).tells ≡ (D.state directory.old).tells }
    ensures seen { (D.state directory.new).seen ≡ (D.state directory.old).seen ++ seen_listing result }
    ensures cause { FaultHasCause
        TantivyError.OpenReadError (D.state directory.old).faults (D.state directory.new).faults result }
    ensures errors { IfErr result
        (λ e. (e ≡ TantivyError.OpenReadError) ⊎ (e ≡ TantivyError.OutOfMemory)) }
{
    match directory.list(alloc) {
        Ok(number) => Ok(number),
        Err(e) => Err(call_error(CallKind::List, FileName::Meta, e)),
    }
}

/// The bytes of a file that the index needs.
pub fn read_file<D: Directory>(
    alloc: Global,
    directory: &mut D,
    name: FileName,
) -> TResult<OwnedBytes>
    ensures does { WorksFor (λ bytes. calls (read name bytes) ∷ []) result
        (D.state directory.old) (D.state directory.new) }
    ensures file { IsTrue (D.state directory.old).tells
        → ReadsFile (get (D.state directory.old).files name) result }
    ensures files { (D.state directory.new).files ≡ (D.state directory.old).files }
    ensures tells { (D.state directory.new).tells ≡ (D.state directory.old).tells }
    ensures seen { (D.state directory.new).seen ≡ (D.state directory.old).seen ++ seen_reading name result }
    ensures cause { FaultHasCause
        TantivyError.OpenReadError (D.state directory.old).faults (D.state directory.new).faults result }
    ensures errors { IfErr result
        (λ e. (e ≡ TantivyError.DataCorruption name)
        ⊎ (e ≡ TantivyError.OpenReadError) ⊎ (e ≡ TantivyError.OutOfMemory)) }
{
    match directory.open_read(alloc, &name) {
        Ok(bytes) => Ok(bytes),
        Err(e) => Err(call_error(CallKind::OpenRead, name, e)),
    }
}

/// Makes a file of a new segment.
pub fn write_file<D: Directory>(
    alloc: Global,
    directory: &mut D,
    name: FileName,
    bytes: &[u8],
) -> TResult<()>
    ensures does { Works (calls (made name bytes.now) ∷ []) result (D.state directory.old) (D.state directory.new) }
    ensures file { IsTrue (D.state directory.old).tells
        → WritesFile name bytes.now result (D.state directory.old).files (D.state directory.new).files }
    ensures others { KeepsOthers name (D.state directory.old).files (D.state directory.new).files }
    ensures tells { (D.state directory.new).tells ≡ (D.state directory.old).tells }
    ensures seen { (D.state directory.new).seen ≡ (D.state directory.old).seen ++ seen_writing name result }
    ensures cause { FaultHasCause
        TantivyError.OpenWriteError (D.state directory.old).faults (D.state directory.new).faults result }
    ensures errors { IfErr result
        (λ e. (e ≡ TantivyError.IndexAlreadyExists)
        ⊎ (e ≡ TantivyError.OpenWriteError) ⊎ (e ≡ TantivyError.OutOfMemory)) }
{
    match directory.write_new(alloc, &name, bytes) {
        Ok(()) => Ok(()),
        Err(e) => Err(call_error(CallKind::WriteNew, name, e)),
    }
}

/// Gives a file new content in one step.
pub fn rewrite_file<D: Directory>(
    alloc: Global,
    directory: &mut D,
    name: FileName,
    bytes: &[u8],
) -> TResult<()>
    ensures does { Works (calls (replaced name bytes.now) ∷ []) result (D.state directory.old) (D.state directory.new) }
    ensures file { IsTrue (D.state directory.old).tells
        → Replaces name bytes.now result (D.state directory.old).files (D.state directory.new).files }
    ensures others { KeepsOthers name (D.state directory.old).files (D.state directory.new).files }
    ensures tells { (D.state directory.new).tells ≡ (D.state directory.old).tells }
    ensures seen { (D.state directory.new).seen ≡ (D.state directory.old).seen ++ seen_rewriting name result }
    ensures cause { FaultHasCause
        TantivyError.IoError (D.state directory.old).faults (D.state directory.new).faults result }
    ensures errors { IfErr result
        (λ e. (e ≡ TantivyError.IoError) ⊎ (e ≡ TantivyError.OutOfMemory)) }
{
    match directory.atomic_write(alloc, &name, bytes) {
        Ok(()) => Ok(()),
        Err(e) => Err(call_error(CallKind::AtomicWrite, name, e)),
    }
}

/// Has all that was written reach the disk for certain.
pub fn sync_files<D: Directory>(alloc: Global, directory: &mut D) -> TResult<()>
    ensures does { Works (calls synced ∷ []) result (D.state directory.old) (D.state directory.new) }
    ensures files { (D.state directory.new).files ≡ (D.state directory.old).files }
    ensures tells { (D.state directory.new).tells ≡ (D.state directory.old).tells }
    ensures seen { (D.state directory.new).seen ≡ (D.state directory.old).seen ++ seen_syncing result }
    ensures cause { FaultHasCause
        TantivyError.IoError (D.state directory.old).faults (D.state directory.new).faults result }
    ensures errors { IfErr result
        (λ e. (e ≡ TantivyError.IoError) ⊎ (e ≡ TantivyError.OutOfMemory)) }
{
    match directory.sync_directory(alloc) {
        Ok(()) => Ok(()),
        Err(e) => Err(call_error(CallKind::SyncDirectory, FileName::Meta, e)),
    }
}

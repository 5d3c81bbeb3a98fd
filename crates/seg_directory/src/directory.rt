//! A directory of files.
ghost use Rattle.std.specs.Prelude.{IsTrue};
ghost use Rattle.seg_directory.specs.CallResults.{Lists, Reads, Makes, Replaces, Syncs};
ghost use Rattle.seg_directory.specs.DiskChanges.{ReadsAnImage};
ghost use Rattle.seg_directory.specs.DirectoryStates.{DirectoryState};

use crate::DirectoryError;
use seg_common::{FileName, OwnedBytes};
use std::alloc::Global;

/// What keeps the files of an index by their names.
pub trait Directory {
    /// What it has and has answered. A call fails only where the count of faults rose, which stops at `u64::MAX`.
    ghost state: { Self → DirectoryState };

    /// How many files there are.
    fn list(&mut self, alloc: Global) -> Result<u64, DirectoryError>
        ensures { Lists result (state self.old) (state self.new) };

    /// The bytes of a file, shared with those that are kept among the answers.
    fn open_read(&mut self, alloc: Global, name: &FileName) -> Result<OwnedBytes, DirectoryError>
        ensures { Reads name.now result (state self.old) (state self.new) };

    /// Makes a file with these bytes, and has them reach the disk.
    fn write_new(
        &mut self,
        alloc: Global,
        name: &FileName,
        bytes: &[u8],
    ) -> Result<(), DirectoryError>
        ensures { Makes name.now bytes.now result (state self.old) (state self.new) };

    /// Gives a file these bytes, whether it is there or not: at each moment it has its old content or the new one.
    fn atomic_write(
        &mut self,
        alloc: Global,
        name: &FileName,
        bytes: &[u8],
    ) -> Result<(), DirectoryError>
        ensures { Replaces name.now bytes.now result (state self.old) (state self.new) };

    /// Has the names of all files reach the disk, so that no crash undoes what was written before.
    fn sync_directory(&mut self, alloc: Global) -> Result<(), DirectoryError>
        ensures { Syncs result (state self.old) (state self.new) };

    /// A directory whose disk is told reads as one of its images.
    ghost reads: { (d : Self) → IsTrue (state d).disk.told → ReadsAnImage (state d) };
}

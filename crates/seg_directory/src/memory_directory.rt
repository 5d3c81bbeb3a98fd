//! A directory in memory.
ghost use Rattle.std.specs.Prelude.{◌≡◌, ◌≤◌, [], IfOk, IfErr, OnOk};
ghost use Rattle.seg_directory.specs.Disk.{IsImage};
ghost use Rattle.seg_directory.specs.Calls.{listed, read, made, replaced, synced};
ghost use Rattle.seg_directory.specs.CallResults.{Lists, Reads, Makes, Replaces, Syncs};
ghost use Rattle.seg_directory.specs.DiskCalls.{calls_of, disk_after, disk_at, latest_files, no_files, picked, with_put};
ghost use Rattle.seg_directory.specs.FileDisks.{settled};
ghost use Rattle.seg_directory.specs.LatestFiles.{reads_an_image};
ghost use Rattle.seg_directory.specs.MemoryDirectories.{new_memory, memory_state, FailsAsListed, memory_after};

use crate::call_record::CallRecord;
use crate::disk_record::DiskRecord;
use crate::{Answer, CallKind, Directory, DirectoryError, FailingCall, Pick};
use seg_common::{FileName, OwnedBytes};
use std::alloc::Global;
use std::marker::Model;

/// A directory that tells all, keeps a record of its calls, and fails at chosen ones. A call that finds no memory
/// changes nothing, and is neither counted nor in the record.
#[derive(Drop)]
pub struct MemoryDirectory {
    alloc: Global,
    disk: DiskRecord,
    calls: CallRecord,
}

impl Model for MemoryDirectory {
    ghost use Rattle.seg_directory.specs.MemoryDirectories.{MemoryState};

    ghost Value = { MemoryState };

    ghost view = { λ d. record { disk = d.disk.kept; calls = d.calls.calls } };
}

impl MemoryDirectory {
    /// A directory without files. The calls that are listed fail.
    pub fn new(alloc: Global, fails: Vec<FailingCall>) -> Result<MemoryDirectory, DirectoryError>
        ensures ok { IfOk result (λ d. d ≡ new_memory fails.items) }
        ensures err { IfErr result (λ e. e ≡ DirectoryError.OutOfMemory) }
    {
        Ok(MemoryDirectory {
            alloc,
            disk: DiskRecord::new(alloc),
            calls: CallRecord::new(alloc, fails),
        })
    }

    /// Sets a file, for tests: it is safe, and the record of calls begins anew.
    pub fn put(&mut self, name: FileName, bytes: &[u8]) -> Result<(), DirectoryError>
        ensures ok { OnOk result
            (self.new ≡ record self.old { disk = with_put self.old.disk name bytes.now }) }
        ensures err { IfErr result
            (λ e. (e ≡ DirectoryError.OutOfMemory) × (self.new ≡ self.old)) }
    {
        self.disk.make_room()?;
        Ok(self.disk.put(self.alloc, &name, bytes)?)
    }

    /// How many calls there are in the record.
    pub fn calls(&self) -> u64
        ensures { result ≡ calls_of self.now.disk }
    {
        self.disk.count()
    }

    /// What a crash after this many calls of the record may leave: each name in its stable state, or each in its latest
    /// one. It is a directory of its own, of which no call fails.
    pub fn image(
        &self,
        alloc: Global,
        calls: u64,
        pick: Pick,
    ) -> Result<MemoryDirectory, DirectoryError>
        requires { calls ≤ calls_of self.now.disk }
        ensures picked { IfOk result (λ d. latest_files d.disk.calls ≡ picked pick (disk_at self.now.disk calls)) }
        ensures is_image { IfOk result (λ d. IsImage (disk_at self.now.disk calls) (latest_files d.disk.calls)) }
        ensures stable { IfOk result (λ d. disk_after no_files d.disk.calls ≡ settled (latest_files d.disk.calls)) }
        ensures err { IfErr result (λ e. e ≡ DirectoryError.OutOfMemory) }
    {
        let disk = self.disk.image(alloc, calls, pick)?;
        Ok(MemoryDirectory {
            alloc,
            disk,
            calls: CallRecord::new(alloc, Vec::new(alloc)),
        })
    }
}

impl Directory for MemoryDirectory {
    ghost state = { λ d. memory_state d };

    ghost reads = { reads_an_image };

    fn list(&mut self, _alloc: Global) -> Result<u64, DirectoryError>
        ensures does { Lists result (memory_state self.old) (memory_state self.new) }
        ensures fails { FailsAsListed self.old CallKind.List result }
        ensures after { self.new ≡ memory_after listed (listed 0) result self.old }
    {
        self.disk.make_room()?;
        if self.calls.begin(CallKind::List)? {
            self.disk.keep_unchanged();
            return Err(DirectoryError::Fault);
        }
        let number = self.disk.len();
        self.disk.keep_unchanged();
        self.calls.end(CallKind::List, Answer::Listed(number));
        Ok(number)
    }

    fn open_read(&mut self, _alloc: Global, name: &FileName) -> Result<OwnedBytes, DirectoryError>
        ensures does { Reads name.now result (memory_state self.old) (memory_state self.new) }
        ensures fails { FailsAsListed self.old CallKind.OpenRead result }
        ensures after { self.new ≡ memory_after (read name.now) (read name.now []) result self.old }
    {
        self.disk.make_room()?;
        if self.calls.begin(CallKind::OpenRead)? {
            self.disk.keep_unchanged();
            return Err(DirectoryError::Fault);
        }
        match self.disk.get(name) {
            Some(bytes) => {
                let bytes = bytes.share();
                let answer = Answer::Read(*name, bytes.share());
                self.disk.keep_unchanged();
                self.calls.end(CallKind::OpenRead, answer);
                Ok(bytes)
            }
            None => {
                self.disk.keep_unchanged();
                self.calls.end(CallKind::OpenRead, Answer::Missing(*name));
                Err(DirectoryError::Missing)
            }
        }
    }

    #[tactic(auto, using(crate::proofs::OtherFiles::keeps_others))]
    fn write_new(
        &mut self,
        alloc: Global,
        name: &FileName,
        bytes: &[u8],
    ) -> Result<(), DirectoryError>
        ensures does { Makes name.now bytes.now result (memory_state self.old) (memory_state self.new) }
        ensures fails { FailsAsListed self.old CallKind.WriteNew result }
        ensures after { self.new
            ≡ memory_after (λ _. made name.now bytes.now) (made name.now bytes.now) result self.old }
    {
        self.disk.make_room()?;
        if self.calls.begin(CallKind::WriteNew)? {
            self.disk.keep_unchanged();
            return Err(DirectoryError::Fault);
        }
        if self.disk.contains(name) {
            self.disk.keep_unchanged();
            self.calls.end(CallKind::WriteNew, Answer::There(*name));
            return Err(DirectoryError::Exists);
        }
        self.disk.create(alloc, name, bytes)?;
        self.calls.end(CallKind::WriteNew, Answer::Wrote(*name));
        Ok(())
    }

    #[tactic(auto, using(crate::proofs::OtherFiles::keeps_others))]
    fn atomic_write(
        &mut self,
        alloc: Global,
        name: &FileName,
        bytes: &[u8],
    ) -> Result<(), DirectoryError>
        ensures does { Replaces name.now bytes.now result (memory_state self.old) (memory_state self.new) }
        ensures fails { FailsAsListed self.old CallKind.AtomicWrite result }
        ensures after { self.new
            ≡ memory_after (λ _. replaced name.now bytes.now) (replaced name.now bytes.now) result self.old }
    {
        self.disk.make_room()?;
        if self.calls.begin(CallKind::AtomicWrite)? {
            self.disk.keep_unchanged();
            return Err(DirectoryError::Fault);
        }
        self.disk.replace(alloc, name, bytes)?;
        self.calls.end(CallKind::AtomicWrite, Answer::Wrote(*name));
        Ok(())
    }

    fn sync_directory(&mut self, _alloc: Global) -> Result<(), DirectoryError>
        ensures does { Syncs result (memory_state self.old) (memory_state self.new) }
        ensures fails { FailsAsListed self.old CallKind.SyncDirectory result }
        ensures after { self.new ≡ memory_after (λ _. synced) synced result self.old }
    {
        self.disk.make_room()?;
        if self.calls.begin(CallKind::SyncDirectory)? {
            self.disk.keep_unchanged();
            return Err(DirectoryError::Fault);
        }
        self.disk.keep_synced();
        self.calls.end_unkept(CallKind::SyncDirectory);
        Ok(())
    }
}

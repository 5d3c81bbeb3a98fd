//! A directory over a folder of the system.
ghost use Rattle.std.specs.Prelude.{◌≡◌, ◌≢◌, ◌++◌, ◌<◌, ◌≤◌, [], false, IfOk, IfErr};
ghost use Rattle.std.specs.FinMap.{empty};
ghost use Rattle.std.proofs.Common.{sym};
ghost use mathlib.Core.Bool.{true≢false};
ghost use Rattle.seg_common.specs.FaultCounts.{Rose};
ghost use Rattle.seg_directory.specs.AnswerLogs.{noted_failure};
ghost use Rattle.seg_directory.specs.DirectoryStates.{untold};

use crate::answer_log::AnswerLog;
use crate::folder::{count_files, make_file, path_in, read_whole, replace_file, sync_folder};
use crate::last_read::LastRead;
use crate::{Answer, CallKind, Directory, DirectoryError};
use seg_common::{FileName, OwnedBytes};
use std::alloc::{AllocError, Global};
use std::io::ErrorKind;
use std::marker::Model;
use std::rt::Files;

/// A directory over one folder of the system. It tells nothing of the files, which are the system's.
#[derive(Drop)]
pub struct FileDirectory<R: Files> {
    rt: R,
    folder: String,
    last: LastRead,
    log: AnswerLog,
}

impl<R: Files> Model for FileDirectory<R> {
    ghost use Rattle.seg_directory.specs.AnswerLogs.{Kept};

    ghost Value = { Kept };

    ghost view = { λ d. d.log.kept };
}

impl<R: Files + AllocGlobal + Clone + Drop> FileDirectory<R> {
    /// The directory over the folder at this path.
    pub fn new(rt: R, alloc: Global, folder: &str) -> Result<FileDirectory<R>, DirectoryError>
        ensures ok { IfOk result (λ d. d ≡ record { answers = []; faults = 0 }) }
        ensures err { IfErr result (λ e. e ≡ DirectoryError.OutOfMemory) }
    {
        Ok(FileDirectory {
            rt,
            folder: String::from_str(alloc, folder)?,
            last: LastRead::nothing(alloc),
            log: AnswerLog::new(alloc),
        })
    }
}

impl<R: Files + AllocGlobal + Clone + Drop> Directory for FileDirectory<R> {
    ghost state = { λ d. record { tells = false; files = empty; seen = d.answers; faults = d.faults; disk = untold } };

    ghost reads = { λ _ told. absurd (true≢false (sym told)) };

    fn list(&mut self, _alloc: Global) -> Result<u64, DirectoryError> {
        self.log.make_room()?;
        match count_files(&self.rt, self.folder.as_str()) {
            Ok(number) => {
                self.log.keep(Answer::Listed(number));
                Ok(number)
            }
            Err(e) => Err(failure(&mut self.log, CallKind::List, e.kind())),
        }
    }

    fn open_read(&mut self, alloc: Global, name: &FileName) -> Result<OwnedBytes, DirectoryError> {
        self.log.make_room()?;
        let path = path_of(alloc, self.folder.as_str(), name)?;
        match read_whole(&self.rt, alloc, path.as_str()) {
            Ok(bytes) => {
                let bytes = self.last.kept(alloc, name, bytes)?;
                self.log.keep(Answer::Read(*name, bytes.share()));
                Ok(bytes)
            }
            Err(e) if e.kind() == ErrorKind::NotFound => {
                self.log.keep(Answer::Missing(*name));
                Err(DirectoryError::Missing)
            }
            Err(e) => Err(failure(&mut self.log, CallKind::OpenRead, e.kind())),
        }
    }

    fn write_new(
        &mut self,
        alloc: Global,
        name: &FileName,
        bytes: &[u8],
    ) -> Result<(), DirectoryError> {
        self.log.make_room()?;
        let path = path_of(alloc, self.folder.as_str(), name)?;
        match make_file(&self.rt, path.as_str(), bytes) {
            Ok(()) => {
                self.log.keep(Answer::Wrote(*name));
                Ok(())
            }
            Err(e) if e.kind() == ErrorKind::AlreadyExists => {
                self.log.keep(Answer::There(*name));
                Err(DirectoryError::Exists)
            }
            Err(e) => Err(failure(&mut self.log, CallKind::WriteNew, e.kind())),
        }
    }

    fn atomic_write(
        &mut self,
        alloc: Global,
        name: &FileName,
        bytes: &[u8],
    ) -> Result<(), DirectoryError> {
        self.log.make_room()?;
        let folder = self.folder.as_str();
        let path = path_of(alloc, folder, name)?;
        match replace_file(&self.rt, alloc, folder, path.as_str(), bytes) {
            Ok(()) => {
                self.log.keep(Answer::Wrote(*name));
                Ok(())
            }
            Err(e) => Err(failure(&mut self.log, CallKind::AtomicWrite, e.kind())),
        }
    }

    fn sync_directory(&mut self, _alloc: Global) -> Result<(), DirectoryError> {
        self.log.make_room()?;
        match sync_folder(&self.rt, self.folder.as_str()) {
            Ok(()) => Ok(()),
            Err(e) => Err(failure(&mut self.log, CallKind::SyncDirectory, e.kind())),
        }
    }
}

/// The path of a file.
fn path_of(alloc: Global, folder: &str, name: &FileName) -> Result<String, AllocError> {
    match name.text(alloc) {
        Ok(text) => path_in(alloc, folder, text.as_str()),
        Err(_) => Err(AllocError),
    }
}

/// Notes an error of the system: a fault, unless it is out of memory.
fn failure(log: &mut AnswerLog, kind: CallKind, error: ErrorKind) -> DirectoryError
    requires { 0 < log.old.room }
    ensures seen { log.new.kept.answers ≡ log.old.kept.answers ++ noted_failure kind result }
    ensures later { log.old.kept.faults ≤ log.new.kept.faults }
    ensures fault { result ≡ DirectoryError.Fault → Rose log.old.kept.faults log.new.kept.faults }
    ensures not_missing { result ≢ DirectoryError.Missing }
    ensures not_exists { result ≢ DirectoryError.Exists }
{
    if error == ErrorKind::OutOfMemory {
        return DirectoryError::OutOfMemory;
    }
    log.fail(kind);
    DirectoryError::Fault
}

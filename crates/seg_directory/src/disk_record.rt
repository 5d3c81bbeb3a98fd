//! The files of a directory in memory, with the record of its calls.
ghost use Rattle.std.specs.Prelude.{◌≡◌, ◌<◌, ◌≤◌, [], is_some, IfOk, OnOk, OnErr};
ghost use Rattle.std.specs.Option.{option_copied};
ghost use Rattle.std.specs.FinMap.{get, len};
ghost use Rattle.seg_directory.specs.DiskCalls.{latest_files, with_disk_call, with_put, calls_of, disk_at, disk_after, after_call, picked, no_files};
ghost use Rattle.seg_directory.specs.FileDisks.{settled};

use crate::stored_files::StoredFiles;
use crate::{DiskCall, Pick};
use seg_common::{FileName, OwnedBytes};
use std::alloc::{AllocError, Global};
use std::marker::Model;

/// The files as they are read, and the calls that made them. Room for a call is taken before it acts.
#[derive(Drop)]
pub(crate) struct DiskRecord {
    files: StoredFiles,
    calls: Vec<DiskCall>,
    before: usize,
}

impl Model for DiskRecord {
    ghost use Rattle.std.specs.Prelude.{◌≡◌, ◌≤◌, ◌-◌, length, vec_len, vec_capacity};
    ghost use Rattle.seg_directory.specs.DiskCalls.{DiskRecordState, latest_files};

    ghost Value = { DiskRecordState };

    ghost view = { λ r. record {
      kept = record { calls = r.calls.items; before = r.before };
      room = vec_capacity r.calls - vec_len r.calls;
    } };

    ghost invariant = { λ r. (r.files ≡ latest_files r.calls.items) × (r.before ≤ length r.calls.items) };
}

impl DiskRecord {
    pub(crate) fn new(alloc: Global) -> DiskRecord
        ensures { result.kept ≡ record { calls = []; before = 0 } }
    {
        DiskRecord {
            files: StoredFiles::none(alloc),
            calls: Vec::new(alloc),
            before: 0,
        }
    }

    pub(crate) fn len(&self) -> u64
        ensures { result ≡ len (latest_files self.now.kept.calls) }
    {
        self.files.len()
    }

    pub(crate) fn contains(&self, name: &FileName) -> bool
        ensures { result ≡ is_some (get (latest_files self.now.kept.calls) name.now) }
    {
        self.files.contains(name)
    }

    /// The bytes of a file.
    pub(crate) fn get(&self, name: &FileName) -> Option<&OwnedBytes>
        ensures { option_copied result ≡ get (latest_files self.now.kept.calls) name.now }
    {
        self.files.get(name)
    }

    /// Takes room for a call.
    pub(crate) fn make_room(&mut self) -> Result<(), AllocError>
        ensures room { OnOk result (0 < self.new.room) }
        ensures same { self.new.kept ≡ self.old.kept }
    {
        self.calls.reserve(1)
    }

    /// Keeps a call that changed nothing.
    pub(crate) fn keep_unchanged(&mut self)
        requires { 0 < self.old.room }
        ensures { self.new.kept ≡ with_disk_call self.old.kept DiskCall.Unchanged }
    {
        if self.calls.push(DiskCall::Unchanged).is_err() {
            unreachable!()
        }
    }

    /// Keeps a syncing.
    pub(crate) fn keep_synced(&mut self)
        requires { 0 < self.old.room }
        ensures { self.new.kept ≡ with_disk_call self.old.kept DiskCall.Synced }
    {
        if self.calls.push(DiskCall::Synced).is_err() {
            unreachable!()
        }
    }

    /// Makes a file, and keeps the call.
    pub(crate) fn create(
        &mut self,
        alloc: Global,
        name: &FileName,
        bytes: &[u8],
    ) -> Result<(), AllocError>
        requires { 0 < self.old.room }
        ensures ok { OnOk result (self.new.kept ≡ with_disk_call self.old.kept (DiskCall.Created name.now bytes.now)) }
        ensures err { OnErr result (self.new.kept ≡ self.old.kept) }
    {
        let kept = owned(alloc, bytes)?;
        self.files.put(*name, kept.share())?;
        if self.calls.push(created(*name, kept)).is_err() {
            unreachable!()
        }
        Ok(())
    }

    /// Gives a file these bytes, whether it is there or not, and keeps the call.
    pub(crate) fn replace(
        &mut self,
        alloc: Global,
        name: &FileName,
        bytes: &[u8],
    ) -> Result<(), AllocError>
        requires { 0 < self.old.room }
        ensures ok { OnOk result (self.new.kept ≡ with_disk_call self.old.kept (DiskCall.Replaced name.now bytes.now)) }
        ensures err { OnErr result (self.new.kept ≡ self.old.kept) }
    {
        let kept = owned(alloc, bytes)?;
        self.files.put(*name, kept.share())?;
        if self.calls.push(replaced(*name, kept)).is_err() {
            unreachable!()
        }
        Ok(())
    }

    /// Sets a file, which is then stable, and begins the record anew.
    pub(crate) fn put(
        &mut self,
        alloc: Global,
        name: &FileName,
        bytes: &[u8],
    ) -> Result<(), AllocError>
        requires { 0 < self.old.room }
        ensures ok { OnOk result (self.new.kept ≡ with_put self.old.kept name.now bytes.now) }
        ensures err { OnErr result (self.new.kept ≡ self.old.kept) }
    {
        let kept = owned(alloc, bytes)?;
        self.files.put(*name, kept.share())?;
        if self.calls.push(put(*name, kept)).is_err() {
            unreachable!()
        }
        let end = self.calls.len();
        self.before = end;
        Ok(())
    }

    /// How many calls there are in the record.
    pub(crate) fn count(&self) -> u64
        ensures { result ≡ calls_of self.now.kept }
    {
        (self.calls.len() - self.before) as u64
    }

    /// The files that a crash after this many calls of the record may leave, all of them stable.
    pub(crate) fn image(
        &self,
        alloc: Global,
        number: u64,
        pick: Pick,
    ) -> Result<DiskRecord, AllocError>
        requires { number ≤ calls_of self.now.kept }
        ensures { IfOk result (λ r. disk_after no_files r.kept.calls
            ≡ settled (picked pick (disk_at self.now.kept number))) }
    {
        image_after(alloc, &self.calls[..self.before + number as usize], pick)
    }
}

fn created(name: FileName, bytes: OwnedBytes) -> DiskCall
    ensures { result ≡ DiskCall.Created name bytes }
{
    DiskCall::Created(name, bytes)
}

fn replaced(name: FileName, bytes: OwnedBytes) -> DiskCall
    ensures { result ≡ DiskCall.Replaced name bytes }
{
    DiskCall::Replaced(name, bytes)
}

fn put(name: FileName, bytes: OwnedBytes) -> DiskCall
    ensures { result ≡ DiskCall.Put name bytes }
{
    DiskCall::Put(name, bytes)
}

fn owned(alloc: Global, bytes: &[u8]) -> Result<OwnedBytes, AllocError>
    ensures { IfOk result (λ kept. kept ≡ bytes.now) }
{
    match OwnedBytes::new(alloc, bytes) {
        Ok(kept) => Ok(kept),
        Err(_) => Err(AllocError),
    }
}

/// One more file, which is stable.
fn with_file(
    mut files: DiskRecord,
    alloc: Global,
    name: &FileName,
    bytes: &[u8],
) -> Result<DiskRecord, AllocError>
    ensures { IfOk result (λ r. disk_after no_files r.kept.calls
        ≡ after_call (disk_after no_files files.kept.calls) (DiskCall.Put name.now bytes.now)) }
{
    files.make_room()?;
    files.put(alloc, name, bytes)?;
    Ok(files)
}

/// What of the calls is stable, or was done at the latest.
fn image_after(alloc: Global, calls: &[DiskCall], pick: Pick) -> Result<DiskRecord, AllocError>
    ensures { IfOk result (λ r. disk_after no_files r.kept.calls
        ≡ settled (picked pick (disk_after no_files calls.now))) }
{
    let count = calls.len();
    if count == 0 {
        return Ok(DiskRecord::new(alloc));
    }
    let earlier = &calls[..count - 1];
    match &calls[count - 1] {
        DiskCall::Put(name, bytes) => {
            let files = image_after(alloc, earlier, pick)?;
            with_file(files, alloc, name, bytes.as_slice())
        }
        DiskCall::Unchanged => image_after(alloc, earlier, pick),
        DiskCall::Created(name, bytes) => match pick {
            Pick::Stable => image_after(alloc, earlier, Pick::Stable),
            Pick::Latest => {
                let files = image_after(alloc, earlier, Pick::Latest)?;
                with_file(files, alloc, name, bytes.as_slice())
            }
        },
        DiskCall::Replaced(name, bytes) => match pick {
            Pick::Stable => image_after(alloc, earlier, Pick::Stable),
            Pick::Latest => {
                let files = image_after(alloc, earlier, Pick::Latest)?;
                with_file(files, alloc, name, bytes.as_slice())
            }
        },
        DiskCall::Synced => image_after(alloc, earlier, Pick::Latest),
    }
}

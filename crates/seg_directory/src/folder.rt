//! What a directory does in a folder of the system. No clause speaks of what the system keeps.

use std::alloc::{AllocError, Global};
use std::fs::{self, File, OpenFile};
use std::io::{self, Read, Write};
use std::rt::Files;

/// The file that becomes another one's new content. It isn't a file of the directory.
const UNFINISHED: &str = ".unfinished";

/// The path of a file in a folder.
pub(crate) fn path_in(alloc: Global, folder: &str, name: &str) -> Result<String, AllocError> {
    format!(in alloc; "{folder}/{name}")
}

/// How many files there are: all but folders and the unfinished file.
pub(crate) fn count_files<R: Files + AllocGlobal + Clone + Drop>(
    rt: &R,
    folder: &str,
) -> io::Result<u64> {
    let mut number = 0u64;
    for entry in fs::read_dir(rt, folder)? {
        let entry = entry?;
        if entry.file_name() != UNFINISHED && !entry.file_type()?.is_dir() {
            number = number.saturating_add(1);
        }
    }
    Ok(number)
}

/// The bytes of a file, in room for as many as it has.
pub(crate) fn read_whole<R: Files>(rt: &R, alloc: Global, path: &str) -> io::Result<Vec<u8>> {
    let mut file = File::open(rt, path)?;
    let length = usize::try_from(file.metadata()?.len()).unwrap_or(0);
    // one more, by which the end is found without more room
    let mut bytes = Vec::with_capacity(alloc, length.saturating_add(1))?;
    file.read_to_end(&mut bytes)?;
    Ok(bytes)
}

/// Makes a file, which must not be there, and has its bytes reach the disk.
pub(crate) fn make_file<R: Files>(rt: &R, path: &str, bytes: &[u8]) -> io::Result<()> {
    let mut file = File::create_new(rt, path)?;
    file.write_all(bytes)?;
    file.sync_all()
}

/// Has the bytes reach the disk in the unfinished file, which then takes the name of the other in one step.
pub(crate) fn replace_file<R: Files>(
    rt: &R,
    alloc: Global,
    folder: &str,
    path: &str,
    bytes: &[u8],
) -> io::Result<()> {
    let unfinished = path_in(alloc, folder, UNFINISHED)?;
    let mut file = File::create(rt, unfinished.as_str())?;
    file.write_all(bytes)?;
    file.sync_all()?;
    fs::rename(rt, unfinished.as_str(), path)
}

/// Has the names in a folder reach the disk.
pub(crate) fn sync_folder<R: Files>(rt: &R, folder: &str) -> io::Result<()> {
    fs::open(rt, folder)?.sync_all()
}

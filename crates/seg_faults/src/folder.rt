//! Files in a folder of the system.

use seg_common::{FileName, SegmentComponent, SegmentId};
use seg_directory::{
    Directory, FileDirectory, list_files, read_file, rewrite_file, sync_files, write_file,
};
use seg_values::TantivyError;
use std::alloc::Global;
use std::rt::Files;
use std::{fs, io};

/// The file of terms of a segment.
fn terms() -> FileName {
    FileName::Part(SegmentId::from_u128(7), SegmentComponent::Terms)
}

/// Whether the file has these bytes.
fn has<D: Directory>(alloc: Global, directory: &mut D, name: FileName, bytes: &[u8]) -> bool {
    match read_file(alloc, directory, name) {
        Ok(found) => found.as_slice() == bytes,
        Err(_) => false,
    }
}

/// Whether the file of terms, which is missing, is made once.
fn makes_terms_once<D: Directory>(alloc: Global, directory: &mut D) -> bool {
    read_file(alloc, directory, terms()).is_err()
        && write_file(alloc, directory, terms(), b"terms").is_ok()
        && write_file(alloc, directory, terms(), b"other") == Err(TantivyError::IndexAlreadyExists)
        && has(alloc, directory, terms(), b"terms")
}

/// Whether the meta is replaced by these bytes, and the directory synced.
fn is_replaced<D: Directory>(alloc: Global, directory: &mut D, bytes: &[u8]) -> bool {
    rewrite_file(alloc, directory, FileName::Meta, bytes).is_ok()
        && sync_files(alloc, directory).is_ok()
        && has(alloc, directory, FileName::Meta, bytes)
}

/// Whether a new directory takes the file of terms, and then a meta twice.
fn keeps_files<D: Directory>(alloc: Global, directory: &mut D) -> bool {
    list_files(alloc, directory) == Ok(0)
        && makes_terms_once(alloc, directory)
        && is_replaced(alloc, directory, b"old")
        && is_replaced(alloc, directory, b"new")
        && list_files(alloc, directory) == Ok(2)
}

/// Makes a folder, without what an earlier run may have left in it.
fn fresh<R: Files + Alloc>(rt: &R, path: &str) -> io::Result<()> {
    let _left_over = fs::remove_dir_all(rt, path);
    fs::create_dir(rt, path)
}

/// Whether a folder takes the file of terms once, under its name, and a meta twice.
fn is_kept<R: Files + AllocGlobal + Clone + Drop>(rt: &R) -> io::Result<bool> {
    fresh(rt, "seg_faults_kept")?;
    let Ok(mut directory) = FileDirectory::new(rt.clone()?, rt.alloc(), "seg_faults_kept") else {
        return Ok(false);
    };
    let is_kept = keeps_files(rt.alloc(), &mut directory);
    let terms = fs::read(rt, "seg_faults_kept/00000000000000000000000000000007.term")?;
    fs::remove_dir_all(rt, "seg_faults_kept")?;
    Ok(is_kept && terms.as_slice() == b"terms".as_slice())
}

/// Makes a folder with another folder in the place of a file, a file that a cut-off run left, and one that isn't of an
/// index.
fn left_over<R: Files + Alloc>(rt: &R) -> io::Result<()> {
    fresh(rt, "seg_faults_left")?;
    fs::create_dir(rt, "seg_faults_left/00000000000000000000000000000007.term")?;
    fs::write(rt, "seg_faults_left/.unfinished", b"cut off, and longer")?;
    fs::write(rt, "seg_faults_left/notes", b"")
}

/// Whether one file is listed, a meta takes the place of what was cut off, and the other folder is no file of terms.
fn goes_on<D: Directory>(alloc: Global, directory: &mut D) -> bool {
    list_files(alloc, directory) == Ok(1)
        && is_replaced(alloc, directory, b"new")
        && read_file(alloc, directory, terms()).err() == Some(TantivyError::OpenReadError)
}

/// Whether a run goes on beside what was left.
fn is_left_over<R: Files + AllocGlobal + Clone + Drop>(rt: &R) -> io::Result<bool> {
    left_over(rt)?;
    let Ok(mut directory) = FileDirectory::new(rt.clone()?, rt.alloc(), "seg_faults_left") else {
        return Ok(false);
    };
    let goes_on = goes_on(rt.alloc(), &mut directory);
    fs::remove_dir_all(rt, "seg_faults_left")?;
    Ok(goes_on)
}

/// Whether each call tells that the folder is absent.
fn is_absent<D: Directory>(alloc: Global, directory: &mut D) -> bool {
    let missing = TantivyError::DataCorruption { name: terms() };
    list_files(alloc, directory) == Err(TantivyError::OpenReadError)
        && write_file(alloc, directory, terms(), b"new") == Err(TantivyError::OpenWriteError)
        && rewrite_file(alloc, directory, FileName::Meta, b"new") == Err(TantivyError::IoError)
        && sync_files(alloc, directory) == Err(TantivyError::IoError)
        && read_file(alloc, directory, terms()).err() == Some(missing)
}

/// Whether no folder is needed for that.
fn is_told<R: Files + AllocGlobal + Clone + Drop>(rt: &R) -> io::Result<bool> {
    match FileDirectory::new(rt.clone()?, rt.alloc(), "seg_faults_absent") {
        Ok(mut directory) => Ok(is_absent(rt.alloc(), &mut directory)),
        Err(_) => Ok(false),
    }
}

#[test]
fn folders_of_the_system(rt: HostRuntime) {
    assert!(rt; is_kept(&rt).is_ok_and(|is| is));
    assert!(rt; is_left_over(&rt).is_ok_and(|is| is));
    assert!(rt; is_told(&rt).is_ok_and(|is| is));
}

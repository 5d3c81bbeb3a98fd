//! A build over a work directory that answers other bytes than it was given: they are what is merged and printed.

use crate::directories::memory;
use crate::odd_directory::OddDirectory;
use crate::word_run::{both_segments, outcome, script_of_titles};
use seg_common::{FileName, SegmentComponent, SegmentId};
use seg_directory::Directory;
use std::alloc::{AllocError, Global};

/// The file of the stored documents of the work segment.
fn store() -> FileName {
    FileName::Part(SegmentId::from_u128(1), SegmentComponent::Store)
}

/// A script of one document with this title.
fn script_of(alloc: Global, title: &str) -> Result<String, AllocError> {
    let addition = format!(in alloc; r#"{{"add": [["title", "{title}"]]}}"#)?;
    script_of_titles(alloc, addition.as_str())
}

/// The stored documents of a segment of one document with the title `b`.
fn store_of_b(alloc: Global) -> Result<Vec<u8>, AllocError> {
    let script = script_of(alloc, "b")?;
    let mut work = memory(alloc)?;
    let mut output = memory(alloc)?;
    let _outcome = outcome(alloc, "build", script.as_str(), &mut work, &mut output)?;
    match work.open_read(alloc, &store()) {
        Ok(bytes) => Vec::from_slice(alloc, bytes.as_slice()),
        Err(_) => Err(AllocError),
    }
}

/// What comes of a build of the title `a`, of whose stored documents the work directory answers these bytes.
fn outcome_with(alloc: Global, other: Vec<u8>) -> Result<Vec<u8>, AllocError> {
    let script = script_of(alloc, "a")?;
    let mut work = OddDirectory {
        inner: memory(alloc)?,
        name: store(),
        other,
    };
    let mut output = memory(alloc)?;
    outcome(alloc, "build", script.as_str(), &mut work, &mut output)
}

/// Whether the other title is printed of both segments.
fn is_read_back(alloc: Global) -> Result<bool, AllocError> {
    let lines = "field \"title\" terms 1\na 0x1@0\ndoc 0 [[\"title\",\"b\"]]\n";
    let text = both_segments(alloc, 1, lines)?;
    let outcome = outcome_with(alloc, store_of_b(alloc)?)?;
    Ok(outcome.as_slice().strip_prefix(b"0\n") == Some(text.as_bytes()))
}

/// Whether a file that has no byte is told as damaged.
fn is_damaged(alloc: Global) -> Result<bool, AllocError> {
    let outcome = outcome_with(alloc, Vec::new(alloc))?;
    let text = b"7\ndamaged: 00000000000000000000000000000001.store\n";
    Ok(outcome.as_slice() == text.as_slice())
}

#[test]
fn what_the_work_directory_answers_is_merged_and_printed(rt: HostRuntime) {
    assert!(rt; is_read_back(rt.alloc()) == Ok(true));
    assert!(rt; is_damaged(rt.alloc()) == Ok(true));
}

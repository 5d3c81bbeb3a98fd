//! What a crash leaves of the output of a build and of a merge, call by call.
ghost use Rattle.std.specs.Prelude.{◌≤◌};
ghost use Rattle.seg_directory.specs.DiskCalls.{calls_of};

use crate::directories::{failing, memory};
use crate::word_run::{outcome, script_of_titles};
use seg_directory::{CallKind, FailingCall, MemoryDirectory, Pick};
use std::alloc::{AllocError, Global};

/// A document, the deletion of it, and the same document again.
const OPERATIONS: &str =
    r#"{"add": [["title", "a"]]}, {"delete": ["title", "a"]}, {"add": [["title", "a"]]}"#;

/// How `show` begins over the output of a build, and over that of a merge.
const BUILT: &[u8] = b"0\nsegment 00000000000000000000000000000002 docs 1 alive 1\n";

const MERGED: &[u8] = b"0\nsegment ffffffffffffffffffffffffffffffff docs 1 alive 1\n";

/// What `show` says about a directory: `-` no index, `0` the empty one, `1` the whole.
fn mark_of(alloc: Global, directory: &mut MemoryDirectory) -> Result<char, AllocError> {
    let mut other = memory(alloc)?;
    let shown = outcome(alloc, "show", "", directory, &mut other)?;
    let shown = shown.as_slice();
    if shown == b"7\ndamaged: meta.json\n".as_slice() {
        Ok('-')
    } else if shown == b"0\n".as_slice() {
        Ok('0')
    } else if shown.starts_with(BUILT) || shown.starts_with(MERGED) {
        Ok('1')
    } else {
        Ok('?')
    }
}

/// What a crash after this many calls leaves.
fn mark(alloc: Global, output: &MemoryDirectory, calls: u64, pick: Pick) -> Result<char, AllocError>
    requires { calls ≤ calls_of output.now.disk }
{
    match output.image(alloc, calls, pick) {
        Ok(mut image) => mark_of(alloc, &mut image),
        Err(_) => Err(AllocError),
    }
}

/// The same for each number of calls.
fn marks(alloc: Global, output: &MemoryDirectory, pick: Pick) -> Result<String, AllocError> {
    let mut marks = String::new(alloc);
    for calls in 0..=output.calls() {
        marks.push(mark(alloc, output, calls, pick)?)?;
    }
    Ok(marks)
}

/// Builds the index of the operations.
fn build(
    alloc: Global,
    work: &mut MemoryDirectory,
    output: &mut MemoryDirectory,
) -> Result<(), AllocError> {
    let script = script_of_titles(alloc, OPERATIONS)?;
    let _outcome = outcome(alloc, "build", script.as_str(), work, output)?;
    Ok(())
}

/// Builds an index whose output fails at these calls, and says what each crash leaves of it.
fn after_build(alloc: Global, fails: &[FailingCall], pick: Pick) -> Result<String, AllocError> {
    let mut work = memory(alloc)?;
    let mut output = failing(alloc, fails)?;
    build(alloc, &mut work, &mut output)?;
    marks(alloc, &output, pick)
}

/// Builds an index, merges its work index into another output, and says what each crash leaves of that.
fn after_merge(alloc: Global, pick: Pick) -> Result<String, AllocError> {
    let mut work = memory(alloc)?;
    let mut output = memory(alloc)?;
    build(alloc, &mut work, &mut output)?;
    let mut merged = memory(alloc)?;
    let _outcome = outcome(alloc, "merge", "", &mut work, &mut merged)?;
    marks(alloc, &merged, pick)
}

/// Whether an answer is this text.
fn is_text(answer: Result<String, AllocError>, text: &str) -> bool {
    match answer {
        Ok(marks) => marks.as_str() == text,
        Err(_) => false,
    }
}

/// The output is listed twice, synced, gets the empty meta and six files, is synced, gets its meta, and is synced; that
/// of a merge is listed once. Then its meta and six files are read to be printed.
#[test]
fn each_call_of_a_build_and_of_a_merge(rt: HostRuntime) {
    assert!(rt;
        is_text(
            after_build(rt.alloc(), &[], Pick::Stable),
            "-----------0011111111"
        )
    );
    assert!(rt;
        is_text(
            after_build(rt.alloc(), &[], Pick::Latest),
            "----00000000111111111"
        )
    );
    assert!(rt;
        is_text(
            after_merge(rt.alloc(), Pick::Stable),
            "----------0011111111"
        )
    );
    assert!(rt;
        is_text(
            after_merge(rt.alloc(), Pick::Latest),
            "---00000000111111111"
        )
    );
}

/// The third file can't be made: the empty meta may have reached the disk, or not.
#[test]
fn a_file_that_fails(rt: HostRuntime) {
    let kind = CallKind::WriteNew;
    let fails = [FailingCall { kind, number: 2 }];
    assert!(rt; is_text(after_build(rt.alloc(), &fails, Pick::Stable), "--------"));
    assert!(rt; is_text(after_build(rt.alloc(), &fails, Pick::Latest), "----0000"));
}

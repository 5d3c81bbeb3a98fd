//! Streams that fail in the middle of a build.

use crate::directories::memory;
use crate::word_run::{Limits, WHOLE, both_segments, run_word, script_of_titles, streams_over};
use std::alloc::{AllocError, Global};

/// Whether bytes are the front, of this length, of the text of an index without documents.
fn are_front(alloc: Global, bytes: &[u8], length: usize) -> Result<bool, AllocError> {
    let text = both_segments(alloc, 0, "field \"title\" terms 0\n")?;
    Ok(bytes.len() == length && text.as_bytes().starts_with(bytes))
}

/// Whether a build over such streams ends with `Stream`, says this, and has printed this many bytes.
fn stream_fails(
    alloc: Global,
    limits: Limits,
    said: &str,
    written: usize,
) -> Result<bool, AllocError> {
    let script = script_of_titles(alloc, "")?;
    let mut streams = streams_over(alloc, script.as_str(), limits)?;
    let mut work = memory(alloc)?;
    let mut output = memory(alloc)?;
    let number = run_word(alloc, "build", &mut streams, &mut work, &mut output)?;
    let is_said = streams.faults.bytes() == said.as_bytes();
    Ok(number == 8 && is_said && are_front(alloc, streams.sink.bytes(), written)?)
}

#[test]
fn says_which_stream_failed(rt: HostRuntime) {
    let line = "stream: read or write failed\n";
    let (read, write, room) = (0, 1, 50);
    for (limits, said, written) in [
        (Limits { read, ..WHOLE }, line, 0),
        (Limits { write: 0, ..WHOLE }, line, 0),
        (
            Limits {
                write,
                room,
                ..WHOLE
            },
            line,
            50,
        ),
        (
            Limits {
                read,
                line: 0,
                ..WHOLE
            },
            "",
            0,
        ),
    ] {
        let fails = stream_fails(rt.alloc(), limits, said, written);
        assert!(rt; fails == Ok(true), "{said} {written}");
    }
}

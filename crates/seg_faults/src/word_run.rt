//! Runs of one word over streams in memory.

use seg_common::{MemorySink, MemorySource};
use seg_directory::Directory;
use seg_tokens::{DefaultTokenizer, TokenizerManager};
use seg_tool::run;
use std::alloc::{AllocError, Global};

const ENTRY: &str =
    r#""kind": "text", "stored": true, "index": "positions", "tokenizer": "default""#;

/// The call of each stream that fails, and how many bytes the text may have.
#[derive(Clone, Copy)]
pub(crate) struct Limits {
    pub read: u64,
    pub write: u64,
    pub line: u64,
    pub room: usize,
}

/// Calls that no run comes to.
pub(crate) const WHOLE: Limits = Limits {
    read: u64::MAX,
    write: u64::MAX,
    line: u64::MAX,
    room: 2000,
};

/// What is read, and where the text and the line on its status go.
#[derive(Drop)]
pub(crate) struct Streams {
    pub source: MemorySource,
    pub sink: MemorySink,
    pub faults: MemorySink,
}

/// Streams over a script.
pub(crate) fn streams_over(
    alloc: Global,
    script: &str,
    limits: Limits,
) -> Result<Streams, AllocError> {
    Ok(Streams {
        source: MemorySource::new(alloc, script.as_bytes(), vec![in alloc; limits.read]?)?,
        sink: sink_of(alloc, limits.room, limits.write)?,
        faults: sink_of(alloc, 200, limits.line)?,
    })
}

/// A sink of which one call fails.
fn sink_of(alloc: Global, room: usize, fails: u64) -> Result<MemorySink, AllocError> {
    MemorySink::new(alloc, room, vec![in alloc; fails]?)
}

/// The number of a run of a word over the streams.
pub(crate) fn run_word<W: Directory, O: Directory>(
    alloc: Global,
    word: &str,
    streams: &mut Streams,
    work: &mut W,
    output: &mut O,
) -> Result<u8, AllocError> {
    let words = vec![in alloc; String::from_str(alloc, word)?]?;
    let mut analyzers = TokenizerManager::new(alloc);
    analyzers.register("default", Box::new(alloc, DefaultTokenizer)?)?;
    let status = run(
        alloc,
        &words,
        &mut streams.source,
        &mut streams.sink,
        &mut streams.faults,
        &analyzers,
        work,
        output,
    );
    Ok(status.number())
}

/// What a run of a word over a script ends with and says: the number in a line, the line on the status, and the text.
pub(crate) fn outcome<W: Directory, O: Directory>(
    alloc: Global,
    word: &str,
    script: &str,
    work: &mut W,
    output: &mut O,
) -> Result<Vec<u8>, AllocError> {
    let mut streams = streams_over(alloc, script, WHOLE)?;
    let number = run_word(alloc, word, &mut streams, work, output)?;
    let first = format!(in alloc; "{number}\n")?;
    let mut outcome = Vec::from_slice(alloc, first.as_bytes())?;
    outcome.extend_from_slice(streams.faults.bytes())?;
    outcome.extend_from_slice(streams.sink.bytes())?;
    Ok(outcome)
}

/// A script of one field `title`.
pub(crate) fn script_of_titles(alloc: Global, operations: &str) -> Result<String, AllocError> {
    format!(in alloc;
        r#"{{"schema": [{{"name": "title", {ENTRY}}}], "operations": [{operations}]}}"#
    )
}

/// The text of two segments with this many documents and the same lines.
pub(crate) fn both_segments(
    alloc: Global,
    documents: usize,
    lines: &str,
) -> Result<String, AllocError> {
    format!(in alloc;
        "work 00000000000000000000000000000001 docs {documents} alive {documents}\n{lines}\
         output 00000000000000000000000000000002 docs {documents} alive {documents}\n{lines}"
    )
}

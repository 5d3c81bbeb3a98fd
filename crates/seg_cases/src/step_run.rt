//! A step is run over directories in memory.

use crate::case::{text_if_there, words};
use crate::failure::Failure;
use seg_common::{FileName, MemorySink, MemorySource};
use seg_directory::{FailingCall, MemoryDirectory};
use seg_tokens::{DefaultTokenizer, RawTokenizer, TokenizerManager, WhitespaceTokenizer};
use seg_tool::run;
use std::alloc::{AllocError, Global};
use std::fs;
use std::rt::Files;

/// The most bytes that a step prints.
const ROOM: usize = 1 << 20;

/// A call that fails in the directory of a name: `work`, `output`, or `fresh`, an output directory that was emptied.
#[derive(Clone, Copy)]
pub(crate) struct Failing<'a> {
    pub directory: &'a str,
    pub call: FailingCall,
}

/// The directories that the steps of a case share.
#[derive(Drop)]
pub(crate) struct Directories<'a> {
    work: MemoryDirectory,
    output: MemoryDirectory,
    failing: Option<Failing<'a>>,
}

impl Directories<'_> {
    /// Directories without files, of which a call may fail.
    pub(crate) fn new(
        alloc: Global,
        failing: Option<Failing<'_>>,
    ) -> Result<Directories<'_>, Failure> {
        Ok(Directories {
            work: directory(alloc, "work", failing)?,
            output: directory(alloc, "output", failing)?,
            failing,
        })
    }

    /// Runs a step, and answers what it prints, with its status and the line on standard error before it where it isn't
    /// done.
    pub(crate) fn outcome<R: Files + AllocGlobal>(
        &mut self,
        rt: &R,
        step: &str,
    ) -> Result<String, Failure> {
        self.prepare(rt, step)?;
        let words = words(rt, step)?;
        let script = fs::read(rt, format!(in rt.alloc(); "{step}.json")?)?;
        outcome(
            rt.alloc(),
            &words,
            &script,
            &mut self.work,
            &mut self.output,
        )
    }

    /// Does what is to be done before a step.
    fn prepare<R: Files + AllocGlobal>(&mut self, rt: &R, step: &str) -> Result<(), Failure> {
        if fs::exists(rt, format!(in rt.alloc(); "{step}.fresh")?)? {
            self.output = directory(rt.alloc(), "fresh", self.failing)?;
        }
        if let Some(meta) = text_if_there(rt, step, "meta")? {
            self.work.put(FileName::Meta, meta.as_bytes())?;
        }
        Ok(())
    }
}

/// A directory without files. The call fails if it is one of the directory of this name.
pub(crate) fn directory(
    alloc: Global,
    name: &str,
    failing: Option<Failing<'_>>,
) -> Result<MemoryDirectory, Failure> {
    let mut fails = Vec::new(alloc);
    match failing {
        Some(failing) if failing.directory == name => fails.push(failing.call)?,
        _ => {}
    }
    Ok(MemoryDirectory::new(alloc, fails)?)
}

/// What the words print over a script, with the status and the line on standard error before it where they aren't done.
pub(crate) fn outcome(
    alloc: Global,
    words: &[String],
    script: &[u8],
    work: &mut MemoryDirectory,
    output: &mut MemoryDirectory,
) -> Result<String, Failure> {
    let mut sink = MemorySink::new(alloc, ROOM, Vec::new(alloc))?;
    let mut faults = MemorySink::new(alloc, ROOM, Vec::new(alloc))?;
    let number = run_words(alloc, words, script, &mut sink, &mut faults, work, output)?;
    let (Ok(line), Ok(text)) = (str::from_utf8(faults.bytes()), str::from_utf8(sink.bytes())) else {
        return Err(Failure::Case("what is printed is no text"));
    };
    if number == 0 {
        Ok(format!(in alloc; "{line}{text}")?)
    } else {
        Ok(format!(in alloc; "{number}\n{line}{text}")?)
    }
}

/// Runs words over a script, with the tokenizers that the program knows, and answers the number of the status.
fn run_words(
    alloc: Global,
    words: &[String],
    script: &[u8],
    sink: &mut MemorySink,
    faults: &mut MemorySink,
    work: &mut MemoryDirectory,
    output: &mut MemoryDirectory,
) -> Result<u8, AllocError> {
    let mut source = MemorySource::new(alloc, script, Vec::new(alloc))?;
    let mut analyzers = TokenizerManager::new(alloc);
    analyzers.register("default", Box::new(alloc, DefaultTokenizer)?)?;
    analyzers.register("raw", Box::new(alloc, RawTokenizer)?)?;
    analyzers.register("whitespace", Box::new(alloc, WhitespaceTokenizer)?)?;
    let status = run(
        alloc,
        words,
        &mut source,
        sink,
        faults,
        &analyzers,
        work,
        output,
    );
    Ok(status.number())
}

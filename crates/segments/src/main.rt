//! The program: runs the words of its command line over standard input and output, and the folders `work` and `out`.
#![tactic(auto)]

ghost use Rattle.seg_generate.specs.GeneratedTexts.{TakesTexts};

use seg_common::{ReaderSource, WriterSink};
use seg_directory::FileDirectory;
use seg_generate::default_takes_texts;
use seg_tokens::{
    Analyzers, DefaultTokenizer, RawTokenizer, TokenizerManager, WhitespaceTokenizer,
};
use seg_tool::{Status, run};
use seg_values::TantivyError;
use std::env::Env;
use std::io::ErrorKind;
use std::process::ExitCode;
use std::rt::Files;
use std::{env, fs, io};

fn main(rt: HostRuntime) -> ExitCode {
    default_takes_texts();
    let alloc = rt.alloc();
    let mut analyzers = TokenizerManager::new(alloc);
    let Ok(default) = Box::new(alloc, DefaultTokenizer) else {
        return out_of_memory();
    };
    if analyzers.register("default", default).is_err() {
        return out_of_memory();
    }
    let Ok(raw) = Box::new(alloc, RawTokenizer) else {
        return out_of_memory();
    };
    if analyzers.register("raw", raw).is_err() {
        return out_of_memory();
    }
    let Ok(whitespace) = Box::new(alloc, WhitespaceTokenizer) else {
        return out_of_memory();
    };
    if analyzers.register("whitespace", whitespace).is_err() {
        return out_of_memory();
    }
    run_in_folders(&rt, &analyzers)
}

/// Runs the words of the command line with these tokenizers, over the folders `work` and `out`.
fn run_in_folders(rt: &HostRuntime, analyzers: &TokenizerManager) -> ExitCode
    requires { let a = ⟦<TokenizerManager as Analyzers>⟧ in
        TakesTexts (a.knows analyzers.now) (a.tokens_of analyzers.now) }
{
    let alloc = rt.alloc();
    let words = match program_words(rt) {
        Ok(words) => words,
        Err(e) if e.kind() == ErrorKind::OutOfMemory => return out_of_memory(),
        // A word that is no text is no command either.
        Err(_) => Vec::new(alloc),
    };
    let mut work = match folder(rt, "work") {
        Ok(work) => work,
        Err(status) => return ExitCode::from(status.number()),
    };
    let mut output = match folder(rt, "out") {
        Ok(output) => output,
        Err(status) => return ExitCode::from(status.number()),
    };
    let mut source = ReaderSource::new(rt.reader());
    let mut sink = WriterSink::new(io::writer(rt));
    let mut faults = WriterSink::new(rt.stderr());
    let status = run(
        alloc,
        &words,
        &mut source,
        &mut sink,
        &mut faults,
        analyzers,
        &mut work,
        &mut output,
    );
    ExitCode::from(status.number())
}

fn out_of_memory() -> ExitCode {
    ExitCode::from(Status::Memory.number())
}

/// The directory over a folder, which is made where it is missing; where it can't be, the status to end with.
fn folder<R: Files + AllocGlobal + Clone + Drop>(
    rt: &R,
    name: &str,
) -> Result<FileDirectory<R>, Status> {
    match fs::create_dir(rt, name) {
        Ok(()) => {}
        Err(e) if e.kind() == ErrorKind::AlreadyExists => {}
        Err(e) if e.kind() == ErrorKind::OutOfMemory => return Err(Status::Memory),
        Err(_) => return Err(Status::Directory(TantivyError::IoError)),
    }
    let Ok(files) = rt.clone() else {
        return Err(Status::Memory);
    };
    match FileDirectory::new(files, rt.alloc(), name) {
        Ok(directory) => Ok(directory),
        Err(_) => Err(Status::Memory),
    }
}

/// The words after the program's name.
fn program_words(rt: &(impl Env + AllocGlobal)) -> io::Result<Vec<String>> {
    let mut words = Vec::new(rt.alloc());
    for word in env::args(rt)?.skip(1) {
        words.push(word)?;
    }
    Ok(words)
}

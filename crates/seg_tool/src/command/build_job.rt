//! `build`: from the bytes of a script to its indexes, and to the text of what the directories then answer.
ghost use Rattle.std.specs.Prelude.{◌≡◌, IfOk};
ghost use Rattle.seg_index_build.specs.TwoDirectories.{both};
ghost use Rattle.seg_open.specs.Answers.{seen_as};
ghost use Rattle.seg_tool.specs.InputIndexes.{BuildsText};
ghost use Rattle.seg_tool.specs.Printing.{opening};
ghost use Rattle.seg_tool.specs.Runs.{BuildsScript, RunsBuild, sink_state, source_state, world};

use crate::job_text::write_text;
use crate::printed_index::print_index;
use crate::status::{Status, status_of};
use crate::words::Detail;
use seg_check::BuildInput;
use seg_common::{ReadError, Sink, Source, read_to_end};
use seg_directory::Directory;
use seg_generate::push_generated;
use seg_index_build::build_index_of;
use seg_script::{ScriptError, read_script};
use seg_tokens::Analyzers;
use seg_values::{TResult, TantivyError};
use std::alloc::{AllocError, Global};

/// The most bytes of a script.
const MAX_SCRIPT: usize = 67_108_864;

/// Reads the source, writes the indexes of its script, and prints them.
pub(crate) fn run_build<S: Source, K: Sink, Z: Analyzers, W: Directory, O: Directory>(
    alloc: Global,
    detail: Detail,
    source: &mut S,
    sink: &mut K,
    analyzers: &Z,
    work: &mut W,
    output: &mut O,
) -> Status
    ensures { RunsBuild (Z.knows analyzers.now) (Z.tokens_of analyzers.now) detail result sink.old sink.new
        (world (source_state (S.left source.old) (S.idle source.old) (S.faults source.old))
        (sink_state (K.written sink.old) (K.faults sink.old)) (both (W.state work.old) (O.state output.old)))
        (world (source_state (S.left source.new) (S.idle source.new) (S.faults source.new))
        (sink_state (K.written sink.new) (K.faults sink.new)) (both (W.state work.new) (O.state output.new))) }
{
    let bytes = match read_to_end(alloc, source, MAX_SCRIPT) {
        Ok(bytes) => bytes,
        Err(ReadError::Fault) => return Status::Stream,
        Err(ReadError::TooLong) => return Status::Script,
        Err(ReadError::OutOfMemory) => return Status::Memory,
    };
    match build(alloc, analyzers, bytes, detail, work, output) {
        Ok(text) => write_text(sink, &text),
        Err(status) => status,
    }
}

/// Writes the indexes of a script, and answers what is then printed of them.
fn build<Z: Analyzers, W: Directory, O: Directory>(
    alloc: Global,
    analyzers: &Z,
    bytes: Vec<u8>,
    detail: Detail,
    work: &mut W,
    output: &mut O,
) -> Result<Vec<u8>, Status>
    ensures { BuildsScript (Z.knows analyzers.now)
        (Z.tokens_of analyzers.now) detail bytes.items (seen_as (λ t. t.items) result)
        (both (W.state work.old) (O.state output.old)) (both (W.state work.new) (O.state output.new)) }
{
    let input = match read_script(alloc, bytes) {
        Ok(input) => input,
        Err(ScriptError::NotScript) => return Err(Status::Script),
        Err(ScriptError::OutOfMemory) => return Err(Status::Memory),
    };
    match build_and_print(alloc, analyzers, input, detail, work, output) {
        Ok(text) => Ok(text),
        Err(e) => Err(status_of(e)),
    }
}

/// Writes the indexes of an input, and answers what is then printed of them. The input is released before.
pub(crate) fn build_and_print<Z: Analyzers, W: Directory, O: Directory>(
    alloc: Global,
    analyzers: &Z,
    input: BuildInput,
    detail: Detail,
    work: &mut W,
    output: &mut O,
) -> TResult<Vec<u8>>
    ensures { BuildsText (Z.knows analyzers.now)
        (Z.tokens_of analyzers.now) input detail (seen_as (λ t. t.items) result)
        (both (W.state work.old) (O.state output.old)) (both (W.state work.new) (O.state output.new)) }
{
    let _index = match build_index_of(alloc, input, analyzers, work, output) {
        Ok(index) => index,
        Err(e) => return Err(e),
    };
    let Ok(opening) = opening(alloc, detail) else {
        return Err(TantivyError::OutOfMemory);
    };
    let out = match print_index(alloc, opening, "work", detail, work) {
        Ok(out) => out,
        Err(e) => return Err(e),
    };
    print_index(alloc, out, "output", detail, output)
}

/// What is printed before the segments.
fn opening(alloc: Global, detail: Detail) -> Result<Vec<u8>, AllocError>
    ensures { IfOk result (λ out. out.items ≡ opening detail) }
{
    let mut out = Vec::new(alloc);
    match detail {
        Detail::Summary => {
            push_generated(&mut out)?;
            Ok(out)
        }
        Detail::Brief => Ok(out),
        Detail::Full => Ok(out),
    }
}

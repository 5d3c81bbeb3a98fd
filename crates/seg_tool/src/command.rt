//! The whole of a run: the words, the source, the sink, and the line on what went wrong.
ghost use Rattle.std.specs.Prelude.{◌≡◌, ◌≢◌, ◌≤◌, ◌+◌, ◌⊎◌, ◌↔◌, None, true, false, IsTrue};
ghost use Rattle.std.specs.Io.KnownBytes.{Appends, IsAtEnd};
ghost use Rattle.seg_common.specs.FaultCounts.{Rose};
ghost use Rattle.seg_common.specs.IdleReads.{OnlyLastIsIdle};
ghost use Rattle.seg_common.specs.Streams.{AppendsPart, TakesAtMost};
ghost use Rattle.seg_directory.specs.DiskChanges.{KeepsDisk};
ghost use Rattle.seg_directory.specs.DirectoryStates.{IsEmptyDisk};
ghost use Rattle.seg_index_build.specs.TwoDirectories.{both};
ghost use Rattle.seg_tool.specs.Job.{Gains, GainsPart, IfReadOut, IsCaused};
ghost use Rattle.seg_tool.specs.Runs.{Runs, sink_state, source_state, world};
ghost use Rattle.seg_tool.specs.Statuses.{status_line};
ghost use Rattle.seg_tool.specs.Words.{command_of, job_of};
ghost use Rattle.seg_tool.specs.Words.BuildJob.{max_script};

mod build_job;
mod generate_job;
mod merge_job;
mod show_job;

use crate::command::build_job::run_build;
use crate::command::generate_job::generate;
use crate::command::merge_job::merge_and_print;
use crate::command::show_job::show;
use crate::job_text::write_made;
use crate::status::Status;
use crate::status_line::report;
use crate::words::{Command, command_of};
use seg_common::{FileName, Sink, SinkFailed, Source};
use seg_directory::Directory;
use seg_generate::generated_inputs_are_valid;
use seg_model::valid_inputs_are_not_refused;
use seg_segment::files_hold_one_contents;
use seg_tokens::Analyzers;
use seg_values::TantivyError;
use std::alloc::Global;

/// Does what the words say, and answers how it went.
///
/// - `build` reads the source to its end as a script and writes an index of its documents into the directory `work`, a
///   segment a batch. It reads the segments of that index back, and merges what was read into the one segment of an
///   index in the directory `output`. Then it prints both, of what the directories answer; with `--full` each segment's
///   columns and length ids too.
/// - `generate` and a number do the same with the input that the number generates, and print a summary of both.
/// - `merge` merges the segments of the index in `work` that have a live document into an index of one segment, of the
///   id of 32 digits f, in `output`, and prints it.
/// - `show` prints the index in `work` in full.
///
/// An index is printed from its directory: its meta is read, and then each segment that it lists is opened and printed
/// before the next. The text goes to the sink once it is whole. On any status but `Done` one line is written to
/// `faults`; a failing write there changes nothing. What is written to a directory before it fails stays there.
///
/// Of an output that has nothing on its disk, a crash at any moment of the run leaves no index, the empty one, or the
/// whole one; and on `Done` the whole one. `merge` and `show` change nothing that a crash may leave of the work
/// directory.
///
/// Each clause speaks of the record of what is promised of the word, which `job_of` picks by the command.
pub fn run<S: Source, K: Sink, F: Sink, Z: Analyzers, W: Directory, O: Directory>(
    alloc: Global,
    words: &[String],
    source: &mut S,
    sink: &mut K,
    faults: &mut F,
    analyzers: &Z,
    work: &mut W,
    output: &mut O,
) -> Status
    ensures words { result ≡ Status.Words ↔ (command_of words.now ≡ None) }

    // What the word promises of its status, and of both directories.
    ensures caused { let job = job_of (Z.knows analyzers.now) (Z.tokens_of analyzers.now) (S.left source.old)
        (command_of words.now) in
        IsCaused job result
        (both (W.state work.old) (O.state output.old)) (both (W.state work.new) (O.state output.new)) }
    ensures ends { let job = job_of (Z.knows analyzers.now) (Z.tokens_of analyzers.now) (S.left source.old)
        (command_of words.now) in
        job.Ends result
        (both (W.state work.old) (O.state output.old)) (both (W.state work.new) (O.state output.new)) }
    ensures does { let job = job_of (Z.knows analyzers.now) (Z.tokens_of analyzers.now) (S.left source.old)
        (command_of words.now) in
        job.Does result
        (both (W.state work.old) (O.state output.old)) (both (W.state work.new) (O.state output.new)) }
    ensures has { let job = job_of (Z.knows analyzers.now) (Z.tokens_of analyzers.now) (S.left source.old)
        (command_of words.now) in
        result ≡ Status.Done → job.Has
        (both (W.state work.old) (O.state output.old)) (both (W.state work.new) (O.state output.new)) }

    // What goes to the sink.
    ensures done { let job = job_of (Z.knows analyzers.now) (Z.tokens_of analyzers.now) (S.left source.old)
        (command_of words.now) in
        result ≡ Status.Done → Gains (job.IsText
        (both (W.state work.old) (O.state output.old)) (both (W.state work.new) (O.state output.new)))
        (K.written sink.old) (K.written sink.new) }
    ensures untouched { result ≢ Status.Done → result ≢ Status.Stream → sink.new ≡ sink.old }
    // A source that fails ends it before a directory is called, a sink once the text is made.
    ensures stream { let job = job_of (Z.knows analyzers.now) (Z.tokens_of analyzers.now) (S.left source.old)
        (command_of words.now) in
        result ≡ Status.Stream
        → ((job.reads ≡ true) × Rose (S.faults source.old) (S.faults source.new) × (sink.new ≡ sink.old)
        × (both (W.state work.new) (O.state output.new) ≡ both (W.state work.old) (O.state output.old)))
        ⊎ (Rose (K.faults sink.old) (K.faults sink.new) × GainsPart (job.IsText
        (both (W.state work.old) (O.state output.old)) (both (W.state work.new) (O.state output.new)))
        (K.written sink.old) (K.written sink.new)) }

    // What a crash leaves of an output that had nothing, at any moment and at the end, and of the work directory.
    ensures any_moment { let job = job_of (Z.knows analyzers.now) (Z.tokens_of analyzers.now) (S.left source.old)
        (command_of words.now) in
        IsTrue (W.state work.old).tells
        → IsEmptyDisk (O.state output.old).disk → job.Leaves result
        (both (W.state work.old) (O.state output.old)) (both (W.state work.new) (O.state output.new)) }
    ensures work_disk { let job = job_of (Z.knows analyzers.now) (Z.tokens_of analyzers.now) (S.left source.old)
        (command_of words.now) in
        job.keeps_work ≡ true
        → IsTrue (W.state work.old).disk.told → KeepsDisk (W.state work.old).disk (W.state work.new).disk }

    // What is taken of the source.
    ensures end { let job = job_of (Z.knows analyzers.now) (Z.tokens_of analyzers.now) (S.left source.old)
        (command_of words.now) in
        job.reads ≡ true
        → IfReadOut result (IsAtEnd (S.left source.new)) }
    ensures taken { TakesAtMost (max_script + 1) (S.left source.old) (S.left source.new) }
    ensures turns { OnlyLastIsIdle (S.idle source.old) (S.idle source.new) }
    ensures unread { let job = job_of (Z.knows analyzers.now) (Z.tokens_of analyzers.now) (S.left source.old)
        (command_of words.now) in
        job.reads ≡ false → source.new ≡ source.old }

    // What is told of the status.
    ensures quiet { result ≡ Status.Done → faults.new ≡ faults.old }
    ensures said { result ≢ Status.Done →
        Appends (F.written faults.old) (F.written faults.new) (status_line result)
        ⊎ (Rose (F.faults faults.old) (F.faults faults.new)
        × AppendsPart (F.written faults.old) (F.written faults.new) (status_line result)) }

    // What ends well, where no stream fails.
    ensures complete { let job = job_of (Z.knows analyzers.now) (Z.tokens_of analyzers.now) (S.left source.old)
        (command_of words.now) in
        job.Needs
        (both (W.state work.old) (O.state output.old)) (both (W.state work.new) (O.state output.new))
        → ¬ (Rose (S.faults source.old) (S.faults source.new))
        → ¬ (Rose (K.faults sink.old) (K.faults sink.new))
        → (result ≡ Status.Done) ⊎ (result ≡ Status.Memory) }

    ensures counts { (S.faults source.old ≤ S.faults source.new) × (K.faults sink.old ≤ K.faults sink.new)
        × (F.faults faults.old ≤ F.faults faults.new) }
{
    valid_inputs_are_not_refused();
    generated_inputs_are_valid();
    files_hold_one_contents();
    let status = execute(alloc, words, source, sink, analyzers, work, output);
    report_unless_done(faults, &status);
    status
}

/// Writes the line on a status, where there is one; a failing write changes nothing.
fn report_unless_done<F: Sink>(faults: &mut F, status: &Status)
    ensures quiet { status.now ≡ Status.Done → faults.new ≡ faults.old }
    ensures said { status.now ≢ Status.Done →
        Appends (F.written faults.old) (F.written faults.new) (status_line status.now)
        ⊎ (Rose (F.faults faults.old) (F.faults faults.new)
        × AppendsPart (F.written faults.old) (F.written faults.new) (status_line status.now)) }
    ensures count { F.faults faults.old ≤ F.faults faults.new }
{
    if *status != Status::Done {
        let _ = report(faults, status);
    }
}

/// Does what the words say, and answers how it went; the line on it is not written yet.
fn execute<S: Source, K: Sink, Z: Analyzers, W: Directory, O: Directory>(
    alloc: Global,
    words: &[String],
    source: &mut S,
    sink: &mut K,
    analyzers: &Z,
    work: &mut W,
    output: &mut O,
) -> Status
    ensures { Runs (Z.knows analyzers.now)
        (Z.tokens_of analyzers.now) words.now result source.old source.new sink.old sink.new
        (world (source_state (S.left source.old) (S.idle source.old) (S.faults source.old))
        (sink_state (K.written sink.old) (K.faults sink.old)) (both (W.state work.old) (O.state output.old)))
        (world (source_state (S.left source.new) (S.idle source.new) (S.faults source.new))
        (sink_state (K.written sink.new) (K.faults sink.new)) (both (W.state work.new) (O.state output.new))) }
{
    match command_of(words) {
        Some(Command::Build(detail)) => {
            run_build(alloc, detail, source, sink, analyzers, work, output)
        }
        Some(Command::Generate(seed)) => {
            write_made(sink, generate(alloc, analyzers, seed, work, output))
        }
        Some(Command::Merge) => write_made(sink, merge_and_print(alloc, work, output)),
        Some(Command::Show) => write_made(sink, show(alloc, work)),
        None => Status::Words,
    }
}

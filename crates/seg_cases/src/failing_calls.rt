//! Calls of a directory that fail in a step.

use crate::case::{Case, text_if_there};
use crate::failure::Failure;
use crate::step_run::{Directories, Failing};
use seg_directory::{CallKind, FailingCall};
use std::rt::Files;

/// Calls of one kind that a step makes in the directory of a name: those from `first` on, below `end`.
#[derive(Clone, Copy)]
struct Calls<'a> {
    directory: &'a str,
    kind: CallKind,
    /// The status of a step in which one of them fails, and its line.
    failure: &'static str,
    first: u64,
    end: u64,
}

/// What differs first in a step of which one call fails, if anything does; each of the calls that its file lists
/// fails in turn, and then the one after them, to which the step doesn't come.
pub(crate) fn first_unexpected<R: Files + AllocGlobal>(
    rt: &R,
    case: Case<'_>,
    number: u32,
    expected: &str,
) -> Result<Option<String>, Failure> {
    let step = case.step(rt.alloc(), number)?;
    let Some(lines) = text_if_there(rt, step.as_str(), "fails")? else {
        return Ok(None);
    };
    for line in lines.lines() {
        let Some(calls) = read_calls(line) else {
            return Err(Failure::Case("a line tells of no calls that fail"));
        };
        if let Some(unexpected) = unexpected(rt, case, number, expected, calls)? {
            return Ok(Some(unexpected));
        }
    }
    Ok(None)
}

/// The calls that a line says, as `work open_read 0 13`.
fn read_calls(line: &str) -> Option<Calls<'_>> {
    let mut words = line.split_whitespace();
    let directory = words.next()?;
    let (kind, failure) = kind_named(words.next()?)?;
    let first = words.next()?.parse::<u64>().ok()?;
    let end = words.next()?.parse::<u64>().ok()?;
    Some(Calls {
        directory,
        kind,
        failure,
        first,
        end,
    })
}

/// The kind of a name, and what a step prints in which such a call fails.
fn kind_named(name: &str) -> Option<(CallKind, &'static str)> {
    match name {
        "list" => Some((CallKind::List, "6\ndirectory: list or read failed\n")),
        "open_read" => Some((CallKind::OpenRead, "6\ndirectory: list or read failed\n")),
        "write_new" => Some((CallKind::WriteNew, "6\ndirectory: write failed\n")),
        "atomic_write" => Some((CallKind::AtomicWrite, "6\ndirectory: meta or sync failed\n")),
        "sync_directory" => Some((
            CallKind::SyncDirectory,
            "6\ndirectory: meta or sync failed\n",
        )),
        _ => None,
    }
}

/// What differs first in a step of which one of these calls fails, or the one after them, if anything does.
fn unexpected<R: Files + AllocGlobal>(
    rt: &R,
    case: Case<'_>,
    number: u32,
    expected: &str,
    calls: Calls<'_>,
) -> Result<Option<String>, Failure> {
    for at in calls.first..=calls.end {
        let expected = if at < calls.end {
            calls.failure
        } else {
            expected
        };
        let failing = Failing {
            directory: calls.directory,
            call: FailingCall {
                kind: calls.kind,
                number: at,
            },
        };
        let outcome = outcome_failing(rt, case, number, failing)?;
        if outcome.as_str() != expected {
            return Ok(Some(format!(in rt.alloc(); "call {at} fails: {outcome:?}")?));
        }
    }
    Ok(None)
}

/// What the step of a number prints where a call fails in it or in those before it.
fn outcome_failing<R: Files + AllocGlobal>(
    rt: &R,
    case: Case<'_>,
    number: u32,
    failing: Failing<'_>,
) -> Result<String, Failure> {
    let alloc = rt.alloc();
    let mut directories = Directories::new(alloc, Some(failing))?;
    let mut text = String::new(alloc);
    for number in 1..=number {
        let step = case.step(alloc, number)?;
        text = directories.outcome(rt, step.as_str())?;
    }
    Ok(text)
}

//! Runs every case in the folders of `data`, and says for each whether it went as expected. Then it damages the files
//! in the folder `damage`, and says how many of the damaged are refused.
//!
//! A case is a script, `NAME.json`, and what is to come of it: `NAME.txt`, the printed text, or `NAME.status`, the
//! status and below it the line on standard error. Where a case has neither, its folder has an `all.status`. It runs
//! `build`, or the words that `NAME.words` has, a word a line; where these read no script, `NAME.json` is empty. A
//! second step over the same directories is `NAME.2.json` with files of its own beside it, a third one `NAME.3.json`,
//! and so on. Where there is a file `NAME.fresh`, the output directory is emptied before the step; a file `NAME.meta`
//! is put into the work directory before it, as its meta.
//!
//! `NAME.fails` says which calls of the directories a step makes: a line `work open_read 0 13` says that its calls of
//! `open_read` in the work directory have the numbers 0 to 12, counted from where the directory was made. The directory
//! `output` is that of the first step, and `fresh` one that was emptied. The case is run again for each of them, up to
//! this step; it fails, and so does the step. Where the call of number 13 is to fail, the step runs as usual.
//!
//! What is damaged is listed in `damage/cases`, which says at its head what a line has.
#![tactic(auto)]

// Cases: a script, what comes of it, and calls that fail.
mod case;
mod difference;
mod failing_calls;
mod failure;
mod step_run;

// Files that are damaged, and how many of them are refused.
mod damage;
mod damage_case;
mod data_file;
mod field;
mod reader;
mod segment_file;
mod tally;

use case::{Case, sorted_names};
use damage_case::print_damage;
use difference::first_difference;
use failing_calls::first_unexpected;
use failure::Failure;
use std::fs;
use std::rt::Files;
use step_run::Directories;

fn main(rt: HostRuntime) -> Result<(), Failure> {
    for folder in sorted_names(&rt, ".")? {
        if folder.as_str() != "damage" {
            print_folder(&rt, folder.as_str())?;
        }
    }
    print_damage(&rt)
}

/// Prints for each case of a folder how it went.
fn print_folder<R: Files + Print + AllocGlobal + Clone + Drop>(
    rt: &R,
    folder: &str,
) -> Result<(), Failure> {
    for file in sorted_names(rt, folder)? {
        let Some(name) = file.as_str().strip_suffix(".json") else {
            continue;
        };
        if !name.contains('.') {
            let verdict = verdict(rt, Case { folder, name })?;
            println!(rt; "{folder}/{name}: {verdict}")?;
        }
    }
    Ok(())
}

/// What is told of a case: that each step went as expected, or what differs first.
fn verdict<R: Files + AllocGlobal>(rt: &R, case: Case<'_>) -> Result<String, Failure> {
    let alloc = rt.alloc();
    let mut directories = Directories::new(alloc, None)?;
    for number in 1..u32::MAX {
        let step = case.step(alloc, number)?;
        if !fs::exists(rt, format!(in alloc; "{step}.json")?)? {
            break;
        }
        if let Some(difference) = step_difference(rt, case, number, &mut directories)? {
            return Ok(format!(in alloc; "step {number}, {difference}")?);
        }
    }
    Ok(String::from_str(alloc, "as expected")?)
}

/// What differs first in the step of a number, where no call fails, or where one does.
fn step_difference<R: Files + AllocGlobal>(
    rt: &R,
    case: Case<'_>,
    number: u32,
    directories: &mut Directories<'_>,
) -> Result<Option<String>, Failure> {
    let step = case.step(rt.alloc(), number)?;
    let outcome = directories.outcome(rt, step.as_str())?;
    let expected = case.expected(rt, step.as_str())?;
    match first_difference(rt.alloc(), expected.as_str(), outcome.as_str())? {
        Some(difference) => Ok(Some(difference)),
        None => first_unexpected(rt, case, number, expected.as_str()),
    }
}

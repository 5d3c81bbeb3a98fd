//! Prints, each on a line, what each writer writes, byte for byte, and what each public call answers that no other
//! program runs: what was called with what, and what came.
#![tactic(auto)]

// How lines are put together, and why the program can't end well.
mod failure;
mod lines;

// What calls are made with.
mod samples;

// The groups, from the lowest crates up.
mod base;
mod columns;
mod merges;
mod postings;
mod segments;

use failure::Failure;
use lines::Lines;

fn main(rt: HostRuntime) -> Result<(), Failure> {
    let mut lines = Lines::new(rt.alloc());
    add_groups(&mut lines);
    rt.write_all(lines.text().as_bytes())?;
    if lines.lacks_some() {
        return Err(Failure::LineMissing);
    }
    Ok(())
}

fn add_groups(lines: &mut Lines) {
    base::add_base(lines);
    postings::add_postings(lines);
    columns::add_columns(lines);
    segments::add_segments(lines);
    merges::add_merges(lines);
}

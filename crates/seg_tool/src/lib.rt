//! The jobs of the program: `build` writes the indexes of a script, `generate` those of a generated input, `merge`
//! merges the segments of an index, and `show` prints one. `run` is the whole of it, from the words of the command line
//! to the exit status, over any directories, source and sinks.
//!
//! Its model: a run is what it does with both directories, step by step, and what it takes and writes (`Runs`): of the
//! bytes of the source `script` says the input, and `build_text` the text that stands for it, or the status says why
//! not.
//!
//! ```rust
//! let words = vec![in alloc; String::from_str(alloc, "build")?]?;
//! let status = run(
//!     alloc, &words, &mut source, &mut sink, &mut faults, &analyzers, &mut work, &mut output,
//! );
//! let number = status.number();
//! ```
//!
//! At 0, `Status::Done`, the directories have the indexes, and `sink` has their text; at any other number a line that
//! says why goes to `faults`.
#![tactic(auto)]

// The words of a command line, and how a run ends.
mod damage;
mod status;
mod status_line;
mod words;

// The text of a segment that is open, and its line in a summary.
mod norm_lines;
mod segment_text;
mod summary_line;
mod summary_totals;

// The text of an index, of what its directory answers, and how it is written.
mod job_text;
mod printed_index;

// The whole, and in it the jobs, a word each.
mod command;

pub use command::run;
pub use status::Status;
pub use status_line::report;
pub use summary_line::push_segment_summary;

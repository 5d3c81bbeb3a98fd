//! Tests of what only code can show: what a crash leaves, streams that fail in the midst, a directory that answers
//! other bytes than it was given, and a folder of the system. A call that fails, by its number, is a file `NAME.fails`
//! of a case in `seg_cases`.
//!
//! Its model: a test runs the words of a command line over a script, as `run` of `seg_tool` does, with streams and
//! mostly directories in memory, and compares what that ends with and says.
//!
//! ```rust
//! let script = script_of_titles(alloc, r#"{"add": [["title", "a"]]}"#)?;
//! let (mut work, mut output) = (memory(alloc)?, memory(alloc)?);
//! let told = outcome(alloc, "build", script.as_str(), &mut work, &mut output)?;
//! ```
//!
//! `told` has the number of the status in a line, here 0, and then the text of both segments.
#![tactic(auto)]

// What the tests share.
#[cfg(test)]
mod word_run;

// What only code shows.
#[cfg(test)]
mod crashes;
#[cfg(test)]
mod directories;
#[cfg(test)]
mod folder;
#[cfg(test)]
mod odd_directory;
#[cfg(test)]
mod other_bytes;
#[cfg(test)]
mod streams;

//! Where the files of an index are: a directory as a trait, one in memory, which records its calls and fails at chosen
//! ones, and one over a folder of the system; and composite files, which have a part for each of several fields.
//!
//! Its model: a directory is one state (`DirectoryState`): its files, where it tells them, a count of its faults, the
//! answers that it gave so far, and its disk; what is done with it is one relation from state to state, steps in turn
//! up to the first that breaks off (`Works`), and a composite file is its parts, each a field and bytes (`composite`).
//!
//! ```rust
//! expect_no_files(alloc, &mut directory)?;
//! write_file(alloc, &mut directory, FileName::Meta, text)?;
//! sync_files(alloc, &mut directory)?;
//! let bytes = read_file(alloc, &mut directory, FileName::Meta)?;
//! ```
//!
//! `directory` is a `FileDirectory`, a `MemoryDirectory`, or any other that meets the trait `Directory`; all crates
//! above call it by these functions, `rewrite_file` and `list_files` alone. `bytes` has `text`, where the directory
//! tells its files.
#![tactic(auto)]

// Why a call fails, and what a directory has answered.
mod answer;
mod answer_log;
mod error;

// The trait.
mod directory;

// A directory in memory, with the record of its calls and what a crash leaves of it.
mod call_counts;
mod call_record;
mod disk_call;
mod disk_record;
mod failing_call;
mod memory_directory;
mod stored_files;

// A directory over a folder of the system.
mod file_directory;
mod folder;
mod last_read;

// The calls that crates above make.
mod call_error;
mod calls;

// Composite files, read and written.
mod composite_file;
mod composite_law;
mod composite_writer;
mod written_parts;

// What a crash may leave.
mod laws;

pub use answer::{Answer, CallKind};
pub use calls::{expect_no_files, list_files, read_file, rewrite_file, sync_files, write_file};
pub use composite_file::CompositeFile;
pub use composite_law::composite_files_are_spelled;
pub use composite_writer::CompositeWriter;
pub use directory::Directory;
pub use disk_call::{DiskCall, Pick};
pub use error::DirectoryError;
pub use failing_call::FailingCall;
pub use file_directory::FileDirectory;
pub use laws::images_of_a_disk;
pub use memory_directory::MemoryDirectory;

//! Cases of damage: files, what reads them, and how many of their damaged forms are refused.

use crate::damage::{DAMAGES, Damage};
use crate::data_file::{before_comment, read};
use crate::failure::Failure;
use crate::field::{self, Parts};
use crate::reader::{Format, Reader};
use crate::segment_file::{merge_outcome, printed};
use crate::step_run::directory;
use crate::tally::{Outcome, Tally};
use seg_common::OwnedBytes;
use seg_directory::MemoryDirectory;
use std::alloc::Global;
use std::fs;
use std::rt::Files;

/// The files of a case, each of which is damaged in turn.
#[derive(Drop)]
struct DamageCase {
    reader: Reader,
    files: Vec<File>,
}

/// A file, and what its name ends with.
#[derive(Drop)]
struct File {
    extension: String,
    bytes: Vec<u8>,
}

/// Prints each case that `damage/cases` lists.
pub(crate) fn print_damage<R: Files + Print + AllocGlobal>(rt: &R) -> Result<(), Failure> {
    let index = fs::read_to_string(rt, "damage/cases")?;
    for line in index.lines() {
        print_case(rt, before_comment(line))?;
    }
    Ok(())
}

/// Prints the case of a line, if one is there: its reader, its name, and what the names of its files end with.
fn print_case<R: Files + Print + AllocGlobal>(rt: &R, line: &str) -> Result<(), Failure> {
    let mut words = line.split_whitespace();
    let (Some(reader), Some(name)) = (words.next(), words.next()) else {
        return Ok(());
    };
    println!(rt; "{line}")?;
    if reader == "edits" {
        return print_edits(rt, name);
    }
    let Some(reader) = Reader::named(reader) else {
        return Err(Failure::Case("no such reader"));
    };
    let mut files = Vec::new(rt.alloc());
    for extension in words {
        files.push(File {
            extension: String::from_str(rt.alloc(), extension)?,
            bytes: read(rt, name, extension)?,
        })?;
    }
    DamageCase { reader, files }.print(rt)
}

/// Prints how many edits of the meta of a name are refused. Each uses a line: the old piece, ` =>`, and the new one.
fn print_edits<R: Files + Print + AllocGlobal>(rt: &R, name: &str) -> Result<(), Failure> {
    let alloc = rt.alloc();
    let meta = fs::read_to_string(rt, format!(in alloc; "damage/{name}.json")?)?;
    let edits = fs::read_to_string(rt, format!(in alloc; "damage/{name}.edits")?)?;
    let mut tally = Tally::default();
    for line in edits.lines() {
        if let Some((old, new)) = before_comment(line).split_once(" =>") {
            tally.count(edit_outcome(alloc, meta.as_str(), old, new)?);
        }
    }
    println!(rt; "  a piece for another: {tally}")?;
    Ok(())
}

/// What becomes of a meta in which a piece is put in the place of another.
fn edit_outcome(alloc: Global, meta: &str, old: &str, new: &str) -> Result<Outcome, Failure> {
    let Some((front, back)) = meta.split_once(old) else {
        return Err(Failure::Case("nothing to edit"));
    };
    let edited = format!(in alloc; "{front}{new}{back}")?;
    let is_read = Format::Meta.is_read(alloc, edited.as_bytes())?;
    Ok(Outcome::of(is_read))
}

impl DamageCase {
    /// Prints how many of the damaged forms of each file are refused; a script stays as it is, and makes the index of
    /// which the others are.
    fn print<R: Print + AllocGlobal>(&self, rt: &R) -> Result<(), Failure> {
        let mut work = directory(rt.alloc(), "work", None)?;
        let mut files = self.files.iter().enumerate();
        if let Reader::Run = self.reader {
            if let Some((_, script)) = files.next() {
                let _text = printed(rt.alloc(), "build", &script.bytes, &mut work)?;
            }
        }
        for (at, file) in files {
            self.print_file(rt, at, file, &mut work)?;
        }
        Ok(())
    }

    /// Prints it for one file, which is whole again in the directory afterwards.
    fn print_file<R: Print + AllocGlobal>(
        &self,
        rt: &R,
        at: usize,
        file: &File,
        work: &mut MemoryDirectory,
    ) -> Result<(), Failure> {
        let File { extension, bytes } = file;
        println!(rt; "  .{extension}: {} bytes", bytes.len())?;
        for (title, damage) in DAMAGES {
            let tally = self.tally(rt.alloc(), at, file, *damage, work)?;
            println!(rt; "    {title}: {tally}")?;
        }
        match self.outcome(rt.alloc(), at, file, bytes, work)? {
            Outcome::Read => Ok(()),
            _ => Err(Failure::Case("a whole file is refused")),
        }
    }

    fn tally(
        &self,
        alloc: Global,
        at: usize,
        file: &File,
        damage: Damage,
        work: &mut MemoryDirectory,
    ) -> Result<Tally, Failure> {
        let mut tally = Tally::default();
        for place in 0..damage.places(file.bytes.len()) {
            let damaged = damage.damaged(alloc, &file.bytes, place)?;
            tally.count(self.outcome(alloc, at, file, &damaged, work)?);
        }
        Ok(tally)
    }

    /// What becomes of the case with these bytes in a file, that at a place.
    fn outcome(
        &self,
        alloc: Global,
        at: usize,
        file: &File,
        bytes: &[u8],
        work: &mut MemoryDirectory,
    ) -> Result<Outcome, Failure> {
        match self.reader {
            Reader::File(format) => Ok(Outcome::of(format.is_read(alloc, bytes)?)),
            Reader::Field(index) => {
                let parts = Parts {
                    terms: self.part(alloc, 0, at, bytes)?,
                    postings: self.part(alloc, 1, at, bytes)?,
                    positions: self.part(alloc, 2, at, bytes)?,
                };
                Ok(Outcome::of(field::is_read(alloc, index, parts)?))
            }
            Reader::Run => merge_outcome(alloc, file.extension.as_str(), bytes, work),
        }
    }

    /// The bytes of a file, where that at a place has others.
    fn part(
        &self,
        alloc: Global,
        place: usize,
        at: usize,
        bytes: &[u8],
    ) -> Result<OwnedBytes, Failure> {
        let Some(file) = self.files.get(place) else {
            return Err(Failure::Case("a file is missing"));
        };
        let part = if place == at { bytes } else { &file.bytes };
        Ok(OwnedBytes::new(alloc, part)?)
    }
}

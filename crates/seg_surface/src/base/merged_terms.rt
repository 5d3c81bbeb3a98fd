//! The terms of two dictionaries, merged.
ghost use Rattle.std.specs.Prelude.{◌≡◌, false, All, IfOk, IsSome, IsSomeAnd};

use crate::failure::Refused;
use crate::lines::Lines;
use seg_common::{OwnedBytes, TermInfo};
use seg_termdict::{
    TermDictError, TermDictionary, TermDictionaryBuilder, TermMerger, TermStreamer,
};
use std::alloc::{AllocError, Global};

/// What is known of each term.
const INFO: TermInfo = TermInfo {
    doc_freq: 1,
    postings_start: 0,
    postings_end: 0,
    positions_start: 0,
    positions_end: 0,
};

fn a_and_b(alloc: Global) -> Result<Vec<u8>, TermDictError> {
    let mut builder = TermDictionaryBuilder::create(alloc)?;
    builder.insert(b"a", &INFO)?;
    builder.insert(b"b", &INFO)?;
    builder.finish()
}

fn b_and_c(alloc: Global) -> Result<Vec<u8>, TermDictError> {
    let mut builder = TermDictionaryBuilder::create(alloc)?;
    builder.insert(b"b", &INFO)?;
    builder.insert(b"c", &INFO)?;
    builder.finish()
}

fn open(alloc: Global, file: Result<Vec<u8>, TermDictError>) -> Result<TermDictionary, Refused> {
    let Ok(file) = file else {
        return Err(Refused);
    };
    let Ok(bytes) = OwnedBytes::from_vec(alloc, file) else {
        return Err(Refused);
    };
    match TermDictionary::open(bytes) {
        Ok(dictionary) => Ok(dictionary),
        Err(_) => Err(Refused),
    }
}

/// A dictionary whose terms are merged.
#[derive(Drop)]
struct Source<'a> {
    dictionary: &'a TermDictionary,
}

impl<'a> Source<'a> {
    /// Its terms, before the first one.
    fn stream(&self) -> TermStreamer<'a>
        ensures fresh { result.taken ≡ 0 }
        ensures forward { result.backward ≡ false }
    {
        let dictionary = self.dictionary;
        dictionary.stream()
    }
}

fn streams<'a>(
    alloc: Global,
    first: &Source<'a>,
    second: &Source<'a>,
) -> Result<Vec<TermStreamer<'a>>, AllocError>
    ensures fresh { IfOk result (λ streams. All (λ s. s.taken ≡ 0) streams.items) }
    ensures forward { IfOk result (λ streams. All (λ s. s.backward ≡ false) streams.items) }
{
    let mut streams = Vec::new(alloc);
    streams.push(first.stream())?;
    streams.push(second.stream())?;
    Ok(streams)
}

fn merger<'a>(
    alloc: Global,
    first: &'a TermDictionary,
    second: &'a TermDictionary,
) -> Result<TermMerger<'a>, AllocError> {
    let first = Source { dictionary: first };
    let second = Source { dictionary: second };
    match TermMerger::new(alloc, streams(alloc, &first, &second)?) {
        Ok(merger) => Ok(merger),
        Err(_) => Err(AllocError),
    }
}

fn add_term(lines: &mut Lines, merger: &TermMerger<'_>)
    requires { IsSomeAnd merger.now (λ m. IsSome m.current) }
{
    lines.add_answer(
        "  key, matching_segments",
        &(merger.key(), merger.matching_segments()),
    );
}

/// Goes on to the next term, and adds it.
fn add_next(lines: &mut Lines, merger: &mut TermMerger<'_>) {
    match merger.advance() {
        Ok(true) => add_term(lines, merger),
        _ => lines.miss(),
    }
}

fn add_merged(lines: &mut Lines, first: &TermDictionary, second: &TermDictionary) {
    let Ok(mut merger) = merger(lines.alloc(), first, second) else {
        return lines.miss();
    };
    for _ in 0..3 {
        add_next(lines, &mut merger);
    }
}

pub(crate) fn add_merged_terms(lines: &mut Lines) {
    let alloc = lines.alloc();
    lines.add("TermMerger of the dictionaries of a and b and of b and c:");
    let Ok(first) = open(alloc, a_and_b(alloc)) else {
        return lines.miss();
    };
    match open(alloc, b_and_c(alloc)) {
        Ok(second) => add_merged(lines, &first, &second),
        Err(_) => lines.miss(),
    }
}

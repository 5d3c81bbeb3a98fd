//! Dictionaries of terms, and their ranges.

use crate::failure::Refused;
use crate::lines::Lines;
use seg_common::{OwnedBytes, TermInfo};
use seg_termdict::{
    DictionaryType, TermDictError, TermDictionary, TermDictionaryBuilder, TermStreamer,
};
use std::alloc::{AllocError, Global};

const FIRST: TermInfo = TermInfo {
    doc_freq: 1,
    postings_start: 0,
    postings_end: 3,
    positions_start: 0,
    positions_end: 1,
};

/// What is known of each word.
const INFO: TermInfo = TermInfo {
    doc_freq: 1,
    postings_start: 0,
    postings_end: 0,
    positions_start: 0,
    positions_end: 0,
};

fn one_term(alloc: Global) -> Result<Vec<u8>, TermDictError> {
    let mut builder = TermDictionaryBuilder::create(alloc)?;
    builder.insert_key(b"a")?;
    builder.insert_value(&FIRST)?;
    builder.finish()
}

fn four_words(alloc: Global) -> Result<Vec<u8>, TermDictError> {
    let mut builder = TermDictionaryBuilder::create(alloc)?;
    builder.insert(b"abba", &INFO)?;
    builder.insert(b"bjork", &INFO)?;
    builder.insert(b"blur", &INFO)?;
    builder.insert(b"donovan", &INFO)?;
    builder.finish()
}

/// The dictionary of four words.
fn words(alloc: Global) -> Result<TermDictionary, Refused> {
    let Ok(file) = four_words(alloc) else {
        return Err(Refused);
    };
    let Ok(bytes) = OwnedBytes::from_vec(alloc, file) else {
        return Err(Refused);
    };
    match TermDictionary::open(bytes) {
        Ok(words) => Ok(words),
        Err(_) => Err(Refused),
    }
}

/// It, shared.
fn shared_words(alloc: Global) -> Result<TermDictionary, Refused> {
    let words = words(alloc)?;
    match words.clone() {
        Ok(again) => Ok(again),
        Err(_) => Err(Refused),
    }
}

/// The keys that a streamer goes on to, up to five, each with a blank after it.
fn keys(alloc: Global, mut stream: TermStreamer<'_>) -> Result<Vec<u8>, AllocError> {
    let mut keys = Vec::new(alloc);
    for _ in 0..5 {
        if !stream.advance() {
            break;
        }
        keys.extend_from_slice(stream.key())?;
        keys.push(b' ')?;
    }
    Ok(keys)
}

/// Adds the keys that a streamer goes on to.
fn add_keys(lines: &mut Lines, what: &str, stream: TermStreamer<'_>) {
    let Ok(keys) = keys(lines.alloc(), stream) else {
        return lines.miss();
    };
    match str::from_utf8(&keys) {
        Ok(keys) => lines.add_text(what, keys.trim_end()),
        Err(_) => lines.miss(),
    }
}

fn forward<'a>(
    alloc: Global,
    words: &'a TermDictionary,
) -> Result<TermStreamer<'a>, TermDictError> {
    let range = words.range(alloc).ge(b"b")?.lt(b"d")?;
    Ok(range.into_stream())
}

fn backward<'a>(
    alloc: Global,
    words: &'a TermDictionary,
) -> Result<TermStreamer<'a>, TermDictError> {
    let range = words.range(alloc).gt(b"abba")?.le(b"blur")?;
    Ok(range.backward().into_stream())
}

/// Adds ranges with each kind of bound, and backward.
fn add_ranges(lines: &mut Lines, words: &TermDictionary) {
    let alloc = lines.alloc();
    match forward(alloc, words) {
        Ok(stream) => add_keys(lines, "words from b (ge) to below d (lt)", stream),
        Err(_) => lines.miss(),
    }
    match backward(alloc, words) {
        Ok(stream) => add_keys(lines, "words past abba (gt) to blur (le), backward", stream),
        Err(_) => lines.miss(),
    }
}

/// Whether a place has a word, and its bytes.
fn word_at(
    alloc: Global,
    words: &TermDictionary,
    place: u64,
) -> Result<(bool, Vec<u8>), TermDictError> {
    let mut word = Vec::new(alloc);
    let found = words.ord_to_term(place, &mut word)?;
    Ok((found, word))
}

/// Adds the place of a word, and the word that is put back from it.
fn add_place(lines: &mut Lines, words: &TermDictionary) {
    let place = words.term_ord(b"blur");
    lines.add_answer(
        "term_ord of blur among abba, bjork, blur and donovan",
        &place,
    );
    lines.add_result("ord_to_term of 2", word_at(lines.alloc(), words, 2));
}

fn add_types(lines: &mut Lines) {
    for number in 0..4 {
        lines.add_answer(
            "a number, and the type of dictionary that it says",
            &(number, DictionaryType::try_from(number)),
        );
    }
}

fn add_words(lines: &mut Lines, words: &TermDictionary) {
    add_ranges(lines, words);
    add_place(lines, words);
}

pub(crate) fn add_dictionaries(lines: &mut Lines) {
    lines.add_file("dictionary of the term a", one_term(lines.alloc()));
    match shared_words(lines.alloc()) {
        Ok(words) => add_words(lines, &words),
        Err(_) => lines.miss(),
    }
    add_types(lines);
}

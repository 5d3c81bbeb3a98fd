//! The terms of a JSON field, told apart by their paths and types.
ghost use Rattle.std.specs.Prelude.{◌≡◌, ◌+◌, ◌<◌, ◌≤◌, length, drop, IfOk, OnOk};
ghost use Rattle.std.specs.List.{prefix_len};
ghost use Rattle.std.specs.Str.{bytes_eq};
ghost use Rattle.seg_termdict.specs.LookUps.{HasKeyAt};
ghost use Rattle.seg_postings.specs.JsonSpaces as spaces;
ghost use Rattle.seg_postings.specs.JsonRuns.{AreJsonTerms, AddsSpace};

use crate::field_space::InvertedIndexFieldSpace;
use seg_termdict::TermDictionary;
use std::alloc::{AllocError, Global};

/// A space for each path and type, in the order of the terms. Each term is looked at twice at most.
pub(crate) fn json_spaces(
    alloc: Global,
    terms: &TermDictionary,
) -> Result<Vec<InvertedIndexFieldSpace>, AllocError>
    requires { AreJsonTerms terms.now }
    ensures { IfOk result (λ found. spaces.AreSpaces terms.now found.items) }
{
    let mut found = Vec::new(alloc);
    let mut start = 0;
    while start < terms.num_terms() {
        start = add_space(alloc, terms, start, &mut found)?;
    }
    Ok(found)
}

/// Adds the space of the terms from a place on that have one path and type, and tells where they end.
fn add_space(
    alloc: Global,
    terms: &TermDictionary,
    start: usize,
    found: &mut Vec<InvertedIndexFieldSpace>,
) -> Result<usize, AllocError>
    requires start { start < length terms.now }
    requires terms { AreJsonTerms terms.now }
    ensures { IfOk result (λ end. AddsSpace terms.now start end found.old.items found.new.items) }
{
    let term = key_at(alloc, terms, start)?;
    let end = run_end(alloc, terms, start, path_and_type(&term))?;
    let first = terms.term_info_from_ord(start as u64);
    let last = terms.term_info_from_ord(end as u64 - 1);
    let num_terms = (end - start) as u64;
    let space = InvertedIndexFieldSpace::of_run(alloc, &term, &first, &last, num_terms)?;
    found.push(space)?;
    Ok(end)
}

/// Where the terms from a place on end that begin with a path and a type.
fn run_end(
    alloc: Global,
    terms: &TermDictionary,
    start: usize,
    head: &[u8],
) -> Result<usize, AllocError>
    requires { start ≤ length terms.now }
    ensures { IfOk result (λ end. end ≡ start + prefix_len (spaces.begins_with head.now) (drop start terms.now)) }
{
    let mut term = Vec::new(alloc);
    for place in start..terms.num_terms() {
        copy_key(terms, place, &mut term)?;
        if !begins_with(&term, head) {
            return Ok(place);
        }
    }
    Ok(terms.num_terms())
}

fn begins_with(term: &[u8], head: &[u8]) -> bool
    ensures { result ≡ bytes_eq (spaces.path_and_type term.now) head.now }
{
    path_and_type(term) == head
}

fn key_at(alloc: Global, terms: &TermDictionary, place: usize) -> Result<Vec<u8>, AllocError>
    requires { place < length terms.now }
    ensures { IfOk result (λ key. HasKeyAt terms.now place key.items) }
{
    let mut key = Vec::new(alloc);
    copy_key(terms, place, &mut key)?;
    Ok(key)
}

/// Copies the key at a place in place of what `key` held.
fn copy_key(terms: &TermDictionary, place: usize, key: &mut Vec<u8>) -> Result<(), AllocError>
    requires { place < length terms.now }
    ensures { OnOk result (HasKeyAt terms.now place key.new.items) }
{
    let Ok(_) = terms.ord_to_term(place as u64, key) else {
        return Err(AllocError);
    };
    Ok(())
}

/// The bytes up to the one after the first byte 0; all of them if there is none.
fn path_and_type(term: &[u8]) -> &[u8]
    ensures { result.now ≡ spaces.path_and_type term.now }
{
    for at in 0..term.len() {
        if term[at] == 0 {
            return &term[..term.len().min(at + 2)];
        }
    }
    term
}

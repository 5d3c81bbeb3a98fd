//! The terms of several dictionaries, merged.
ghost use Rattle.std.specs.Prelude.{◌≡◌, ◌<◌, false, None, Some, ◌++◌, [], ◌∷◌, map, drop, get_or, slice_set, nat_lt, length, All, IfOk, IfErr, OnOk, IfSome, IsSome, IsSomeAnd, IsTrue};
ghost use Rattle.std.specs.List.{AllByRecursion};
ghost use Rattle.std.specs.List.Sorted.{IsPermutation};
ghost use Rattle.seg_common.specs.WriterGrowth.{HasGrown};
ghost use Rattle.seg_termdict.specs.MergerHeap.{AreFronts, front_at};
ghost use Rattle.seg_termdict.specs.MergedStreams.{Ascends, NotBelow, behind, before_merged, first, info_of, ord_of, standings_first, stepped, terms_of_stream};

use crate::error::TermDictError;
use crate::format::TermOrdinal;
use crate::fronts::Fronts;
use crate::head::Head;
use crate::streamer::TermStreamer;
use seg_common::TermInfo;
use std::alloc::{AllocError, Global};
use std::marker::Model;

/// Iterates over the terms of several streamers: each key once, ascending, with the streamers that have it, by their
/// places among those that were given. A step costs the streamers that have the key, times the logarithm of all. Once
/// it was out of memory it answers so for good, and is seen as nothing.
#[derive(Drop)]
pub struct TermMerger<'a> {
    heads: Vec<Head<'a>>,
    fronts: Fronts<'a>,
    key: &'a [u8],
    ords: Vec<(usize, TermOrdinal)>,
    infos: Vec<(usize, TermInfo)>,
    lacks_memory: bool,
}

impl<'a> Model for TermMerger<'a> {
    ghost use Rattle.std.specs.Prelude.{◌≡◌, Option, None, Some, false, if◌then◌else◌};
    ghost use Rattle.std.specs.FinMap.{entries};
    ghost use Rattle.std.specs.List.{AllByRecursion};
    ghost use Rattle.seg_termdict.specs.MergedTerms.{merged_terms};
    ghost use Rattle.seg_termdict.specs.MergerHeap.{AreFronts};
    ghost use Rattle.seg_termdict.specs.MergedStreams.{Merging, Ascends, noted};

    ghost Value = { Option Merging };

    ghost view = { λ m. if m.lacks_memory then None
        else Some (record {
          left = entries (merged_terms m.heads.items);
          current = noted m.key.now m.ords.items m.infos.items;
        }) };

    ghost invariant = { λ m. m.lacks_memory ≡ false
        → AreFronts m.fronts m.heads.items × AllByRecursion Ascends m.heads.items };
}

impl<'a> TermMerger<'a> {
    /// Stands before the first term of streamers that have come to none, and go forward.
    pub fn new(
        alloc: Global,
        streams: Vec<TermStreamer<'a>>,
    ) -> Result<TermMerger<'a>, TermDictError>
        requires fresh { All (λ s. s.taken ≡ 0) streams.items }
        requires forward { All (λ s. s.backward ≡ false) streams.items }
        ensures ok { IfOk result (λ merger. merger ≡ Some (before_merged streams.entry.items)) }
        ensures err { IfErr result (λ e. e ≡ TermDictError.OutOfMemory) }
    {
        let heads = heads_of(alloc, streams)?;
        let fronts = fronts_of(alloc, &heads)?;
        Ok(TermMerger {
            heads,
            fronts,
            key: &[],
            ords: Vec::new(alloc),
            infos: Vec::new(alloc),
            lacks_memory: false,
        })
    }

    /// Goes on to the next term, and tells whether there is one. After the last it stays at the end.
    pub fn advance(&mut self) -> Result<bool, TermDictError>
        ensures ok { OnOk result (HasGrown self.old self.new stepped) }
        ensures more { IfOk result (λ more. IfSome self.old (λ m. more ≡ nat_lt 0 (length m.left))) }
        ensures stands { IfOk result (λ more. IsTrue more → IsSomeAnd self.new (λ m. IsSome m.current)) }
        ensures err { IfErr result (λ e. (e ≡ TermDictError.OutOfMemory) × (self.new ≡ None)) }
    {
        if self.lacks_memory {
            return Err(TermDictError::OutOfMemory);
        }
        self.ords.clear();
        self.infos.clear();
        let Some((key, _)) = self.fronts.first() else {
            return Ok(false);
        };
        self.key = key;
        let Ok(()) = pass_all(
            &mut self.heads,
            &mut self.fronts,
            key,
            &mut self.ords,
            &mut self.infos,
        ) else {
            self.lacks_memory = true;
            return Err(TermDictError::OutOfMemory);
        };
        Ok(true)
    }

    /// The key of the term.
    pub fn key(&self) -> &[u8]
        requires { IsSomeAnd self.now (λ m. IsSome m.current) }
        ensures { IsSomeAnd self.now (λ m. IsSomeAnd m.current (λ t. result.now ≡ t.key)) }
    {
        self.key
    }

    /// The streamers that have the term, each with its ordinal there.
    pub fn matching_segments(&self) -> &[(usize, TermOrdinal)]
        requires { IsSomeAnd self.now (λ m. IsSome m.current) }
        ensures { IsSomeAnd self.now (λ m. IsSomeAnd m.current (λ t. result.now ≡ t.ords)) }
    {
        &self.ords
    }

    /// The streamers that have the term, each with what is known of it there.
    pub fn current_segment_ords_and_term_infos(&self) -> &[(usize, TermInfo)]
        requires { IsSomeAnd self.now (λ m. IsSome m.current) }
        ensures { IsSomeAnd self.now (λ m. IsSomeAnd m.current (λ t. result.now ≡ t.infos)) }
    {
        &self.infos
    }
}

fn heads_of<'a>(alloc: Global, streams: Vec<TermStreamer<'a>>) -> Result<Vec<Head<'a>>, AllocError>
    requires fresh { All (λ s. s.taken ≡ 0) streams.items }
    requires forward { All (λ s. s.backward ≡ false) streams.items }
    ensures terms { IfOk result (λ heads. heads.items ≡ map terms_of_stream streams.entry.items) }
    ensures order { IfOk result (λ heads. AllByRecursion Ascends heads.items) }
{
    let mut heads = Vec::new(alloc);
    for stream in streams {
        heads.push(Head::new(stream))?;
    }
    Ok(heads)
}

fn fronts_of<'a>(alloc: Global, heads: &[Head<'a>]) -> Result<Fronts<'a>, AllocError>
    ensures { IfOk result (λ fronts. AreFronts fronts heads.now) }
{
    let mut fronts = Fronts::new(alloc);
    for segment in 0..heads.len() {
        push_first(&mut fronts, &heads[segment], segment)?;
    }
    Ok(fronts)
}

/// Notes the heads that are at a key, and goes on to their next terms. No key is below this one.
fn pass_all<'a>(
    heads: &mut Vec<Head<'a>>,
    fronts: &mut Fronts<'a>,
    key: &[u8],
    ords: &mut Vec<(usize, TermOrdinal)>,
    infos: &mut Vec<(usize, TermInfo)>,
) -> Result<(), AllocError>
    requires fronts { AreFronts fronts.old heads.old.items }
    requires order { AllByRecursion Ascends heads.old.items }
    requires low { AllByRecursion (NotBelow key.now) heads.old.items }
    ensures ords { OnOk result (ords.new.items
        ≡ ords.old.items ++ map ord_of (standings_first 0 key.now heads.old.items)) }
    ensures infos { OnOk result (infos.new.items
        ≡ infos.old.items ++ map info_of (standings_first 0 key.now heads.old.items)) }
    ensures heads { OnOk result (heads.new.items ≡ map (behind key.now) heads.old.items) }
    ensures order { OnOk result (AllByRecursion Ascends heads.new.items) }
    ensures fronts { OnOk result (AreFronts fronts.new heads.new.items) }
{
    while let Some(segment) = fronts.pop_at(key) {
        pass_one(heads, fronts, segment, ords, infos)?;
    }
    Ok(())
}

/// Notes a head, whose first key was taken out, and goes on to its next term.
fn pass_one<'a>(
    heads: &mut Vec<Head<'a>>,
    fronts: &mut Fronts<'a>,
    segment: usize,
    ords: &mut Vec<(usize, TermOrdinal)>,
    infos: &mut Vec<(usize, TermInfo)>,
) -> Result<(), AllocError>
    requires place { segment < length heads.old.items }
    requires stands { 0 < length (get_or heads.old.items segment []) }
    ensures ords { OnOk result (ords.new.items
        ≡ ords.old.items ++ (segment, (first (get_or heads.old.items segment [])).ord) ∷ []) }
    ensures infos { OnOk result (infos.new.items
        ≡ infos.old.items ++ (segment, (first (get_or heads.old.items segment [])).info) ∷ []) }
    ensures heads { OnOk result (heads.new.items
        ≡ slice_set heads.old.items segment (drop 1 (get_or heads.old.items segment []))) }
    ensures fronts { OnOk result
        (IsPermutation (front_at segment (drop 1 (get_or heads.old.items segment [])) ++ fronts.old) fronts.new) }
{
    let head = &mut heads[segment];
    let (ord, info) = head.term();
    ords.push((segment, ord))?;
    infos.push((segment, info))?;
    head.pass();
    push_first(fronts, head, segment)
}

/// Puts in the first key of a head, if it has one.
fn push_first<'a>(
    fronts: &mut Fronts<'a>,
    head: &Head<'a>,
    segment: usize,
) -> Result<(), AllocError>
    ensures { OnOk result (IsPermutation (front_at segment head.now ++ fronts.old) fronts.new) }
{
    if head.stands() {
        fronts.push(head.key(), segment)?;
    }
    Ok(())
}

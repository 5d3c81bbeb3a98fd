//! One of the streams that are merged.
ghost use Rattle.std.specs.Prelude.{◌≡◌, ◌<◌, drop, false, nat_lt, length};
ghost use Rattle.seg_termdict.specs.MergedStreams.{Ascends, first, terms_of_stream};

use crate::format::TermOrdinal;
use crate::streamer::TermStreamer;
use seg_common::TermInfo;
use std::marker::Model;

/// A streamer that has come to its next term, or to its end. It is seen as the terms from this one on.
#[derive(Drop)]
pub(crate) struct Head<'a> {
    stream: TermStreamer<'a>,
    stands: bool,
}

impl<'a> Model for Head<'a> {
    ghost use Rattle.std.specs.Prelude.{◌≡◌, ◌-◌, ◌<◌, ◌≤◌, true, if◌then◌else◌, List, [], drop, length};
    ghost use Rattle.seg_common.specs.declared.term_info.TermInfo.{TermInfo};
    ghost use Rattle.seg_termdict.specs.SortedTerms.{RankedTerm};

    ghost Value = { List (RankedTerm TermInfo) };

    ghost view = { λ h. if h.stands then drop (h.stream.taken - 1) h.stream.terms else [] };

    ghost invariant = { λ h. h.stands ≡ true → (0 < h.stream.taken) × (h.stream.taken ≤ length h.stream.terms) };
}

impl<'a> Head<'a> {
    /// Goes to the first term of a streamer.
    pub(crate) fn new(mut stream: TermStreamer<'a>) -> Head<'a>
        requires fresh { stream.taken ≡ 0 }
        requires forward { stream.backward ≡ false }
        ensures terms { result ≡ terms_of_stream stream.entry }
        ensures order { Ascends result }
    {
        stream.keys_ascend();
        let stands = stream.advance();
        Head { stream, stands }
    }

    /// Whether a term is left.
    pub(crate) fn stands(&self) -> bool
        ensures { result ≡ nat_lt 0 (length self.now) }
    {
        self.stands
    }

    /// The key of the term.
    pub(crate) fn key(&self) -> &'a [u8]
        requires { 0 < length self.now }
        ensures { result.now ≡ (first self.now).key }
    {
        self.stream.last_key()
    }

    /// The ordinal and the info of the term.
    pub(crate) fn term(&self) -> (TermOrdinal, TermInfo)
        requires { 0 < length self.now }
        ensures { result ≡ ((first self.now).ord, (first self.now).info) }
    {
        (self.stream.term_ord(), *self.stream.value())
    }

    /// Goes on to the next term.
    pub(crate) fn pass(&mut self)
        requires { 0 < length self.old }
        ensures { self.new ≡ drop 1 self.old }
    {
        self.stands = self.stream.advance();
    }
}

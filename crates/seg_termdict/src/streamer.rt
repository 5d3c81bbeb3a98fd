//! The terms of a dictionary, or of a range of them, one after another.
ghost use Rattle.std.specs.Prelude.{◌≡◌, ◌+◌, ◌<◌, ◌≤◌, false, nat_lt, length, option_map, slice_get};
ghost use Rattle.std.specs.Borrow.{sem};
ghost use Rattle.seg_termdict.specs.MergedStreams.{Ascends};
ghost use Rattle.seg_termdict.specs.TermRanges.{between, place_of};
ghost use Rattle.seg_termdict.specs.TermStreams.{before_all, without_ord, current, advanced};

use crate::dictionary::TermDictionary;
use crate::format::TermOrdinal;
use seg_common::TermInfo;
use std::marker::Model;

/// The terms between two places of a dictionary, in a direction, by which `advance` goes. It takes no memory: a key is
/// a slice of the dictionary's bytes.
#[derive(Drop)]
pub struct TermStreamer<'a> {
    dictionary: &'a TermDictionary,
    start: usize,
    end: usize,
    backward: bool,
    taken: usize,
    info: TermInfo,
}

impl<'a> Model for TermStreamer<'a> {
    ghost use Rattle.std.specs.Prelude.{◌≡◌, ◌+◌, ◌≤◌, length};
    ghost use Rattle.seg_termdict.specs.TermRanges.{between};
    ghost use Rattle.seg_termdict.specs.TermStreams.{Stream, current};

    ghost Value = { Stream };

    ghost view = { λ s. record {
      terms = between s.backward s.dictionary.now s.start s.end;
      backward = s.backward;
      taken = s.taken;
    } };

    ghost invariant = { λ s. (s.end ≤ length s.dictionary.now) × (s.start + s.taken ≤ s.end)
        × (s.info
        ≡ (current (record {
          terms = between s.backward s.dictionary.now s.start s.end;
          backward = s.backward;
          taken = s.taken;
        })).info) };
}

impl<'a> TermStreamer<'a> {
    ghost use Rattle.seg_termdict.specs.StreamEnds.{EndsAdvanced};

    /// Stands before the terms from one place up to another.
    pub(crate) fn new(
        dictionary: &'a TermDictionary,
        start: usize,
        end: usize,
        backward: bool,
    ) -> TermStreamer<'a>
        requires order { start ≤ end }
        requires within { end ≤ length dictionary.now }
        ensures { result ≡ before_all backward (between backward dictionary.now start end) }
    {
        TermStreamer {
            dictionary,
            start,
            end,
            backward,
            taken: 0,
            info: TermInfo::default(),
        }
    }

    /// What the dictionary was checked for: unless they come backward, the keys strictly ascend in byte order.
    pub fn keys_ascend(&self)
        ensures { self.now.backward ≡ false → Ascends self.now.terms }
    {
        self.dictionary.keys_ascend();
    }

    /// Goes on to the next term, and tells whether there is one; else it stays at the last.
    pub fn advance(&mut self) -> bool
        ensures more { result ≡ nat_lt self.old.taken (length self.old.terms) }
        ensures place { self.new ≡ advanced self.old }
    {
        if self.start + self.taken >= self.end {
            return false;
        }
        let next = place(self.start, self.end, self.backward, self.taken);
        self.info = self.dictionary.term_info_from_ord(next as u64);
        self.taken += 1;
        true
    }

    /// Goes on to the next term, and lends its key and what is known of it; at the end it stays at the last.
    pub fn next(&mut self) -> Option<(&[u8], &TermInfo)>
        ensures term { option_map (λ t. (t.0.now, t.1.now)) result
            ≡ option_map without_ord (slice_get self.old.terms self.old.taken) }
        ensures* place { sem 𝓛 (EndsAdvanced self.entry) }
    {
        if !self.advance() {
            return None;
        }
        Some(self.term())
    }

    /// The place of the term among all of the dictionary; 0 before the first `advance`.
    pub fn term_ord(&self) -> TermOrdinal
        ensures { result ≡ (current self.now).ord }
    {
        if self.taken == 0 {
            0
        } else {
            place(self.start, self.end, self.backward, self.taken - 1) as u64
        }
    }

    /// The key of the term; empty before the first `advance`.
    pub fn key(&self) -> &[u8]
        ensures { result.now ≡ (current self.now).key }
    {
        if self.taken == 0 {
            &[]
        } else {
            self.last_key()
        }
    }

    /// The key of the term that it has come to, for as long as the dictionary lives.
    pub(crate) fn last_key(&self) -> &'a [u8]
        requires { 0 < self.now.taken }
        ensures { result.now ≡ (current self.now).key }
    {
        let dictionary = self.dictionary;
        let last = place(self.start, self.end, self.backward, self.taken - 1);
        dictionary.key(last)
    }

    /// What is known of the term; all zero before the first `advance`.
    pub fn value(&self) -> &TermInfo
        ensures { result.now ≡ (current self.now).info }
    {
        &self.info
    }

    /// `key` and `value`, lent at once.
    fn term(&self) -> (&[u8], &TermInfo)
        ensures { (result.0.now, result.1.now) ≡ without_ord (current self.now) }
    {
        (self.key(), self.value())
    }
}

/// The place of the term that comes next after this many.
fn place(start: usize, end: usize, backward: bool, taken: usize) -> usize
    requires { start + taken < end }
    ensures place { result ≡ place_of backward start end taken }
    ensures within { result < end }
{
    if backward {
        end - 1 - taken
    } else {
        start + taken
    }
}

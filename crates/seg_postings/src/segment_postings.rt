//! The postings of a term, one after another.
ghost use Rattle.std.specs.Prelude.{◌≡◌, ◌<◌, ◌-◌, ◌^◌, ◌++◌, ℕ, true, is_some, drop, length, option_map, unwrap_or, [], Some, None, IfErr, OnOk, MatchOption};
ghost use Rattle.seg_postings.specs.Postings.{positions_at, term_postings};
ghost use Rattle.seg_postings.specs.RemainingPostings.{postings_from};
ghost use Rattle.seg_postings.specs.OpenPostings.{kind_at, left_from, can_be_read, document_of, kept_kind_of, term_freq_of, positions_of, alive_count};
ghost use Rattle.seg_postings.specs.WritablePostings.{Rise};

use crate::documents::{CountedDocument, TERMINATED, pass_recorded, take_document, take_number};
use crate::record_kind::RecordKind;
use seg_bits::ReadOnlyBitSet;
use seg_values::PostingsError;
use std::alloc::AllocError;
use std::marker::Model;

/// The postings of a term, read one after another: seen as those that are left, the current one first, and the number
/// of all. Positions are read where they are asked for, and else passed over.
#[derive(Drop)]
pub struct SegmentPostings<'a> {
    kind: RecordKind,
    doc_freq: u32,
    current: Option<CountedDocument>,
    left: u32,
    postings: &'a [u8],
    positions: &'a [u8],
}

impl<'a> Model for SegmentPostings<'a> {
    ghost use Rattle.std.specs.Prelude.{◌≡◌, true};
    ghost use Rattle.seg_postings.specs.OpenPostings.{OpenPostings, left_from, can_be_read};

    ghost Value = { OpenPostings };

    ghost view = { λ p. record {
      left = left_from p.kind p.current p.left p.postings.now p.positions.now;
      all = p.doc_freq;
    } };

    ghost invariant = { λ p. can_be_read p.kind p.current p.left p.postings.now p.positions.now ≡ true };
}

impl<'a> SegmentPostings<'a> {
    /// All postings of a term that can be read.
    pub(crate) fn new(doc_freq: u32, postings: &'a [u8], positions: &'a [u8]) -> SegmentPostings<'a>
        requires read { is_some (term_postings doc_freq postings.now positions.now) ≡ true }
        requires occurs { 0 < doc_freq }
        ensures left { option_map (λ t. t.postings) (term_postings doc_freq postings.now positions.now)
            ≡ Some result.left }
        ensures all { result.all ≡ doc_freq }
    {
        let mut documents = postings;
        let Some(kind) = take_kind(&mut documents) else {
            unreachable!()
        };
        let current = take_document(&mut documents, kind, 0, 0);
        SegmentPostings {
            kind,
            doc_freq,
            current,
            left: doc_freq - 1,
            postings: documents,
            positions,
        }
    }

    /// The current document; `TERMINATED`, 2^32 - 1, at the end.
    pub fn doc(&self) -> u32
        ensures { result ≡ document_of self.now.left }
    {
        match self.current {
            Some(current) => current.document,
            None => TERMINATED,
        }
    }

    /// Goes to the next document, and answers it. At the end it stays there.
    pub fn advance(&mut self) -> u32
        ensures left { self.new.left ≡ drop 1 self.old.left }
        ensures all { self.new.all ≡ self.old.all }
        ensures doc { result ≡ document_of self.new.left }
    {
        let Some(current) = self.current else {
            return TERMINATED;
        };
        self.current = next_document(
            self.kind,
            current,
            self.left,
            &mut self.postings,
            &mut self.positions,
        );
        self.left = self.left.saturating_sub(1);
        self.doc()
    }

    /// What the postings keep of the current document; none at the end.
    pub fn record_kind(&self) -> Option<RecordKind>
        ensures { result ≡ kept_kind_of self.now.left }
    {
        match self.current {
            Some(_current) => Some(self.kind),
            None => None,
        }
    }

    /// How often the term occurs in the current document: 1 where that isn't kept, and at the end.
    pub fn term_freq(&self) -> u32
        ensures { result ≡ term_freq_of self.now.left }
    {
        match self.current {
            Some(current) => match self.kind {
                RecordKind::Documents => 1,
                _ => current.count,
            },
            None => 1,
        }
    }

    /// Puts the positions of the term in the current document into `out`, in place of what it held: none where they
    /// aren't kept, and at the end. They never fall.
    pub fn positions(&self, out: &mut Vec<u32>) -> Result<(), PostingsError>
        ensures ok { OnOk result (out.new.items ≡ positions_of self.now.left) }
        ensures rise { OnOk result (Rise 0 out.new.items) }
        ensures err { IfErr result (λ e. e ≡ PostingsError.OutOfMemory) }
    {
        out.clear();
        let Some(current) = self.current else {
            return Ok(());
        };
        match self.kind {
            RecordKind::Positions => {
                push_positions(self.positions, current.count, out)?;
                Ok(())
            }
            _ => Ok(()),
        }
    }

    /// In how many documents the term occurs.
    pub fn doc_freq(&self) -> u32
        ensures { result ≡ self.now.all }
    {
        self.doc_freq
    }

    /// How many of the documents from the current one on are alive: at the first, of all documents with the term. One
    /// beyond the set isn't. It scans them once, and takes no memory.
    pub fn doc_freq_given_deletes(&self, alive: &ReadOnlyBitSet) -> u32
        ensures { result ≡ alive_count alive.now self.now.left }
    {
        count_alive(self.share(), alive)
    }

    /// Another reader of the same postings, at the same document.
    fn share(&self) -> SegmentPostings<'a>
        ensures same { result ≡ self.now }
        ensures few { length self.now.left < 2 ^ 32 }
    {
        SegmentPostings {
            kind: self.kind,
            doc_freq: self.doc_freq,
            current: self.current,
            left: self.left,
            postings: self.postings,
            positions: self.positions,
        }
    }
}

/// How many of the documents that are left are alive.
fn count_alive(mut postings: SegmentPostings<'_>, alive: &ReadOnlyBitSet) -> u32
    requires { length postings.left < 2 ^ 32 }
    ensures { result ≡ alive_count alive.now postings.entry.left }
{
    let mut count = 0;
    while let Some(_kind) = postings.record_kind() {
        count += u32::from(alive.contains(postings.doc()));
        postings.advance();
    }
    count
}

/// Takes the kind with which postings begin.
fn take_kind(bytes: &mut &[u8]) -> Option<RecordKind>
    ensures { MatchOption result (kind_at bytes.old.now ≡ None)
        (λ kind. kind_at bytes.old.now ≡ Some (kind, bytes.new.now)) }
{
    let (first, rest) = bytes.split_first()?;
    *bytes = rest;
    match *first {
        0 => Some(RecordKind::Documents),
        1 => Some(RecordKind::Counts),
        2 => Some(RecordKind::Positions),
        _ => None,
    }
}

/// Passes the positions of the current document, and takes the document after it, where there is one.
fn next_document(
    kind: RecordKind,
    current: CountedDocument,
    left: u32,
    postings: &mut &[u8],
    positions: &mut &[u8],
) -> Option<CountedDocument>
    requires { can_be_read kind (Some current) left postings.old.now positions.old.now ≡ true }
    ensures left { left_from kind result (left - 1) postings.new.now positions.new.now
        ≡ drop 1 (left_from kind (Some current) left postings.old.now positions.old.now) }
    ensures read { can_be_read kind result (left - 1) postings.new.now positions.new.now ≡ true }
{
    let _ = pass_recorded(positions, kind, current.count);
    if left == 0 {
        return None;
    }
    take_document(postings, kind, current.document, 1)
}

/// Adds this many positions.
fn push_positions(bytes: &[u8], count: u32, out: &mut Vec<u32>) -> Result<(), AllocError>
    requires { is_some (positions_at count 0 bytes.now) ≡ true }
    ensures { OnOk result
        (option_map (λ r. out.old.items ++ r.0) (positions_at count 0 bytes.now) ≡ Some out.new.items) }
{
    let mut left = bytes;
    let mut before = 0u64;
    for _ in 0..count {
        let Some(difference) = take_number(&mut left, 0, 0x1_0000_0000 - before) else {
            unreachable!()
        };
        before += difference;
        out.push(before as u32)?;
    }
    Ok(())
}

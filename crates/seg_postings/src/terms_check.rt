//! Whether each term of a dictionary can be read from the postings and the positions of a field, and whether it can
//! from the postings with some positions.
ghost use Rattle.std.specs.Prelude.{◌≡◌, ◌≤◌, length, slice_range, nat_lt, ◌&&◌, None, IfOk, IfErr};
ghost use Rattle.std.specs.List.{list_all, AllByRecursion};
ghost use Rattle.seg_termdict.specs.DictionaryBuilders.{last_term, positions_end};
ghost use Rattle.seg_postings.specs.Postings.{term_postings};
ghost use Rattle.seg_postings.specs.PostingsWithoutPositions.{is_counted, is_counted_info};
ghost use Rattle.seg_postings.specs.RemainingPostings.{is_term_of};
ghost use Rattle.seg_postings.specs.FieldParts.{LiesWithin};
ghost use Rattle.seg_postings.specs.OpenedFields.{is_read};

use crate::asked_kind::AskedKind;
use crate::postings_check::{has_documents, is_term};
use crate::range::bytes_in;
use crate::record_kind::RecordKind;
use seg_common::TermInfo;
use seg_termdict::TermDictionary;
use seg_values::PostingsError;
use std::alloc::Global;

/// Whether each term occurs, and all bytes of its ranges are postings of the kind that it is asked for, by documents
/// below `max_doc`.
pub(crate) fn are_terms(
    alloc: Global,
    terms: &TermDictionary,
    asked: AskedKind,
    max_doc: u32,
    postings: &[u8],
    positions: &[u8],
) -> Result<bool, PostingsError>
    requires within { AllByRecursion (LiesWithin (length postings.now) (length positions.now)) terms.now }
    ensures ok { IfOk result (λ all. all
        ≡ list_all
        (is_read
        (record { kind = asked.kind; index = asked.index; max_doc = max_doc })
        postings.now positions.now)
        terms.now) }
    ensures err { IfErr result (λ e. e ≡ PostingsError.OutOfMemory) }
{
    let mut key = Vec::new(alloc);
    for ord in 0..terms.num_terms() {
        let kind = asked.of_term(terms, ord as u64, &mut key)?;
        let info = terms.term_info_from_ord(ord as u64);
        if !is_info(kind, &info, postings, positions, max_doc) {
            return Ok(false);
        }
    }
    Ok(true)
}

/// Whether what lies in the ranges of an info are postings of the kind, by one document or more.
fn is_info(
    kind: RecordKind,
    info: &TermInfo,
    postings: &[u8],
    positions: &[u8],
    max_doc: u32,
) -> bool
    requires rise { info.now.postings_start ≤ info.now.postings_end }
    requires within { info.now.postings_end ≤ length postings.now }
    requires positions_rise { info.now.positions_start ≤ info.now.positions_end }
    requires positions_within { info.now.positions_end ≤ length positions.now }
    ensures { result
        ≡ (nat_lt 0 info.now.doc_freq
        && is_term_of kind max_doc (term_postings info.now.doc_freq
        (slice_range postings.now info.now.postings_start info.now.postings_end)
        (slice_range positions.now info.now.positions_start info.now.positions_end))) }
{
    if info.doc_freq == 0 {
        return false;
    }
    let documents = bytes_in(postings, info.postings_start, info.postings_end);
    let positions = bytes_in(positions, info.positions_start, info.positions_end);
    is_term(kind, info.doc_freq, documents, positions, max_doc)
}

/// Whether each term occurs, and all bytes of its range of the postings are documents of the kind that it is asked for,
/// each below `max_doc`. Positions are not looked at.
pub(crate) fn are_counted(
    alloc: Global,
    terms: &TermDictionary,
    asked: AskedKind,
    max_doc: u32,
    postings: &[u8],
) -> Result<bool, PostingsError>
    requires within { AllByRecursion (LiesWithin (length postings.now) (positions_end (last_term None terms.now)))
        terms.now }
    ensures ok { IfOk result (λ all. all
        ≡ list_all (is_counted (record { kind = asked.kind; index = asked.index; max_doc = max_doc }) postings.now)
        terms.now) }
    ensures err { IfErr result (λ e. e ≡ PostingsError.OutOfMemory) }
{
    let mut key = Vec::new(alloc);
    for ord in 0..terms.num_terms() {
        let kind = asked.of_term(terms, ord as u64, &mut key)?;
        let info = terms.term_info_from_ord(ord as u64);
        if !is_info_counted(kind, &info, postings, max_doc) {
            return Ok(false);
        }
    }
    Ok(true)
}

/// Whether what lies in the range of an info are documents of the kind, one or more.
fn is_info_counted(kind: RecordKind, info: &TermInfo, postings: &[u8], max_doc: u32) -> bool
    requires rise { info.now.postings_start ≤ info.now.postings_end }
    requires within { info.now.postings_end ≤ length postings.now }
    ensures { result ≡ is_counted_info max_doc postings.now kind info.now }
{
    if info.doc_freq == 0 {
        return false;
    }
    let documents = bytes_in(postings, info.postings_start, info.postings_end);
    has_documents(kind, info.doc_freq, documents, max_doc)
}

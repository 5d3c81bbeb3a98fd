//! The infos of a dictionary: where the first postings and the first positions start, and then each info.
ghost use Rattle.std.specs.Prelude.{◌≡◌, ◌≤◌, ◌+◌, ◌*◌, length, MatchBool};
ghost use Rattle.seg_termdict.specs.Dictionary as spec;

use crate::format::{FIRST_STARTS, INFO};
use seg_common::{TermInfo, u32_at, u64_at};

#[tactic(auto, unfolding(crate::specs::Dictionary::postings_start))]
fn postings_start(infos: &[u8], i: usize) -> u64
    requires { 16 + 20 * i ≤ length infos.now }
    ensures { result ≡ spec.postings_start infos.now i }
{
    u64_at(infos, INFO * i)
}

#[tactic(auto, unfolding(crate::specs::Dictionary::positions_start))]
fn positions_start(infos: &[u8], i: usize) -> u64
    requires { 16 + 20 * i ≤ length infos.now }
    ensures { result ≡ spec.positions_start infos.now i }
{
    u64_at(infos, 8 + INFO * i)
}

/// Whether the ranges of the first of this many infos begin at 0, and no range ends before it begins.
pub(crate) fn are_infos(infos: &[u8], count: usize) -> bool
    requires { 16 + 20 * count ≤ length infos.now }
    ensures { MatchBool result (spec.AreInfos infos.now count) (spec.AreInfos infos.now count → ⊥) }
{
    if count == 0 {
        return true;
    }
    if postings_start(infos, 0) != 0 {
        return false;
    }
    if positions_start(infos, 0) != 0 {
        return false;
    }
    for i in 0..count {
        if postings_start(infos, i + 1) < postings_start(infos, i) {
            return false;
        }
        if positions_start(infos, i + 1) < positions_start(infos, i) {
            return false;
        }
    }
    true
}

/// The info at a place.
#[tactic(auto, unfolding(crate::specs::Dictionary::info_of))]
pub(crate) fn info_at(infos: &[u8], i: usize) -> TermInfo
    requires { 36 + 20 * i ≤ length infos.now }
    ensures { result ≡ spec.info_of infos.now i }
{
    TermInfo {
        doc_freq: u32_at(infos, FIRST_STARTS + INFO * i),
        postings_start: postings_start(infos, i),
        postings_end: postings_start(infos, i + 1),
        positions_start: positions_start(infos, i),
        positions_end: positions_start(infos, i + 1),
    }
}

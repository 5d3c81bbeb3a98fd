//! Where the ranges of the last term of a dictionary end.
ghost use Rattle.std.specs.Prelude.{◌≡◌, None, option_map};
ghost use Rattle.seg_termdict.specs.DictionaryBuilders.{last_term, postings_end, positions_end};

use seg_common::TermInfo;
use seg_termdict::TermDictionary;

/// Where the postings of the last term end; 0 without terms.
pub(crate) fn last_postings_end(terms: &TermDictionary) -> u64
    ensures { result ≡ postings_end (last_term None terms.now) }
{
    match last_info(terms) {
        Some(info) => info.postings_end,
        None => 0,
    }
}

/// Where the positions of the last term end; 0 without terms.
pub(crate) fn last_positions_end(terms: &TermDictionary) -> u64
    ensures { result ≡ positions_end (last_term None terms.now) }
{
    match last_info(terms) {
        Some(info) => info.positions_end,
        None => 0,
    }
}

fn last_info(terms: &TermDictionary) -> Option<TermInfo>
    ensures { result ≡ option_map (λ t. t.1) (last_term None terms.now) }
{
    let count = terms.num_terms();
    if count == 0 {
        return None;
    }
    Some(terms.term_info_from_ord(count as u64 - 1))
}

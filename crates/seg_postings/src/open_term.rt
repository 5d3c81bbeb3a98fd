//! A term whose documents are still coming.

use crate::record_kind::RecordKind;

/// What is known of a term that is open: what its postings keep, how many documents it has and the last of these, and
/// where its bytes begin.
#[derive(Clone, Copy)]
pub(crate) struct OpenTerm {
    pub kind: RecordKind,
    pub doc_freq: u32,
    pub last: u32,
    pub postings_start: u64,
    pub positions_start: u64,
}

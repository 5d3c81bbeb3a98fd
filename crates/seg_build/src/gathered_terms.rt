//! The terms of a field while documents come, by its kind.
use crate::json_terms::JsonTerms;
use seg_terms::TermIndex;

/// The terms of a field so far: of a JSON field by the numbers of their paths, of any other by their bytes.
#[derive(Drop)]
pub(crate) enum GatheredTerms {
    Plain(TermIndex),
    Json(JsonTerms),
}

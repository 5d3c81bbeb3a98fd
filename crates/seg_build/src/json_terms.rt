//! The terms of a JSON field while documents come.
ghost use Rattle.std.specs.Prelude.{◌≡◌, ◌≤◌, [], length};
ghost use Rattle.std.specs.FinMap as fin;

use crate::path_start::PathStart;
use seg_terms::PathTerms;
use std::alloc::Global;

/// The terms of a JSON field, and where the next text of each joined path begins, by the number of the path. Nothing is
/// cleared between documents: each start tells its own. At a path whose number is past them no text came.
#[derive(Drop)]
pub(crate) struct JsonTerms {
    pub terms: PathTerms,
    pub starts: Vec<PathStart>,
    ghost few: { length starts.items ≤ length terms.paths },
}

impl JsonTerms {
    pub fn new(alloc: Global) -> JsonTerms
        ensures terms { result.terms ≡ record { paths = []; terms = fin.empty } }
        ensures starts { result.starts.items ≡ [] }
    {
        JsonTerms {
            terms: PathTerms::new(alloc),
            starts: Vec::new(alloc),
        }
    }
}

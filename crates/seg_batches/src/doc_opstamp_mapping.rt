//! Which documents a delete reaches.
ghost use Rattle.std.specs.Prelude.{◌≡◌};
ghost use Rattle.seg_batches.specs.DeletedDocuments.{IsMapped, is_deleted};

use crate::operation::Opstamp;

/// With which stamp each document of a segment was added.
#[derive(Clone, Copy)]
pub enum DocToOpstampMapping<'a> {
    WithMap(&'a [Opstamp]),
    /// Each document was added before all deletes that wait.
    None,
}

impl DocToOpstampMapping<'_> {
    /// Whether a document that a delete speaks of was added before it.
    pub fn is_deleted(&self, doc: u32, delete_opstamp: Opstamp) -> bool
        requires { IsMapped self.now doc }
        ensures { result ≡ is_deleted self.now doc delete_opstamp }
    {
        match self {
            DocToOpstampMapping::WithMap(stamps) => stamps[doc as usize] < delete_opstamp,
            DocToOpstampMapping::None => true,
        }
    }
}

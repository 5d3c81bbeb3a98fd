//! Deletes by a term.

use crate::delete_target::DeleteTarget;
use crate::term_documents::term_documents;
use seg_open::SegmentReader;
use seg_values::{TResult, TantivyError, Term};
use std::alloc::Global;

/// Names the documents that have a term.
#[derive(Drop)]
pub struct TermTarget(pub Term);

impl DeleteTarget for TermTarget {
    ghost use Rattle.seg_model.specs.DeletesByPostings.{has_posting};

    ghost names = { λ target schema contents document. has_posting contents.terms document target.0 };

    fn documents(&self, alloc: Global, reader: &mut SegmentReader) -> TResult<Vec<u32>> {
        match term_documents(alloc, reader, &self.0) {
            Ok(docs) => Ok(docs),
            Err(_) => Err(TantivyError::OutOfMemory),
        }
    }
}

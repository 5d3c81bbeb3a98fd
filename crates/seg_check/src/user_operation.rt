//! What a user asks of documents.

use seg_values::{TantivyDocument, Term};

/// An operation on documents, where these are of type `D`.
#[derive(Debug, PartialEq, Eq, Drop)]
pub enum UserOperation<D = TantivyDocument> {
    Add(D),
    /// Deletes what holds the term, of the documents added before.
    Delete(Term),
}

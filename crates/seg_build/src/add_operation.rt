//! A document that is added.

use seg_values::TantivyDocument;

pub type Opstamp = u64;

/// A document that is added, with its stamp.
#[derive(Debug, PartialEq, Eq, Drop)]
pub struct AddOperation<D = TantivyDocument> {
    pub opstamp: Opstamp,
    pub document: D,
}

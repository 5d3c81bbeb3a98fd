//! A delete that waits.

pub type Opstamp = u64;

/// Deletes those that its target names of the documents with a smaller stamp.
#[derive(Drop)]
pub struct DeleteOperation<T> {
    pub opstamp: Opstamp,
    pub target: T,
}

//! Where a term occurs.

/// One occurrence of a term.
#[derive(Debug, Clone, Copy)]
pub struct Hit {
    pub document: u32,
    pub position: u32,
}

/// An occurrence of the term with a number.
#[derive(Debug, Clone, Copy)]
pub(crate) struct NumberedHit {
    pub term: u32,
    pub hit: Hit,
}

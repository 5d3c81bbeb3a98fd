//! The numbers of the format.
//!
//! ```text
//! keys     their number (u64), where each ends (u64, counted from the first byte of the keys), their bytes
//! infos    their number (u64), where the first postings and the first positions start (u64 each), and of each term
//!          the number of documents (u32), where its postings end and where its positions end (u64 each)
//! footer   the length of the infos in bytes (u64), the version (u32), the type (u32)
//! ```

/// The place of a term among those of its field, which are in the order of their keys.
pub type TermOrdinal = u64;

/// The version of the format, the last number but one of a dictionary.
pub(crate) const VERSION: u32 = 1;

/// The type of a dictionary that is a list, its last number.
pub(crate) const LIST_TYPE: u32 = 3;

/// The bytes of a number of keys or of infos.
pub(crate) const COUNT: usize = 8;

/// The bytes of the end of a key.
pub(crate) const KEY_END: usize = 8;

/// The bytes of where the first postings and the first positions start.
pub(crate) const FIRST_STARTS: usize = 16;

/// The bytes of an info: a number of documents, and where its postings and its positions end.
pub(crate) const INFO: usize = 20;

/// The bytes of the footer.
pub(crate) const FOOTER: usize = 16;

/// The bytes of a dictionary without a key.
pub(crate) const EMPTY: usize = COUNT + COUNT + FIRST_STARTS + FOOTER;

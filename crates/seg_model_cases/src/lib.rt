//! Worked cases of the definitions of `seg_model` and of formats, as theorems: what the definitions answer on small
//! inputs that were worked out by hand. No other crate uses it.
//!
//! Its model: a law for each subject, whose cases are the fields of a record, as `TextCases` in `specs/Texts`, each an
//! equation on literals.
//!
//! ```rust
//! pub fn cases_of_texts()
//!     ensures { TextCases }
//! {}
//! ```
//!
//! A case is mostly proved by computing both sides, so a function here has no body, and is proved as any other.
#![tactic(auto)]

// The cases, by what they are about.
mod laws;

pub use laws::{
    cases_of_bytes, cases_of_column_files, cases_of_columns, cases_of_contents, cases_of_dates,
    cases_of_dictionaries, cases_of_disks, cases_of_documents, cases_of_json, cases_of_opening,
    cases_of_operations, cases_of_postings, cases_of_refusals, cases_of_stores, cases_of_texts,
};

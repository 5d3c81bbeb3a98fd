//! What a merge of files of columns has of each column: what the rows that are kept have of the files' columns, one
//! dictionary of the terms that they have, and the bytes of one column with the rows of all files.
//!
//! Its model: rows that are kept are told by marks (`kept_values`), `AreMerged` says that terms and ordinals are those
//! of kept rows, and `joined` gives the bytes of each value of rows in an order.
//!
//! ```rust
//! let table = table_rows(alloc, &required, &columnars)?;
//! let kept = KeptRows::of_order(alloc, &counts, &order)?;
//! let columns = used_columns(alloc, &rows, &kept)?; // `rows` of `table` with one path, of texts
//! let MergedTerms { terms, ordinals } = MergedTerms::of(alloc, &columns)?;
//! put_joined(&counts, &order, &sources, &mut out)?;
//! put_terms_dictionary(&mut out, &terms)?;
//! ```
//!
//! `sources` has the column of each file in its place, made by `source_of` with the `ordinals` that its terms have
//! among `terms`; `out` then has the merged column.
#![tactic(auto)]

// What the kept rows have of a column.
mod kept_values;
mod number_range;

// The columns of all files, and sorted lists that are merged by their heads.
mod head_heap;
mod tables;

// The terms that kept rows have, in one dictionary.
mod dictionaries;
mod merged_dictionary;
mod used_ordinals;
mod used_terms;

// What is written for the rows of one file.
mod number_map;
mod row_ends;
mod source;
mod value_bytes;

// The bytes of a column that has rows of several files.
mod column_sources;
mod joined_column;

// What holds of all.
mod laws;

pub use column_sources::{no_sources, number_sources, source_of};
pub use dictionaries::MergedTerms;
pub use head_heap::HeadHeap;
pub use joined_column::put_joined;
pub use kept_values::{has_kept_value, with_kept_numbers};
pub use laws::{
    joined_columns_read_back, kept_values_by_places, ranges_tell_types, written_numbers_keep_values,
};
pub use merged_dictionary::put_terms_dictionary;
pub use number_map::NumberMap;
pub use number_range::NumberRange;
pub use source::{NumberSource, Source};
pub use tables::{FileColumn, TableRow, table_rows};
pub use used_terms::{UsedTerms, used_columns};

//! The columns of a segment, read from bytes without a copy: of each document the values of one type. A column of texts
//! or bytes has their ordinals, and a dictionary of the distinct ones.
//!
//! Its model: bytes are a column of a type for a number of documents, or not (`IsColumnOf`), and a column is the list
//! of the documents' lists of values; one of texts or bytes is lists of ordinals beside its terms in byte order
//! (`TermColumn`).
//!
//! ```rust
//! let titles = StrColumn::open(alloc, &bytes, num_docs)?;
//! for ord in titles.ords().values_for_doc(0) {
//!     let text = titles.text(ord);
//! }
//! let handle = DynamicColumnHandle::new(alloc, ColumnType::U64, prices, num_docs)?;
//! if let DynamicColumn::U64(prices) = handle.open() {
//!     let first = prices.first(0);
//! }
//! ```
//!
//! The loop comes to the texts of document 0, and `first` is its first price, `None` where it has none. A handle is
//! checked when it is made, so `open` can't fail.
#![tactic(auto)]

// Why a call fails.
mod error;

// Values in bytes, and where the parts of bytes end.
mod column_value;
mod ends;
mod ip_value;

// Columns of values of one size.
mod column;
mod column_check;
mod column_values;
mod first_or_default;

// Dictionaries of the terms of a column.
mod dictionary;
mod dictionary_check;
mod terms;

// Columns of ordinals with a dictionary: texts, and bytes.
mod bytes_column;
mod str_column;
mod term_column;
mod used_ordinals;

// Columns of any type, and those that aren't opened yet.
mod dynamic_column;
mod handle;
mod lenient;
mod type_check;

pub use bytes_column::BytesColumn;
pub use column::Column;
pub use column_check::is_column;
pub use column_value::ColumnValue;
pub use column_values::ColumnValues;
pub use dictionary::Dictionary;
pub use dynamic_column::DynamicColumn;
pub use ends::{END_BYTES, start_at};
pub use error::ColumnError;
pub use first_or_default::ColumnFirstOrDefault;
pub use handle::DynamicColumnHandle;
pub use str_column::StrColumn;
pub use type_check::check_column;

//! The writer of files of columns: values are recorded document by document, each in a column by its name or by its id,
//! and become a file at the end.
//!
//! Its model: a writer is the list of its columns in the order in which they came, each with the type that was declared
//! and the values that were recorded (`ColumnRecord`), and `recorded_columns` says which columns that makes, by the
//! model's definition of the columns of documents; it is undefined where the numbers of a path have no type in common.
//!
//! ```rust
//! let mut writer = ColumnarWriter::new(alloc);
//! writer.record_column_type("title", ColumnType::Str, false)?;
//! let price = writer.column("price", ValueKind::Number)?;
//! writer.record_numerical_in(0, price, NumericalValue::U64(900))?;
//! writer.record_str(1, "title", "Red mug")?;
//! let file = writer.serialize(2)?;
//! ```
//!
//! `file` is one of two documents: the first has a price, the second a title. A column that was declared is there
//! without a value too.
#![tactic(auto)]

// Values as callers record them, and which of them are in one column.
mod numerical_value;
mod value_kind;

// A column while its values come.
mod known_values;
mod recorded_column;
mod row_value;

// Its bytes.
mod column_bytes;
mod encoded_values;

// The columns so far, and the whole file.
mod column_file;
mod column_name;
mod known_columns;
mod typed_column;

// The writer and its calls, by the id of a column and by its name.
mod values_by_column;
mod values_by_name;
mod writer;

pub use numerical_value::NumericalValue;
pub use value_kind::ValueKind;
pub use writer::{ColumnId, ColumnarWriter};

//! The bytes of files of columns as they are written, piece by piece, with the laws that they are read back; which
//! columns the file of a segment has to have by its schema, and which it may have; and the keys of tables in memory,
//! those of terms (`TermKey`) and those of two parts (`CompositeKey`).
//!
//! Its model: `column_bytes` gives the bytes of a column from its rows, `file_bytes` those of a file from its columns,
//! and `columns_in` what the columns are by the model; `HoldColumns` says that bytes are a file of so many documents
//! with the columns that suit a schema.
//!
//! ```rust
//! let mut out = Vec::new(alloc);
//! put_numbers(&mut out, &[RowNumber { row: 0, number: 5 }], 2)?;
//! let mut terms = TermTable::new(alloc);
//! let red = terms.add(alloc, b"red")?;
//! let columns = open_columns(alloc, bytes, &schema, num_docs)?;
//! ```
//!
//! Of two rows the first has the number 5: `out` has where the values of each row end, and then 5, in eight bytes each.
//! `red` is 0, the number of the first term. `columns` is the reader of a file that has all columns which the schema
//! declares, and others only at paths of its fast JSON fields.
#![tactic(auto)]

// What is written is read back.
mod laws;

// The table of a file.
mod column_table;
mod room;

// The keys of tables: terms, and bytes with a small value at their head.
mod composite_key;
mod term_key;

// The distinct terms of a column, by their numbers and in byte order.
mod column_dictionary;
mod term_order;
mod term_table;

// The bytes of a column.
mod column_bytes;
mod row_number;
mod same_ends;

// The columns that a schema declares, and what cuts their texts.
mod declared_columns;
mod fast_tokenizers;

// The paths at which JSON fields may have columns.
mod json_fields;
mod json_paths;
mod path_start;
mod path_starts;

// The check of a file by a schema.
mod opened_columns;
mod schema_columns;
mod values;

pub use column_bytes::{put_numbers, put_ordered_terms};
pub use column_dictionary::put_dictionary;
pub use column_table::{put_entry, put_table, type_code};
pub use composite_key::{CompositeKey, CompositeKeyParts};
pub use declared_columns::declared_type;
pub use fast_tokenizers::{column_tokenizer, lack_tokenizers};
pub use laws::{bytes_columns_read_back, files_read_back, str_columns_read_back};
pub use opened_columns::open_columns;
pub use room::sum;
pub use row_number::RowNumber;
pub use same_ends::put_same_ends;
pub use term_key::{TermBytes, TermKey};
pub use term_order::TermOrder;
pub use term_table::TermTable;

//! The file of a segment's columns, which has a row for each document: it is opened and checked whole, and its columns
//! are found by their paths. Here is also which rows of several files a merge keeps, and in which order. A file with
//! columns is written by `seg_column_writer`; the writer here makes the file without any.
//!
//! Its model: bytes are a file of columns or not (`IsColumnFile`), a reader is its number of rows with its columns in
//! the order of path and type (`ColumnFile`), and an order of rows is a list of places, each a file and a row of it
//! (`rows_in_order`).
//!
//! ```rust
//! let reader = ColumnarReader::open(alloc, bytes)?;
//! for handle in reader.read_columns(alloc, "price")? {
//!     if let DynamicColumn::U64(prices) = handle.open() {
//!         let first = prices.first(0);
//!     }
//! }
//! let kept = KeptRows::of_order(alloc, &[2, 3], &MergeRowOrder::Stack)?;
//! ```
//!
//! Of two files with two and three rows `kept` has a mark for each row, here `true` for all five: `kept.of_file(1)` are
//! the three of the second.
#![tactic(auto)]

// The numbers of the format.
mod format;

// The file without columns.
mod empty;
mod writer;

// The check of a file, from its end on.
mod columns_check;
mod entry;
mod footer;
mod table_check;

// The reader, and columns by their paths.
mod column_iter;
mod reader;
mod selection;

// The types that have columns of their own.
mod associated_type;

// Which rows of several files a merge keeps, and in which order.
mod kept_rows;
mod row_addr;
mod row_order;

pub use associated_type::HasAssociatedColumnType;
pub use column_iter::ColumnIter;
pub use empty::rows_without_columns;
pub use format::{COLUMNS_VERSION, ENTRY_BYTES, LEAST_BYTES};
pub use kept_rows::KeptRows;
pub use reader::ColumnarReader;
pub use row_addr::RowAddr;
pub use row_order::{MergeRowOrder, OrderedRows};
pub use seg_columns::ColumnError;
pub use writer::ColumnarWriter;

//! Files of columns, merged into one with the rows that are kept, in their order, and with the columns that are
//! required in any case. For segments of which some documents are alive it has the columns that the schema declares,
//! and the law that the merged file has the columns of the segments' join.
//!
//! Its model: `merged_columns` says which columns the kept rows have, where the type of a path's numbers goes by these
//! rows, and is undefined where they have none in common; the file has just them (`IsMerged`).
//!
//! ```rust
//! let required = declared_columns(alloc, &schema)?;
//! let file = merge_columnar(alloc, &columnars, &required, &MergeRowOrder::Stack)?;
//! ```
//!
//! `file` has all rows of the first reader in `columnars`, then those of the second, and so on.
//! `MergeRowOrder::Shuffled` keeps the rows of a list of addresses instead.
#![tactic(auto)]

// The columns of all files, by path and kind.
mod groups;
mod table_order;

// What is decided before anything is written.
mod decisions;
mod kept_count;
mod merge;
mod merge_plan;
mod planned_group;
mod room;

// The bytes of the columns, and of the file.
mod group_column;
mod merged_file;
mod term_columns;
mod value_columns;

// The whole.
mod columnar_merge;
mod laws;
mod sorted_merge;

// The columns of segments of which some documents are alive.
mod live_column_laws;
mod live_declarations;

pub use columnar_merge::merge_columnar;
pub use laws::merged_rows_by_kind;
pub use live_column_laws::live_columns_join;
pub use live_declarations::declared_columns;
pub use seg_column_file::MergeRowOrder;

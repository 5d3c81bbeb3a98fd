//! The paths of JSON fields, each with a number, and the leaves of a value with the numbers of their paths. A path is
//! the keys above a leaf, with a byte 1 between each two. A table has each path once, as its last part below the path
//! before it, so that a walk over a value costs the bytes of the value, however many leaves are below a long key.
//!
//! Its model: a table is the list of its paths, no two of them equal, the number of a path is its place (`number_of`),
//! and a table only grows (`Extends`).
//!
//! ```rust
//! let mut paths = PathTable::new(alloc);
//! for NumberedLeaf { path, leaf } in leaves_of(alloc, &mut paths, false, &value)? {
//!     let count = value_of(&counts, path, 0);
//!     set_value(&mut counts, path, 0, count + 1)?;
//! }
//! let ranks = paths.ranks(alloc)?;
//! ```
//!
//! `counts` then has how many leaves each path has, by its number, and `ranks` the place of each path in the order of
//! terms.
#![tactic(auto)]

// A part below a path, and where a path is cut.
mod cut;
mod node;

// The paths so far, and the leaves of a value.
mod leaves;
mod path_table;

// What is kept of each path, by its number.
mod by_path;

// The order of the paths.
mod offset;
mod placed_ranks;
mod ranks;
mod subtrees;

pub use by_path::{set_value, value_of};
pub use leaves::{NumberedLeaf, leaves_of};
pub use path_table::PathTable;

//! Values of any type, read as trees, and values and documents read from pieces. A reference to a value of a type that
//! meets `Value` is a leaf, or an iterator over values or members; those to leaves, owned values and JSON values do. No
//! library above uses it yet.
//!
//! Its model: a value of any type is one tree, the ghost `tree` of `Value`, of which `as_value` tells the parts
//! (`tree_read`), and pieces are a list of marks (`Mark`), which spell one tree at most (`pieces_spell_one_tree`).
//!
//! ```rust
//! let value = OwnedValue::from_pieces(alloc, &mut Pieces::new(pieces))?; // `Piece::Array(1)`, `Piece::Null`
//! let json = JsonValue::new(alloc, &parsed)?; // `parsed` is the `serde_json` value of `[null]`
//! if let ReferenceValue::Array(items) = (&json).as_value() {
//!     for item in items {
//!         let copy = to_owned_value(alloc, item)?;
//!     }
//! }
//! ```
//!
//! `value` is the array of one null, and so is `to_owned_value(alloc, &json)?`; the loop copies its one item.
#![tactic(auto)]

// What a value of any type is read as.
mod value;

// References to leaves, to owned values, and to JSON values.
mod json_access;
mod json_copy;
mod json_value;
mod leaves;
mod no_items;
mod owned_value;

// A value of its own, made of any.
mod leaf_copy;
mod readable;
mod value_copy;

// Values and documents, read from pieces.
mod document_deserialize;
mod json_pieces;
mod laws;
mod owned_pieces;
mod pieces;
mod value_deserialize;

// The pairs of a map.
mod field_copying_iterator;

pub use document_deserialize::DocumentDeserialize;
pub use field_copying_iterator::FieldCopyingIterator;
pub use json_access::{JsonArrayIter, JsonObjectIter};
pub use json_value::{JsonMember, JsonMembers, JsonValue, JsonValues};
pub use laws::pieces_spell_one_tree;
pub use no_items::NoItems;
pub use owned_value::{ArrayIter, ObjectMapIter};
pub use pieces::{Piece, Pieces};
pub use value::{ReferenceValue, ReferenceValueLeaf, Value};
pub use value_copy::to_owned_value;
pub use value_deserialize::ValueDeserialize;

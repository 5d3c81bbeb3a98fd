//! What an index is given: values, facets, schemas, documents and terms, with values and documents as JSON, both ways;
//! and the errors by which a call of an index is refused.
//!
//! Its model: a value is a tree (`tree_of`), a document a list of fields with trees, a schema the list of its entries,
//! a term a field with bytes, and a facet the text of its steps with a byte 0 between each two.
//!
//! ```rust
//! let title = Field::from_field_id(0);
//! let mut document = TantivyDocument::new(alloc);
//! document.add_text(title, "Red mug")?;
//! document.add_field_value(title, OwnedValue::from_text(alloc, "blue mug")?)?;
//! let line = document.to_json(alloc, &schema)?;
//! let term = Term::from_field_text(alloc, title, "red")?;
//! ```
//!
//! In a schema whose first field is `title`, `line` is `{"title":["Red mug","blue mug"]}`. A schema is built by
//! `SchemaBuilder::add_field`, and `Schema::get_field` answers the field of a name.
#![tactic(auto)]

// Why a value or a call is refused.
mod error;
mod postings_error;
mod value_error;

// Values: leaves, lists, and keys with values.
mod conversions;
mod facet;
mod value;

// Schemas: fields, by their places and by their names; and how their stored documents are compressed.
mod compressor;
mod field_type;
mod name_search;
mod schema;
mod schema_fields;

// Documents: lists of pairs, maps, and pairs that are lent.
mod document;
mod document_maps;
mod document_trait;
mod hash_map_document;
mod map_documents;
mod pairs;

// Values and documents as JSON, read and written.
mod address;
mod document_json;
mod read_json;
mod reading;
mod write_json;

// Terms of fields, and of paths in JSON fields.
mod fast_value;
mod json_path;
mod term;

// What holds of all.
mod equality;
mod laws;
mod utf8;

pub use address::shown_address;
pub use compressor::Compressor;
pub use document::{Documents, TantivyDocument};
pub use document_trait::Document;
pub use error::{ArgumentCause, SchemaCause, TResult, TantivyError};
pub use facet::Facet;
pub use fast_value::{
    BOOL_CODE, DATE_CODE, FastValue, I64_CODE, LeafCode, TEXT_CODE, U64_CODE, coded_leaf,
};
pub use field_type::FieldType;
pub use json_path::json_path_text;
pub use laws::json_reads_back;
pub use pairs::Pairs;
pub use postings_error::PostingsError;
pub use schema::{Field, FieldEntry, FieldKind, IndexOption, Schema, SchemaBuilder};
pub use term::Term;
pub use value::{MOST_LEVELS, Member, Members, OwnedValue, Values};
pub use value_error::ValueError;

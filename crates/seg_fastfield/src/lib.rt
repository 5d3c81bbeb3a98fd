//! Fast fields. Their writer records the values of documents, those of JSON leaf by leaf, and makes the file of columns
//! of a segment; their readers find the columns of a segment by the names of its fields.
//!
//! Its model: a writer is its schema, the columns that were recorded and the number of rows, and `Holds` says that they
//! are what documents record (`recorded_values`); readers are the schema and the columns of the file (`FastFields`),
//! `StandsFor` says which path a name stands for, and each answer is a function of the columns there.
//!
//! ```rust
//! let mut writer = FastFieldsWriter::from_schema_and_tokenizer_manager(alloc, &schema, &analyzers)?;
//! writer.add_document(&document, &analyzers)?;
//! let file = writer.serialize()?;
//! let readers = FastFieldReaders::new(columnar, schema); // `columnar` reads the bytes of `file`
//! let prices = readers.u64(alloc, "price")?;
//! let widths = readers.i64(alloc, "attributes.size.width")?;
//! ```
//!
//! `prices.first(0)` is the price of the document, and `widths` has the numbers of a JSON field at the path of two
//! keys.
#![tactic(auto)]

// What a schema declares, and what is known of a column before it is looked up.
mod kind_columns;
mod path_columns;
mod place;
mod schema_columns;

// Values, leaves, trees and documents, recorded.
mod leaf;
mod placed_values;
mod row_recorder;
mod tree;

// The writer.
mod writer;

// The path that a name stands for, and what a caller is told where there is no column.
mod column_name;
mod not_available;

// The readers.
mod facet_reader;
mod handles;
mod lenient;
mod readers;
mod typed_columns;

pub use facet_reader::FacetReader;
pub use not_available::FastFieldNotAvailableError;
pub use readers::FastFieldReaders;
pub use writer::FastFieldsWriter;

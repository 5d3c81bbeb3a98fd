//! Reads a script: a JSON text that says a schema, the operations on documents, and how an index is made of them.
//! `docs/SCRIPT.md` says what a script is.
//!
//! Its model: `script` gives the input that bytes say, by the JSON value that `serde_json` defines of them, or none
//! where they are no script; an input is an `Input` of `seg_model`, and well formed (`scripts_are_well_formed`).
//!
//! ```rust
//! let text = r#"{"schema": [{"name": "title", "kind": "text", "stored": true}],
//!     "operations": [{"add": [["title", "Red mug"]]}]}"#;
//! let input = read_script(alloc, Vec::from_slice(alloc, text.as_bytes())?)?;
//! let (fields, operations) = (input.schema.num_fields(), input.operations.len());
//! ```
//!
//! The input has one field, one operation, no cut, no filter for its one batch, and the ids 1 and 2.
#![tactic(auto)]

// Why bytes are no script.
mod error;

// JSON values off a text, numbers off their tokens, and items of lists.
mod json_values;
mod numbers;
mod parts;
mod pushed_item;

// The schema and the settings.
mod fields;
mod settings;

// The operations: what is added, and what deletes name.
mod deletes;
mod operation_list;
mod operations;
mod pairs;
mod reading;

// Cuts, filters and ids.
mod cuts;
mod filters;
mod ids;
mod kept_documents;

// The whole, and what every script holds.
mod laws;
mod script;

pub use error::ScriptError;
pub use laws::scripts_are_well_formed;
pub use script::read_script;

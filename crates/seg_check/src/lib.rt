//! What is refused before anything is written: inputs whose cuts, filters, ids, names, settings, tokenizers or deletes
//! don't fit, documents that a schema doesn't take or that pass a limit, and schemas, settings and budgets that no
//! writer may start with. An input is what an index is built from: a schema, settings, and operations on documents,
//! with cuts between batches, filters and ids.
//!
//! Its model: a `BuildInput`, owned or borrowed, is one `Input` of `seg_model`, and what is answered is the first cause
//! there: `input_refusal` of an input, `document_refusal` of a document, by four passes over its pairs, and
//! `start_refusal` of a writer.
//!
//! ```rust
//! check_input(alloc, &analyzers, &input.as_ref())?;
//! check_document(alloc, &input.schema, &analyzers, &document, 0)?;
//! if let Some(refusal) = start_refusal(&analyzers, LEAST_BUDGET, &input.schema, &input.settings) {
//!     return Err(refusal);
//! }
//! let fits = settings_fit(&input.settings);
//! ```
//!
//! The 0 is the place of the document among the operations, which its error names. `fits` is true here, since a writer
//! may start: no compression is asked for, and no thread of its own.
#![tactic(auto)]

// What an index is built from.
mod build_input;
mod build_input_ref;
mod user_operation;

// What a writer may start with.
mod writer_start;

// Inputs that are refused, before a directory is called.
mod batch_cuts;
mod deletes;
mod filters;
mod ids;
mod input_check;

// Documents: what an entry says of texts, and the values of indexed fields.
mod entry;
mod field_text;
mod indexed_value;

// The first two passes: fields with the values that they take, and JSON leaves and keys.
mod fields;
mod json;
mod kinds;

// The third pass: each text is cut once, and what came in each field is added up.
mod field_totals;
mod paths;
mod positions;
mod size;
mod texts;
mod totals;

// The fourth pass: limits; and all four in turn.
mod document;
mod levels;
mod limits;
mod stored_len;

pub use build_input::BuildInput;
pub use build_input_ref::BuildInputRef;
pub use document::{check_document, checked_values};
pub use entry::indexing_tokenizer;
pub use field_text::given_tokens;
pub use indexed_value::{IndexedValue, ValueForm};
pub use input_check::check_input;
pub use kinds::is_own_leaf;
pub use size::{counted_len, text_width};
pub use user_operation::UserOperation;
pub use writer_start::{LEAST_BUDGET, settings_fit, start_refusal};

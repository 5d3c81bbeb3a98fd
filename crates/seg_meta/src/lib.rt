//! The meta of an index: what `meta.json` says of its settings, its schema and its segments, as a text, both ways, and
//! as the file of a directory; and an index, begun in a directory without files, and opened again.
//!
//! Its model: a meta is settings, a schema, a list of segments, a stamp and a payload (`meta_of`), its text is the
//! pretty JSON text of `meta_json` with a line feed, and bytes read as one meta or as none (`meta_read`); each meta is
//! what its own text reads as (`metas_read_back`).
//!
//! ```rust
//! let index = Index::create(alloc, schema, settings, &mut directory)?;
//! let again = Index::open(alloc, &mut directory)?;
//! for segment in again.searchable_segments(alloc)? {
//!     let (id, documents) = (segment.id(), segment.meta().num_docs());
//! }
//! save_metas(alloc, index.metas(), &mut directory)?;
//! ```
//!
//! A new index lists no segment. `save_metas` replaces the file of the meta in one step.
#![tactic(auto)]

// Settings, and segments as a meta lists them.
mod delete_meta;
mod index_settings;
mod segment_meta;
mod segment_metas;

// The meta, and a segment of an index.
mod index_meta;
mod segment;

// The text of a meta.
mod content;
mod meta_json;
mod words;

// What is read from a text.
mod entry_read;
mod members;
mod meta_read;
mod read_error;
mod schema_read;
mod segment_read;
mod segments_read;
mod settings_read;

// A meta reads back from its own text.
mod meta_law;
mod ranges;

// The file of a directory, and an index.
mod index;
mod load;
mod save;

pub use content::meta_text;
pub use delete_meta::DeleteMeta;
pub use entry_read::{entry_from, has_entry_members};
pub use index::Index;
pub use index_meta::IndexMeta;
pub use index_settings::{DEFAULT_BLOCK_SIZE, IndexSettings};
pub use load::load_metas;
pub use members::{has_only, number_at, text_at};
pub use meta_law::{id_fits, ids_fit, meta_texts_read_back, metas_read_back, schema_reads_back};
pub use meta_read::read_meta;
pub use read_error::ReadError;
pub use save::save_metas;
pub use segment::Segment;
pub use segment_meta::SegmentMeta;
pub use segment_metas::SegmentMetas;
pub use segment_read::segment_from;
pub use settings_read::{has_settings_members, settings_from};
pub use words::{compressor_from, index_from, kind_from, precision_from};

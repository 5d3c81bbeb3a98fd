//! What the groups have in common: an analyzer, fields and schemas, documents, segments and directories.

mod analyzers;
mod directories;
mod documents;
mod fields;
mod files;
mod segments;

pub(crate) use analyzers::Words;
pub(crate) use directories::memory;
pub(crate) use documents::document;
pub(crate) use fields::{FieldRow, entry, schema};
pub(crate) use files::file;
pub(crate) use segments::{segment, segment_id, settings};

//! What segments say of their fields.
ghost use Rattle.std.specs.Prelude.{◌≡◌, IfOk};

use super::indices::{StoredIndex, index_of, index_of_text, opened};
use super::metadata::{add_entries, add_entry, together};
use crate::lines::Lines;
use crate::samples::{document, entry};
use seg_field_metadata::{FieldMetadata, fields_metadata};
use seg_tokens::Text;
use seg_values::{
    Field, FieldEntry, FieldKind, IndexOption, Members, OwnedValue, Schema, SchemaBuilder, TResult,
    TantivyDocument,
};
use std::alloc::{AllocError, Global};

/// A JSON field with terms and columns.
fn attributes(alloc: Global) -> Result<FieldEntry, AllocError>
    ensures { IfOk result (λ e. (e.kind ≡ FieldKind.Json) × (e.index ≡ IndexOption.Positions)) }
{
    let mut attributes = entry(alloc, "attrs", FieldKind::Json, IndexOption::Positions)?;
    attributes.fast = true;
    Ok(attributes)
}

/// A title, and attributes.
fn article_schema(alloc: Global) -> TResult<Schema> {
    let mut builder = SchemaBuilder::new(alloc);
    builder.add_field(entry(alloc, "title", FieldKind::Text, IndexOption::Positions)?)?;
    builder.add_field(attributes(alloc)?)?;
    Ok(builder.build())
}

/// The object that has one value, under this key.
fn object(alloc: Global, key: &str, value: OwnedValue) -> Result<OwnedValue, AllocError> {
    let mut members = Members::new(alloc);
    members.push(Text::copy_of(alloc, key)?, value)?;
    Ok(OwnedValue::Object(members))
}

/// A document with the title `a` and one attribute.
fn article(alloc: Global, key: &str, value: OwnedValue) -> Result<TantivyDocument, AllocError> {
    let attributes = object(alloc, key, value)?;
    let mut article = document(alloc, &[(0, "a")])?;
    match article.add_field_value(Field::from_field_id(1), attributes) {
        Ok(()) => Ok(article),
        Err(_) => Err(AllocError),
    }
}

/// It alone.
fn articles(
    alloc: Global,
    key: &str,
    value: OwnedValue,
) -> Result<Vec<TantivyDocument>, AllocError> {
    let mut articles = Vec::new(alloc);
    articles.push(article(alloc, key, value)?)?;
    Ok(articles)
}

/// What the segment of an index says.
fn said_by(alloc: Global, index: StoredIndex) -> TResult<Vec<FieldMetadata>> {
    fields_metadata(alloc, &opened(alloc, index)?)
}

/// What the segment of such a document says.
fn article_says(alloc: Global, key: &str, value: OwnedValue) -> TResult<Vec<FieldMetadata>> {
    let articles = articles(alloc, key, value)?;
    said_by(
        alloc,
        index_of(alloc, article_schema(alloc)?, 16384, articles)?,
    )
}

/// What two segments say together: one has a text under a key with a dot, the other one a number.
fn said_together(alloc: Global) -> TResult<Vec<FieldMetadata>> {
    let text = OwnedValue::Str(Text::copy_of(alloc, "a")?);
    let first = article_says(alloc, "k.x", text)?;
    let second = article_says(alloc, "n", OwnedValue::I64(5))?;
    together(alloc, first, second)
}

/// What the segment of the title `a` says.
fn title_says(alloc: Global) -> TResult<Vec<FieldMetadata>> {
    said_by(alloc, index_of_text(alloc, "title", "a")?)
}

fn add_copies(lines: &mut Lines, entries: &[FieldMetadata]) {
    lines.add("FieldMetadata::try_clone of each:");
    for entry in entries {
        match entry.try_clone(lines.alloc()) {
            Ok(copy) => add_entry(lines, &copy),
            Err(_) => lines.miss(),
        }
    }
}

fn add_title(lines: &mut Lines, said: &[FieldMetadata]) {
    lines.add("fields_metadata of the title \"a\":");
    add_entries(lines, said);
    add_copies(lines, said);
}

pub(super) fn add_described_fields(lines: &mut Lines) {
    let alloc = lines.alloc();
    match title_says(alloc) {
        Ok(said) => add_title(lines, &said),
        Err(_) => lines.miss(),
    }
    lines.add(
        "merge_field_meta_data of two segments, of the title \"a\" with the \"attrs\" {\"k.x\": \"a\"} and {\"n\": 5}:",
    );
    match said_together(alloc) {
        Ok(said) => add_entries(lines, &said),
        Err(_) => lines.miss(),
    }
}

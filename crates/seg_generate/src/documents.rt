//! The schema and the documents of the generated input.
ghost use Rattle.std.specs.Prelude.{◌≡◌, ◌+◌, ◌-◌, ◌<◌, ◌^◌, ◌%◌, [], ◌∷◌, ◌++◌, true, codes, pos, length, IfOk, OnOk};
ghost use Rattle.seg_values.specs.FieldNames.{is_allowed, kept_entry};
ghost use Rattle.seg_values.specs.Tree.{leaf, signed};
ghost use Rattle.seg_values.specs.ValueTrees.{tree_of};
ghost use Rattle.seg_generate.specs.Documents.{attrs_entry, body_entry, body_text, document, id_entry, schema};

use itoa::Buffer;
use seg_common::DateTimePrecision;
use seg_tokens::Text;
use seg_values::{
    Field, FieldEntry, FieldKind, IndexOption, Members, OwnedValue, Schema, SchemaBuilder,
    TantivyDocument,
};
use std::alloc::{AllocError, Global};

pub(crate) fn schema(alloc: Global) -> Result<Schema, AllocError>
    ensures { IfOk result (λ s. s ≡ schema) }
{
    let mut builder = SchemaBuilder::new(alloc);
    add_entry(&mut builder, id_entry(alloc)?)?;
    add_entry(&mut builder, body_entry(alloc)?)?;
    add_entry(&mut builder, attrs_entry(alloc)?)?;
    Ok(builder.build())
}

fn add_entry(builder: &mut SchemaBuilder, entry: FieldEntry) -> Result<(), AllocError>
    requires few { length builder.old + 1 < 2 ^ 32 - 1 }
    requires allowed { is_allowed entry.kind entry.index ≡ true }
    ensures { OnOk result (builder.new ≡ builder.old ++ kept_entry entry ∷ []) }
{
    match builder.add_field(entry) {
        Ok(_) => Ok(()),
        Err(_) => Err(AllocError),
    }
}

fn id_entry(alloc: Global) -> Result<FieldEntry, AllocError>
    ensures { IfOk result (λ e. e ≡ id_entry) }
{
    Ok(FieldEntry {
        name: Text::copy_of(alloc, "id")?,
        kind: FieldKind::U64,
        stored: true,
        index: IndexOption::Basic,
        tokenizer: None,
        norms: false,
        fast: true,
        fast_tokenizer: None,
        precision: DateTimePrecision::Seconds,
        expand_dots: false,
    })
}

fn body_entry(alloc: Global) -> Result<FieldEntry, AllocError>
    ensures { IfOk result (λ e. e ≡ body_entry) }
{
    Ok(FieldEntry {
        name: Text::copy_of(alloc, "body")?,
        kind: FieldKind::Text,
        stored: true,
        index: IndexOption::Positions,
        tokenizer: None,
        norms: true,
        fast: false,
        fast_tokenizer: None,
        precision: DateTimePrecision::Seconds,
        expand_dots: false,
    })
}

fn attrs_entry(alloc: Global) -> Result<FieldEntry, AllocError>
    ensures { IfOk result (λ e. e ≡ attrs_entry) }
{
    Ok(FieldEntry {
        name: Text::copy_of(alloc, "attrs")?,
        kind: FieldKind::Json,
        stored: false,
        index: IndexOption::Basic,
        tokenizer: None,
        norms: false,
        fast: true,
        fast_tokenizer: None,
        precision: DateTimePrecision::Seconds,
        expand_dots: false,
    })
}

/// The document of a number.
pub(crate) fn document(alloc: Global, number: u32) -> Result<TantivyDocument, AllocError>
    ensures { IfOk result (λ d. d ≡ document number) }
{
    let body = OwnedValue::Str(body_text(alloc, number)?);
    let attrs = OwnedValue::Object(attrs(alloc, number)?);
    let mut document = TantivyDocument::new(alloc);
    add_value(&mut document, 0, OwnedValue::U64(u64::from(number)))?;
    add_value(&mut document, 1, body)?;
    add_value(&mut document, 2, attrs)?;
    Ok(document)
}

fn add_value(
    document: &mut TantivyDocument,
    field: u32,
    value: OwnedValue,
) -> Result<(), AllocError>
    ensures { OnOk result (document.new ≡ document.old ++ (field, tree_of value) ∷ []) }
{
    match document.add_field_value(Field::from_field_id(field), value) {
        Ok(()) => Ok(()),
        Err(_) => Err(AllocError),
    }
}

/// Two tokens.
fn body_text(alloc: Global, number: u32) -> Result<Text, AllocError>
    ensures { IfOk result (λ t. t ≡ body_text number) }
{
    let mut buffer = Buffer::new();
    let mut text = String::from_str(alloc, "a")?;
    text.push_str(buffer.format(number % 50))?;
    text.push_str(" b")?;
    text.push_str(buffer.format(number % 40))?;
    Ok(Text::from_string(text))
}

/// One number, under the key `n`.
fn attrs(alloc: Global, number: u32) -> Result<Members, AllocError>
    ensures { IfOk result (λ m. m ≡ (codes "n", leaf (signed (pos (number % 100)))) ∷ []) }
{
    let mut members = Members::new(alloc);
    let value = OwnedValue::I64(i64::from(number % 100));
    members.push(Text::copy_of(alloc, "n")?, value)?;
    Ok(members)
}

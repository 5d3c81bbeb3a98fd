//! The file of terms: the dictionaries of all fields.
ghost use Rattle.std.specs.Prelude.{◌≡◌, ◌<◌, ◌-◌, ◌^◌, ◌++◌, ◌∷◌, [], true, length, IfOk, IfErr, OnOk};
ghost use Rattle.seg_model.specs.Fields.{is_indexed};
ghost use Rattle.seg_open.specs.OpenedTermFiles.{AreFirst, IsFirst, IsFirstAt, IsTold, LacksDictionary, OneLacksDictionary, TermsOpened, TermsUnopened};

use crate::open_error::OpenError;
use crate::term_files::open_parts;
use seg_common::{OwnedBytes, SegmentComponent};
use seg_directory::CompositeFile;
use seg_postings::FieldTerms;
use seg_values::{Field, FieldEntry, Schema};
use std::alloc::{AllocError, Global};

/// Opens the dictionary of each field that is indexed, each with one place in the list.
pub(crate) fn open_dictionaries(
    alloc: Global,
    terms: OwnedBytes,
    schema: &Schema,
    max_doc: u32,
) -> Result<Vec<Option<FieldTerms>>, OpenError>
    ensures ok { IfOk result (λ fields. TermsOpened schema.now max_doc terms fields.items) }
    ensures few { IfOk result (λ fields. length fields.items < 2 ^ 32 - 1) }
    ensures err { IfErr result (IsTold SegmentComponent.Terms (TermsUnopened schema.now terms)) }
{
    let Some(parts) = open_parts(terms, schema) else {
        return Err(OpenError::Damaged(SegmentComponent::Terms));
    };
    open_all(alloc, &parts, schema, max_doc)
}

fn open_all(
    alloc: Global,
    parts: &CompositeFile,
    schema: &Schema,
    max_doc: u32,
) -> Result<Vec<Option<FieldTerms>>, OpenError>
    ensures ok { IfOk result (λ fields. AreFirst schema.now max_doc parts.now fields.items) }
    ensures few { IfOk result (λ fields. length fields.items < 2 ^ 32 - 1) }
    ensures err { IfErr result (IsTold SegmentComponent.Terms (OneLacksDictionary schema.now parts.now)) }
{
    schema.fields_are_valid();
    open_entries(alloc, parts, schema.fields(), max_doc)
}

fn open_entries(
    alloc: Global,
    parts: &CompositeFile,
    entries: &[FieldEntry],
    max_doc: u32,
) -> Result<Vec<Option<FieldTerms>>, OpenError>
    requires few { length entries.now < 2 ^ 32 - 1 }
    ensures ok { IfOk result (λ fields. AreFirst entries.now max_doc parts.now fields.items) }
    ensures few { IfOk result (λ fields. length fields.items < 2 ^ 32 - 1) }
    ensures err { IfErr result (IsTold SegmentComponent.Terms (OneLacksDictionary entries.now parts.now)) }
{
    let mut fields = Vec::new(alloc);
    for (place, entry) in entries.iter().enumerate() {
        match open_entry(alloc, parts, entry, place, max_doc) {
            Err(e) => return Err(e),
            Ok(field) => {
                let Ok(()) = push_dictionary(&mut fields, field) else {
                    return Err(OpenError::OutOfMemory);
                };
            }
        }
    }
    Ok(fields)
}

/// Opens the dictionary of the field at a place, where it is indexed.
fn open_entry(
    alloc: Global,
    parts: &CompositeFile,
    entry: &FieldEntry,
    place: usize,
    max_doc: u32,
) -> Result<Option<FieldTerms>, OpenError>
    requires few { place < 2 ^ 32 - 1 }
    ensures ok { IfOk result (IsFirstAt entry.now place max_doc parts.now) }
    ensures err { IfErr result
        (IsTold SegmentComponent.Terms ((is_indexed entry.now ≡ true) × LacksDictionary entry.now parts.now place)) }
{
    if !entry.is_indexed() {
        return Ok(None);
    }
    let field = Field::from_field_id(place as u32);
    match open_dictionary(alloc, parts, entry, field, max_doc) {
        Ok(terms) => Ok(Some(terms)),
        Err(e) => Err(e),
    }
}

fn open_dictionary(
    alloc: Global,
    parts: &CompositeFile,
    entry: &FieldEntry,
    field: Field,
    max_doc: u32,
) -> Result<FieldTerms, OpenError>
    ensures ok { IfOk result (IsFirst entry.now field max_doc parts.now) }
    ensures err { IfErr result (IsTold SegmentComponent.Terms (LacksDictionary entry.now parts.now field)) }
{
    let Some(part) = parts.open_read(field) else {
        return Err(OpenError::Damaged(SegmentComponent::Terms));
    };
    let Ok(terms) = FieldTerms::open(alloc, part, entry, max_doc) else {
        return Err(OpenError::Damaged(SegmentComponent::Terms));
    };
    Ok(terms)
}

fn push_dictionary(
    fields: &mut Vec<Option<FieldTerms>>,
    field: Option<FieldTerms>,
) -> Result<(), AllocError>
    ensures { OnOk result (fields.new.items ≡ fields.old.items ++ field ∷ []) }
{
    fields.push(field)?;
    Ok(())
}

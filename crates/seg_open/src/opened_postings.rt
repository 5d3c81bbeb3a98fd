//! The file of postings: those of all fields whose dictionaries are open.
ghost use Rattle.std.specs.Prelude.{◌≡◌, ◌<◌, ◌-◌, ◌^◌, ◌++◌, ◌∷◌, [], length, IfOk, IfErr, IsSomeAnd, OnOk};
ghost use Rattle.seg_open.specs.OpenedTermFiles.{AddsPostings, AllGoOn, GoesOn, IsTold, LacksPostings, OneStops, PostingsOpened, PostingsUnopened};

use crate::open_error::OpenError;
use crate::term_files::open_parts;
use seg_common::{OwnedBytes, SegmentComponent};
use seg_directory::CompositeFile;
use seg_postings::{FieldPostings, FieldTerms};
use seg_values::{Field, PostingsError, Schema};
use std::alloc::{AllocError, Global};

/// Goes on with the postings of each field that has a dictionary.
pub(crate) fn open_postings(
    alloc: Global,
    postings: OwnedBytes,
    schema: &Schema,
    fields: Vec<Option<FieldTerms>>,
) -> Result<Vec<Option<FieldPostings>>, OpenError>
    requires few { length fields.items < 2 ^ 32 - 1 }
    ensures ok { IfOk result (λ opened. PostingsOpened schema.now postings fields.items opened.items) }
    ensures few { IfOk result (λ opened. length opened.items < 2 ^ 32 - 1) }
    ensures err { IfErr result (IsTold SegmentComponent.Postings (PostingsUnopened schema.now postings fields.items)) }
{
    let Some(parts) = open_parts(postings, schema) else {
        return Err(OpenError::Damaged(SegmentComponent::Postings));
    };
    add_postings(alloc, &parts, fields.as_slice())
}

fn add_postings(
    alloc: Global,
    parts: &CompositeFile,
    fields: &[Option<FieldTerms>],
) -> Result<Vec<Option<FieldPostings>>, OpenError>
    requires few { length fields.now < 2 ^ 32 - 1 }
    ensures ok { IfOk result (λ opened. AllGoOn (AddsPostings parts.now) fields.now opened.items) }
    ensures few { IfOk result (λ opened. length opened.items < 2 ^ 32 - 1) }
    ensures err { IfErr result (IsTold SegmentComponent.Postings (OneStops (LacksPostings parts.now) fields.now)) }
{
    let mut opened = Vec::new(alloc);
    for (place, field) in fields.iter().enumerate() {
        match postings_at(parts, place, field) {
            Err(e) => return Err(e),
            Ok(postings) => {
                let Ok(()) = push_postings(&mut opened, postings) else {
                    return Err(OpenError::OutOfMemory);
                };
            }
        }
    }
    Ok(opened)
}

/// The postings of the field at a place, where it has a dictionary.
fn postings_at(
    parts: &CompositeFile,
    place: usize,
    field: &Option<FieldTerms>,
) -> Result<Option<FieldPostings>, OpenError>
    requires few { place < 2 ^ 32 - 1 }
    ensures ok { IfOk result (GoesOn (AddsPostings parts.now place) field.now) }
    ensures err { IfErr result
        (IsTold SegmentComponent.Postings (IsSomeAnd field.now (LacksPostings parts.now place))) }
{
    match field {
        None => Ok(None),
        Some(terms) => {
            let field = Field::from_field_id(place as u32);
            match postings_of(parts, field, terms) {
                Ok(postings) => Ok(Some(postings)),
                Err(e) => Err(e),
            }
        }
    }
}

fn postings_of(
    parts: &CompositeFile,
    field: Field,
    terms: &FieldTerms,
) -> Result<FieldPostings, OpenError>
    ensures ok { IfOk result (AddsPostings parts.now field terms.now) }
    ensures err { IfErr result (IsTold SegmentComponent.Postings (LacksPostings parts.now field terms.now)) }
{
    let Some(part) = parts.open_read(field) else {
        return Err(OpenError::Damaged(SegmentComponent::Postings));
    };
    let Ok(terms) = terms.clone() else {
        return Err(OpenError::OutOfMemory);
    };
    match terms.with_postings(part) {
        Ok(postings) => Ok(postings),
        Err(PostingsError::OutOfMemory) => Err(OpenError::OutOfMemory),
        Err(PostingsError::Malformed) => Err(OpenError::Damaged(SegmentComponent::Postings)),
    }
}

fn push_postings(
    opened: &mut Vec<Option<FieldPostings>>,
    field: Option<FieldPostings>,
) -> Result<(), AllocError>
    ensures { OnOk result (opened.new.items ≡ opened.old.items ++ field ∷ []) }
{
    opened.push(field)?;
    Ok(())
}

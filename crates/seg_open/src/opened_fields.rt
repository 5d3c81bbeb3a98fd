//! The file of positions, with which the terms of all fields are open.
ghost use Rattle.std.specs.Prelude.{◌≡◌, ◌<◌, ◌-◌, ◌^◌, ◌++◌, ◌∷◌, [], length, Some, IfOk, IfErr, IsSomeAnd, OnOk};
ghost use Rattle.seg_open.specs.OpenedTermFiles.{AddsPositions, AllGoOn, GoesOn, IsTold, LacksPositions, OneStops, PositionsOpened, PositionsUnopened};

use crate::open_error::OpenError;
use crate::term_files::open_parts;
use seg_common::{OwnedBytes, SegmentComponent, Shared};
use seg_directory::CompositeFile;
use seg_postings::{FieldPostings, InvertedIndexReader};
use seg_values::{Field, PostingsError, Schema};
use std::alloc::{AllocError, Global};

/// Goes on with the positions of each field that has postings.
pub(crate) fn open_fields(
    alloc: Global,
    positions: OwnedBytes,
    schema: &Schema,
    fields: Vec<Option<FieldPostings>>,
) -> Result<Vec<Option<Shared<InvertedIndexReader>>>, OpenError>
    requires few { length fields.items < 2 ^ 32 - 1 }
    ensures ok { IfOk result (λ opened. PositionsOpened schema.now positions fields.items opened.items) }
    ensures err { IfErr result
        (IsTold SegmentComponent.Positions (PositionsUnopened schema.now positions fields.items)) }
{
    let Some(parts) = open_parts(positions, schema) else {
        return Err(OpenError::Damaged(SegmentComponent::Positions));
    };
    add_positions(alloc, &parts, fields.as_slice())
}

fn add_positions(
    alloc: Global,
    parts: &CompositeFile,
    fields: &[Option<FieldPostings>],
) -> Result<Vec<Option<Shared<InvertedIndexReader>>>, OpenError>
    requires few { length fields.now < 2 ^ 32 - 1 }
    ensures ok { IfOk result (λ opened. AllGoOn (AddsPositions parts.now) fields.now opened.items) }
    ensures err { IfErr result (IsTold SegmentComponent.Positions (OneStops (LacksPositions parts.now) fields.now)) }
{
    let mut opened = Vec::new(alloc);
    for (place, field) in fields.iter().enumerate() {
        match field_at(alloc, parts, place, field) {
            Err(e) => return Err(e),
            Ok(field) => {
                let Ok(()) = push_field(&mut opened, field) else {
                    return Err(OpenError::OutOfMemory);
                };
            }
        }
    }
    Ok(opened)
}

/// The field at a place, where it has postings.
fn field_at(
    alloc: Global,
    parts: &CompositeFile,
    place: usize,
    field: &Option<FieldPostings>,
) -> Result<Option<Shared<InvertedIndexReader>>, OpenError>
    requires few { place < 2 ^ 32 - 1 }
    ensures ok { IfOk result (GoesOn (AddsPositions parts.now place) field.now) }
    ensures err { IfErr result
        (IsTold SegmentComponent.Positions (IsSomeAnd field.now (LacksPositions parts.now place))) }
{
    match field {
        None => Ok(None),
        Some(postings) => {
            let field = Field::from_field_id(place as u32);
            match open_field(parts, field, postings) {
                Ok(field) => shared(alloc, field),
                Err(e) => Err(e),
            }
        }
    }
}

fn open_field(
    parts: &CompositeFile,
    field: Field,
    postings: &FieldPostings,
) -> Result<InvertedIndexReader, OpenError>
    ensures ok { IfOk result (AddsPositions parts.now field postings.now) }
    ensures err { IfErr result (IsTold SegmentComponent.Positions (LacksPositions parts.now field postings.now)) }
{
    let Some(part) = parts.open_read(field) else {
        return Err(OpenError::Damaged(SegmentComponent::Positions));
    };
    let Ok(postings) = postings.clone() else {
        return Err(OpenError::OutOfMemory);
    };
    match postings.with_positions(part) {
        Ok(reader) => Ok(reader),
        Err(PostingsError::OutOfMemory) => Err(OpenError::OutOfMemory),
        Err(PostingsError::Malformed) => Err(OpenError::Damaged(SegmentComponent::Positions)),
    }
}

fn shared(
    alloc: Global,
    field: InvertedIndexReader,
) -> Result<Option<Shared<InvertedIndexReader>>, OpenError>
    ensures ok { IfOk result (λ opened. opened ≡ Some field) }
    ensures err { IfErr result (λ e. e ≡ OpenError.OutOfMemory) }
{
    match Shared::new(alloc, field) {
        Ok(shared) => Ok(Some(shared)),
        Err(_) => Err(OpenError::OutOfMemory),
    }
}

fn push_field(
    fields: &mut Vec<Option<Shared<InvertedIndexReader>>>,
    field: Option<Shared<InvertedIndexReader>>,
) -> Result<(), AllocError>
    ensures { OnOk result (fields.new.items ≡ fields.old.items ++ field ∷ []) }
{
    fields.push(field)?;
    Ok(())
}

/// The same fields again, over the same bytes.
pub(crate) fn share_fields(
    alloc: Global,
    fields: &[Option<Shared<InvertedIndexReader>>],
) -> Result<Vec<Option<Shared<InvertedIndexReader>>>, AllocError>
    ensures { IfOk result (λ copy. copy.items ≡ fields.now) }
{
    let mut copy = Vec::new(alloc);
    for field in fields {
        push_field(&mut copy, share_field(field))?;
    }
    Ok(copy)
}

fn share_field(field: &Option<Shared<InvertedIndexReader>>) -> Option<Shared<InvertedIndexReader>>
    ensures { result ≡ field.now }
{
    match field {
        Some(opened) => Some(opened.share()),
        None => None,
    }
}

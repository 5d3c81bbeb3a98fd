//! The lengths of fields while documents are added.
ghost use Rattle.std.specs.Prelude.{◌≡◌, ◌≤◌, ◌<◌, ◌^◌, ℕ, List, Option, Some, None, [], if◌then◌else◌, map, option_map, option_and_then, IfOk, IfErr, IfSome, OnOk};
ghost use Rattle.std.specs.List.{slice_get};
ghost use Rattle.seg_common.specs.WriterGrowth.{HasGrown};
ghost use Rattle.seg_model.specs.Fields as fields;
ghost use Rattle.seg_norms.specs.FieldNorms.{no_norms, fields_with_lengths, filled, with_length, at_field};

use crate::length_ids::LengthIds;
use seg_values::{Field, FieldEntry, PostingsError, Schema};
use std::alloc::{AllocError, Global};
use std::marker::Model;

/// Keeps the ids of the lengths of each field that has lengths, and nothing of the others. Once out of memory it
/// answers so for good, and it is seen as nothing.
#[derive(Drop)]
pub struct FieldNormsWriter {
    fields: Option<Vec<Option<LengthIds>>>,
}

impl Model for FieldNormsWriter {
    ghost use Rattle.std.specs.Prelude.{ℕ, List, Option, option_map};

    ghost Value = { Option (List (Option (List ℕ))) };

    ghost view = { λ w. option_map (λ fs. fs.items) w.fields };
}

impl FieldNormsWriter {
    pub fn for_schema(alloc: Global, schema: &Schema) -> Result<FieldNormsWriter, PostingsError>
        ensures ok { IfOk result (λ writer. writer ≡ Some (no_norms schema.now)) }
        ensures err { IfErr result (λ e. e ≡ PostingsError.OutOfMemory) }
    {
        Ok(FieldNormsWriter {
            fields: Some(fresh_fields(alloc, schema.fields())?),
        })
    }

    /// The fields of a schema that have lengths: those that are indexed and say so.
    pub fn fields_with_fieldnorm(
        alloc: Global,
        schema: &Schema,
    ) -> Result<Vec<Field>, PostingsError>
        ensures ok { IfOk result (λ fs. fs.items ≡ fields_with_lengths schema.now) }
        ensures err { IfErr result (λ e. e ≡ PostingsError.OutOfMemory) }
    {
        let fields = with_lengths(alloc, schema.fields())?;
        Ok(fields)
    }

    /// Records the length of a document in a field that has lengths. Documents in between have length 0.
    pub fn record(&mut self, doc: u32, field: Field, length: u32) -> Result<(), PostingsError>
        requires field { IfSome self.old (λ fs. (ids : List ℕ) × (slice_get fs field ≡ Some (Some ids))
            × (Rattle.std.specs.Prelude.length ids ≤ doc)) }
        ensures ok { OnOk result (HasGrown self.old self.new (at_field field (with_length doc length))) }
        ensures err { IfErr result (λ e. (e ≡ PostingsError.OutOfMemory) × (self.new ≡ None)) }
    {
        let Some(fields) = &mut self.fields else {
            return Err(PostingsError::OutOfMemory);
        };
        if record_at(fields, doc, field.field_id() as usize, length).is_ok() {
            return Ok(());
        }
        self.fields = None;
        Err(PostingsError::OutOfMemory)
    }

    /// Gives each field with lengths an id for each document below `max_doc`.
    pub fn fill_up_to_max_doc(&mut self, max_doc: u32) -> Result<(), PostingsError>
        ensures ok { OnOk result (HasGrown self.old self.new (map (option_map (filled max_doc)))) }
        ensures err { IfErr result (λ e. (e ≡ PostingsError.OutOfMemory) × (self.new ≡ None)) }
    {
        let Some(fields) = &mut self.fields else {
            return Err(PostingsError::OutOfMemory);
        };
        if fill_all(fields, max_doc).is_ok() {
            return Ok(());
        }
        self.fields = None;
        Err(PostingsError::OutOfMemory)
    }

    /// The ids of a field; none where it has no lengths, and none at all once out of memory.
    pub fn ids(&self, field: Field) -> Option<&[u8]>
        ensures { option_map (λ ids. ids.now) result
            ≡ option_and_then (λ fs. option_and_then (λ f. f) (slice_get fs field)) self.now }
    {
        let ids = self
            .fields
            .as_ref()?
            .get(field.field_id() as usize)?
            .as_ref()?;
        Some(ids.as_slice())
    }
}

fn with_lengths(alloc: Global, entries: &[FieldEntry]) -> Result<Vec<Field>, AllocError>
    ensures { IfOk result (λ fs. fs.items ≡ fields_with_lengths entries.now) }
{
    let mut fields = Vec::new(alloc);
    for (place, entry) in entries.iter().enumerate() {
        let Ok(id) = u32::try_from(place) else {
            return Err(AllocError);
        };
        if entry.has_field_norms() {
            fields.push(Field::from_field_id(id))?;
        }
    }
    Ok(fields)
}

fn fresh_fields(alloc: Global, entries: &[FieldEntry]) -> Result<Vec<Option<LengthIds>>, AllocError>
    ensures { IfOk result (λ fs. fs.items ≡ no_norms entries.now) }
{
    let mut fields = Vec::new(alloc);
    for entry in entries {
        fields.push(fresh_field(alloc, entry))?;
    }
    Ok(fields)
}

fn fresh_field(alloc: Global, entry: &FieldEntry) -> Option<LengthIds>
    ensures { result ≡ (if fields.has_lengths entry.now then Some [] else None) }
{
    if entry.has_field_norms() {
        Some(LengthIds::new(alloc))
    } else {
        None
    }
}

fn record_at(
    fields: &mut [Option<LengthIds>],
    document: u32,
    field: usize,
    length: u32,
) -> Result<(), AllocError>
    requires { field < Rattle.std.specs.Prelude.length fields.old }
    ensures { OnOk result (fields.new ≡ at_field field (with_length document length) fields.old) }
{
    record_in(&mut fields[field], document, length)
}

fn record_in(field: &mut Option<LengthIds>, document: u32, length: u32) -> Result<(), AllocError>
    ensures { OnOk result (field.new ≡ option_map (with_length document length) field.old) }
{
    match field {
        Some(ids) => ids.record(document, length),
        None => Ok(()),
    }
}

fn fill_all(fields: &mut [Option<LengthIds>], max_doc: u32) -> Result<(), AllocError>
    ensures { OnOk result (fields.new ≡ map (option_map (filled max_doc)) fields.old) }
{
    for place in 0..fields.len() {
        fill(&mut fields[place], max_doc)?;
    }
    Ok(())
}

fn fill(field: &mut Option<LengthIds>, max_doc: u32) -> Result<(), AllocError>
    ensures { OnOk result (field.new ≡ option_map (filled max_doc) field.old) }
{
    match field {
        Some(ids) => ids.fill(max_doc),
        None => Ok(()),
    }
}

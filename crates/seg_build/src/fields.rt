//! The fields of documents.
ghost use Rattle.std.specs.Prelude.{◌≡◌, ◌<◌, Some, map, length, IfOk};
ghost use Rattle.std.specs.FinMap.{entries};
ghost use Rattle.std.specs.List.{slice_get, AllByRecursion};
ghost use Rattle.seg_build.specs.FieldTerms.{recorded_fields};
ghost use Rattle.seg_build.specs.FieldsByValue.{fresh};
ghost use Rattle.seg_build.specs.WritableTerms.{CanBeWritten};

use crate::field::FieldPostings;
use crate::sorted_terms::{SortedTerms, sort_terms};
use seg_norms::FieldNormsWriter;
use seg_postings::AskedKind;
use seg_values::FieldEntry;
use std::alloc::{AllocError, Global};
use std::marker::Model;

/// The terms of each field of a schema, in byte order, each with its postings, which keep what the field asks for.
#[derive(Drop)]
pub struct IndexedFields {
    fields: Vec<SortedTerms>,
}

impl Model for IndexedFields {
    ghost use Rattle.std.specs.Prelude.{List};
    ghost use Rattle.std.specs.Coded.{codes};
    ghost use Rattle.seg_terms.specs.TermEntries.{entries_code};
    ghost use Rattle.seg_build.specs.FieldTerms.{FieldTerms};

    ghost Value = { List FieldTerms };

    ghost coded = { Prim.hlevel (codes, entries_code) };

    ghost view = { λ a. a.fields.items };

    ghost use Rattle.std.specs.List.{AllByRecursion};
    ghost use Rattle.seg_build.specs.WritableTerms.{CanBeWritten};

    ghost invariant = { λ a. AllByRecursion CanBeWritten a.fields.items };
}

impl IndexedFields {
    /// The terms of the fields of a schema, where they can be written.
    pub(crate) fn sorted(
        alloc: Global,
        schema: &[FieldEntry],
        fields: Vec<FieldPostings>,
    ) -> Result<IndexedFields, AllocError>
        requires writable { AllByRecursion CanBeWritten
            (recorded_fields schema.now (map (λ f. entries f.terms) fields.items)) }
        requires as_many { length fields.items ≡ length schema.now }
        ensures { IfOk result (λ sorted. sorted
            ≡ recorded_fields schema.now (map (λ f. entries f.terms) fields.items)) }
    {
        let fields = sort_fields(alloc, schema, fields)?;
        Ok(IndexedFields { fields })
    }

    pub fn len(&self) -> usize
        ensures { result ≡ length self.now }
    {
        self.fields.len()
    }

    /// The terms of a field.
    pub fn get(&self, field: usize) -> &SortedTerms
        requires { field < length self.now }
        ensures { slice_get self.now field ≡ Some result.now }
    {
        &self.fields[field]
    }

    /// The terms of a field, as they can be written.
    pub(crate) fn writable_terms(&self, field: usize) -> &SortedTerms
        requires { field < length self.now }
        ensures at { slice_get self.now field ≡ Some result.now }
        ensures writable { CanBeWritten result.now }
    {
        &self.fields[field]
    }
}

/// Documents as they are indexed: the terms of each field, and the lengths of those fields that have lengths.
#[derive(Drop)]
pub struct IndexedBatch {
    pub fields: IndexedFields,
    pub norms: FieldNormsWriter,
}

pub(crate) fn new_fields(
    alloc: Global,
    schema: &[FieldEntry],
) -> Result<Vec<FieldPostings>, AllocError>
    ensures { IfOk result (λ fields. fields.items ≡ map (λ _. fresh) schema.now) }
{
    schema
        .iter()
        .map(|entry| FieldPostings::new(alloc, entry))
        .collect(alloc)
}

/// Orders the terms of each field of a schema.
fn sort_fields(
    alloc: Global,
    schema: &[FieldEntry],
    fields: Vec<FieldPostings>,
) -> Result<Vec<SortedTerms>, AllocError>
    requires as_many { length fields.items ≡ length schema.now }
    ensures { IfOk result (λ sorted. sorted.items
        ≡ recorded_fields schema.now (map (λ f. entries f.terms) fields.items)) }
{
    let mut sorted = Vec::new(alloc);
    for field in fields {
        let asked = AskedKind::of_entry(&schema[sorted.len()]);
        sorted.push(sort_terms(alloc, asked, field)?)?;
    }
    Ok(sorted)
}

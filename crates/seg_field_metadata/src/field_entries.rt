//! What the parts of indexed fields say.
ghost use Rattle.std.specs.Prelude.{◌≡◌, ◌≤◌, ◌++◌, [], ◌∷◌, true, map, length, string_bytes, IfErr, IfOk, OnOk};
ghost use Rattle.std.specs.List.{list_all};
ghost use Rattle.seg_values.specs.declared.schema.FieldKind.TheVariants as kinds;
ghost use Rattle.seg_model.specs.Fields.{is_json};
ghost use Rattle.seg_postings.specs.OpenedFields.{dictionary_terms};
ghost use Rattle.seg_postings.specs.TermForms.{is_formed};
ghost use Rattle.seg_field_metadata.specs.MetadataEntries.{entry_of};
ghost use Rattle.seg_field_metadata.specs.IndexedFieldMetadata as spec;
ghost use Rattle.seg_field_metadata.specs.ListedNames as listed;
ghost use Rattle.seg_field_metadata.specs.IndexedFieldMetadata.{Adds, FieldSays, indexed_entry, sizes_of};

use crate::FieldMetadata;
use crate::listed_names::{EscapedNames, listed_name};
use seg_common::ByteCount;
use seg_postings::{InvertedIndexFieldSpace, InvertedIndexReader};
use seg_values::{FieldEntry, FieldKind, FieldType};
use std::alloc::{AllocError, Global};

/// How many bytes some terms have in the parts of their field.
#[derive(Clone, Copy)]
struct PartSizes {
    terms: u64,
    postings: u64,
    positions: u64,
}

/// Adds the entries of an indexed field: of a JSON field one for each path and type of its terms.
pub(crate) fn add_field(
    alloc: Global,
    entry: &FieldEntry,
    opened: &InvertedIndexReader,
    entries: &mut Vec<FieldMetadata>,
    names: &mut EscapedNames,
) -> Result<(), AllocError>
    requires { is_json entry.now.kind ≡ true → list_all (is_formed kinds.Json) (dictionary_terms opened.now) ≡ true }
    ensures { OnOk result (Adds (FieldSays entry.now (dictionary_terms opened.now)) (map entry_of entries.old.items)
        (map entry_of entries.new.items) names.old.by_dotted names.new.by_dotted) }
{
    let sizes = part_sizes(opened);
    if entry.kind == FieldKind::Json {
        return add_spaces(alloc, entry, opened, sizes.terms, entries, names);
    }
    let name = String::from_str(alloc, entry.name.as_str())?;
    push_indexed(entries, entry, name, FieldType::from(entry.kind), sizes)
}

fn add_spaces(
    alloc: Global,
    entry: &FieldEntry,
    opened: &InvertedIndexReader,
    terms_size: u64,
    entries: &mut Vec<FieldMetadata>,
    names: &mut EscapedNames,
) -> Result<(), AllocError>
    requires json { is_json entry.now.kind ≡ true }
    requires formed { list_all (is_formed kinds.Json) (dictionary_terms opened.now) ≡ true }
    requires size { terms_size ≡ (sizes_of (dictionary_terms opened.now)).terms }
    ensures { OnOk result (Adds (FieldSays entry.now (dictionary_terms opened.now)) (map entry_of entries.old.items)
        (map entry_of entries.new.items) names.old.by_dotted names.new.by_dotted) }
{
    let Ok(spaces) = opened.list_encoded_json_fields(alloc) else {
        return Err(AllocError);
    };
    let all = opened.terms().num_terms() as u64;
    for space in &spaces {
        add_space(
            alloc,
            entry,
            space,
            share(terms_size, space.num_terms, all),
            entries,
        )?;
        names.add(alloc, entry, space.field_name.as_str())?;
    }
    Ok(())
}

/// Adds the entry of a path and a type.
fn add_space(
    alloc: Global,
    entry: &FieldEntry,
    space: &InvertedIndexFieldSpace,
    terms_size: u64,
    entries: &mut Vec<FieldMetadata>,
) -> Result<(), AllocError>
    ensures { OnOk result (map entry_of entries.new.items
        ≡ map entry_of entries.old.items
        ++ indexed_entry entry.now
        (listed.listed_name entry.now (string_bytes space.now.field_name)) space.now.field_type
        (record { terms = terms_size; postings = space.now.postings_size.0; positions = space.now.positions_size.0 })
        ∷ []) }
{
    let name = listed_name(alloc, entry, space.field_name.as_str())?;
    let sizes = PartSizes {
        terms: terms_size,
        postings: space.postings_size.0,
        positions: space.positions_size.0,
    };
    push_indexed(entries, entry, name, space.field_type, sizes)
}

fn push_indexed(
    entries: &mut Vec<FieldMetadata>,
    entry: &FieldEntry,
    field_name: String,
    typ: FieldType,
    sizes: PartSizes,
) -> Result<(), AllocError>
    ensures { OnOk result (map entry_of entries.new.items ≡ map entry_of entries.old.items
        ++ indexed_entry entry.now (string_bytes field_name) typ
        (record { terms = sizes.terms; postings = sizes.postings; positions = sizes.positions }) ∷ []) }
{
    let indexed = FieldMetadata {
        field_name,
        typ,
        stored: entry.stored,
        fast_size: None,
        term_dictionary_size: Some(ByteCount(sizes.terms)),
        postings_size: Some(ByteCount(sizes.postings)),
        positions_size: Some(ByteCount(sizes.positions)),
    };
    let Ok(()) = entries.push(indexed) else {
        return Err(AllocError);
    };
    Ok(())
}

/// The share of some terms in the bytes of a dictionary, rounded down. It is at most these.
fn share(size: u64, some: u64, all: u64) -> u64
    requires { some ≤ all }
    ensures { result ≡ spec.share size some all }
{
    if all == 0 {
        return 0;
    }
    (size as u128 * some as u128 / all as u128) as u64
}

/// The sizes of the parts, by their terms.
fn part_sizes(opened: &InvertedIndexReader) -> PartSizes
    ensures { record { terms = result.terms; postings = result.postings; positions = result.positions }
        ≡ sizes_of (dictionary_terms opened.now) }
{
    let mut stream = opened.terms().stream();
    let mut terms = 48u64;
    let mut postings = 8u64;
    let mut positions = 0u64;
    while stream.advance() {
        let info = stream.value();
        postings = postings.saturating_add(info.postings_end.saturating_sub(info.postings_start));
        positions = positions.saturating_add(
            info.positions_end.saturating_sub(info.positions_start),
        );
        terms = terms
            .saturating_add(28)
            .saturating_add(stream.key().len() as u64);
    }
    PartSizes {
        terms,
        postings,
        positions,
    }
}

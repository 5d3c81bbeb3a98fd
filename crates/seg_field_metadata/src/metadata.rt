//! What a segment says about its fields.
ghost use Rattle.std.specs.Prelude.{◌≡◌, ◌-◌, ◌<◌, ◌^◌, ◌++◌, [], ◌∷◌, List, Option, Some, true, length, map, IfErr, IfOk, OnOk};
ghost use Rattle.std.specs.List.{slice_get};
ghost use Rattle.seg_postings.specs.OpenedFields.{OpenField};
ghost use Rattle.seg_field_metadata.specs.MetadataEntries.{Entry, entry_of};
ghost use Rattle.seg_field_metadata.specs.MergedMetadata.{all_entries, merged, sizes_fit};
ghost use Rattle.seg_field_metadata.specs.IndexedFieldMetadata.{Adds, Said};
ghost use Rattle.seg_field_metadata.specs.ListedNames.{HasNames};
ghost use Rattle.seg_field_metadata.specs.SegmentMetadata.{FieldsSay, MetadataFails, OpenedSays, SegmentSays};

use crate::column_entries::column_entries;
use crate::field_entries::add_field;
use crate::listed_names::EscapedNames;
use crate::{FieldMetadata, merge_field_meta_data};
use seg_open::SegmentReader;
use seg_values::{Field, FieldEntry, TResult, TantivyError};
use std::alloc::{AllocError, Global};

/// The fields of a segment that are indexed or have columns, by name and then by type. A JSON field has an entry for
/// each path and type, and a facet field with a column two. The sizes of an indexed field are summed over its terms,
/// the bytes of its parts aren't read. A sum of several entries that passes 64 bits is `SizeOverflow`.
pub fn fields_metadata(alloc: Global, reader: &SegmentReader) -> TResult<Vec<FieldMetadata>>
    ensures ok { IfOk result (λ list. (entries : List Entry) × SegmentSays reader.now entries
        × (map entry_of list.items ≡ merged entries) × (sizes_fit (merged entries) ≡ true)) }
    ensures err { IfErr result (MetadataFails reader.now) }
{
    let Ok(lists) = entry_lists(alloc, reader) else {
        return Err(TantivyError::OutOfMemory);
    };
    merge_field_meta_data(alloc, lists)
}

/// The entries of the fields that are indexed, and those of columns.
fn entry_lists(alloc: Global, reader: &SegmentReader) -> Result<Vec<Vec<FieldMetadata>>, AllocError>
    ensures { IfOk result (λ lists. SegmentSays reader.now (all_entries lists.items)) }
{
    let mut names = EscapedNames::new(alloc);
    let indexed = indexed_entries(alloc, reader, &mut names)?;
    let columns = column_entries(alloc, reader.schema(), reader.columns(), &names)?;
    let mut lists = Vec::new(alloc);
    push_list(&mut lists, indexed)?;
    push_list(&mut lists, columns)?;
    Ok(lists)
}

fn push_list(
    lists: &mut Vec<Vec<FieldMetadata>>,
    list: Vec<FieldMetadata>,
) -> Result<(), AllocError>
    ensures { OnOk result (lists.new.items ≡ lists.old.items ++ list ∷ []) }
{
    let Ok(()) = lists.push(list) else {
        return Err(AllocError);
    };
    Ok(())
}

/// The entries of the fields that are indexed, and the escaped names of their paths.
fn indexed_entries(
    alloc: Global,
    reader: &SegmentReader,
    names: &mut EscapedNames,
) -> Result<Vec<FieldMetadata>, AllocError>
    requires { HasNames names.old.by_dotted [] }
    ensures { IfOk result (λ entries. (said : Said) × FieldsSay reader.now.schema reader.now.fields said
        × (map entry_of entries.items ≡ said.entries) × HasNames names.new.by_dotted said.escaped) }
{
    reader.schema().fields_are_valid();
    entries_by_place(alloc, reader, reader.schema().fields(), names)
}

/// The same, from the fields of the schema.
fn entries_by_place(
    alloc: Global,
    reader: &SegmentReader,
    fields: &[FieldEntry],
    names: &mut EscapedNames,
) -> Result<Vec<FieldMetadata>, AllocError>
    requires few { length fields.now < 2 ^ 32 - 1 }
    requires schema { fields.now ≡ reader.now.schema }
    requires none_yet { HasNames names.old.by_dotted [] }
    ensures { IfOk result (λ entries. (said : Said) × FieldsSay fields.now reader.now.fields said
        × (map entry_of entries.items ≡ said.entries) × HasNames names.new.by_dotted said.escaped) }
{
    let mut entries = Vec::new(alloc);
    for place in 0..fields.len() {
        add_indexed(
            alloc,
            reader,
            place as u32,
            &fields[place],
            &mut entries,
            names,
        )?;
    }
    Ok(entries)
}

/// Adds the entries of the field in a place of the schema, if it is indexed.
fn add_indexed(
    alloc: Global,
    reader: &SegmentReader,
    place: u32,
    entry: &FieldEntry,
    entries: &mut Vec<FieldMetadata>,
    names: &mut EscapedNames,
) -> Result<(), AllocError>
    requires { slice_get reader.now.schema place ≡ Some entry.now }
    ensures { OnOk result ((opened : Option OpenField) × (slice_get reader.now.fields place ≡ Some opened)
        × Adds (OpenedSays entry.now opened) (map entry_of entries.old.items) (map entry_of entries.new.items)
        names.old.by_dotted names.new.by_dotted) }
{
    reader.indexed_fields_are_open();
    reader.contents_have_full_shape();
    let Some(opened) = reader.opened_field(Field::from_field_id(place)) else {
        return Ok(());
    };
    opened.terms_ascend();
    add_field(alloc, entry, opened, entries, names)
}

//! A merged column of texts or bytes.
ghost use Rattle.std.specs.Prelude.{◌≡◌, ◌<◌, All, length, map, replicate, IfOk, OnOk};
ghost use Rattle.seg_column_merge_parts.specs.ColumnSources.{HasFile};
ghost use Rattle.seg_column_merge.specs.Groups.{AreOfFiles};
ghost use Rattle.seg_column_merge.specs.MergedBytes.{AddsMerged, HasType, IsMerge, IsTermType, places_of};
ghost use Rattle.seg_column_merge_parts.specs.MergedTerms.{ords_in, terms_in};
ghost use Rattle.seg_column_merge_parts.specs.Tables.{row_of};
ghost use Rattle.seg_column_merge_parts.specs.TermSources.{AddsSource, AreTermSources};

use crate::merge::Merge;
use seg_column_merge_parts::{
    MergedTerms, NumberMap, Source, TableRow, no_sources, put_joined, put_terms_dictionary,
    source_of, used_columns,
};
use seg_columns::{DynamicColumn, DynamicColumnHandle};
use seg_common::ColumnType;
use std::alloc::{AllocError, Global};

/// Adds the column of rows with one key of texts or bytes.
pub(crate) fn put_terms(
    merge: &Merge<'_>,
    rows: &[TableRow<'_>],
    column_type: ColumnType,
    out: &mut Vec<u8>,
) -> Result<(), AllocError>
    requires merge { IsMerge merge.now }
    requires files { AreOfFiles merge.now.counts.now 0 rows.now }
    requires types { All (λ r. HasType column_type r.column) rows.now }
    requires terms { IsTermType column_type }
    ensures { OnOk result (AddsMerged column_type (map row_of rows.now) (places_of merge.now) out.old.items
        out.new.items) }
{
    let columns = used_columns(merge.alloc, rows, merge.kept)?;
    let MergedTerms { terms, ordinals } = MergedTerms::of(merge.alloc, columns.as_slice())?;
    let sources = term_sources(merge.alloc, merge.counts.len(), rows, ordinals)?;
    put_joined(merge.counts, merge.order, sources.as_slice(), out)?;
    put_terms_dictionary(out, terms.as_slice())?;
    Ok(())
}

/// The columns of rows with one key of texts or bytes, which are written by the new ordinals of their terms.
pub(crate) fn term_sources(
    alloc: Global,
    files: usize,
    rows: &[TableRow<'_>],
    ordinals: Vec<Vec<u64>>,
) -> Result<Vec<Source>, AllocError>
    requires files { All (HasFile files) rows.now }
    requires many { length rows.now ≡ length ordinals.items }
    ensures { IfOk result (λ sources. AreTermSources (replicate files Source.Nothing) (map (λ r. r.column) rows.now)
        (map (λ v. v.items) ordinals.items) sources.items) }
{
    let mut sources = no_sources(alloc, files)?;
    let mut at = 0;
    for mapped in ordinals {
        put_source(&mut sources, &rows[at], mapped);
        at += 1;
    }
    Ok(sources)
}

/// Puts the column of a row, if it has one, in the place of its file.
fn put_source(sources: &mut Vec<Source>, row: &TableRow<'_>, ordinals: Vec<u64>)
    requires { HasFile (length sources.old.items) row.now }
    ensures { AddsSource row.now.column ordinals.items sources.old.items sources.new.items }
{
    let Some(column) = &row.column else {
        return;
    };
    uses_each(&column.handle);
    sources[column.file] = source_of(&column.handle, NumberMap::Ordinals(ordinals));
}

/// Ordinals are places of terms.
fn uses_each(handle: &DynamicColumnHandle)
    ensures { All (All (λ ord. ord < length (terms_in handle.now.column))) (ords_in handle.now.column) }
{
    match handle.open() {
        DynamicColumn::Str(texts) => texts.uses_each(),
        DynamicColumn::Bytes(terms) => terms.uses_each(),
        _ => {}
    }
}

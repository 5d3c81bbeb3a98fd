//! The columns of one key, each in the place of its file.
ghost use Rattle.std.specs.Prelude.{◌≡◌, ◌++◌, ◌∷◌, [], All, length, replicate, IfOk, OnOk};
ghost use Rattle.seg_columns.specs.DynamicColumns.{ip_column};
ghost use Rattle.seg_column_merge_parts.specs.ColumnSources as spec;

use crate::number_map::NumberMap;
use crate::source::{NumberSource, Source};
use crate::tables::TableRow;
use seg_columns::{DynamicColumn, DynamicColumnHandle};
use seg_common::ColumnType;
use std::alloc::{AllocError, Global};

/// The columns of rows with one key that isn't one of terms, as they are written in a column of a type.
pub fn number_sources(
    alloc: Global,
    files: usize,
    rows: &[TableRow<'_>],
    column_type: ColumnType,
) -> Result<Vec<Source>, AllocError>
    requires { All (spec.HasFile files) rows.now }
    ensures { IfOk result (λ sources. sources.items
        ≡ spec.with_rows column_type (replicate files Source.Nothing) rows.now) }
{
    let mut sources = no_sources(alloc, files)?;
    for row in rows {
        put_source(&mut sources, row, column_type);
    }
    Ok(sources)
}

/// Files without a column.
pub fn no_sources(alloc: Global, files: usize) -> Result<Vec<Source>, AllocError>
    ensures { IfOk result (λ sources. sources.items ≡ replicate files Source.Nothing) }
{
    let mut sources = Vec::new(alloc);
    for _file in 0..files {
        push_nothing(&mut sources)?;
    }
    Ok(sources)
}

fn push_nothing(sources: &mut Vec<Source>) -> Result<(), AllocError>
    ensures { OnOk result (sources.new.items ≡ sources.old.items ++ Source.Nothing ∷ []) }
{
    let Ok(()) = sources.push(Source::Nothing) else {
        return Err(AllocError);
    };
    Ok(())
}

/// Puts the column of a row, if it has one, in the place of its file.
fn put_source(sources: &mut Vec<Source>, row: &TableRow<'_>, column_type: ColumnType)
    requires { spec.HasFile (length sources.old.items) row.now }
    ensures { sources.new.items ≡ spec.with_column row.now.column_type column_type sources.old.items row.now.column }
{
    let Some(column) = &row.column else {
        return;
    };
    sources[column.file] = source_of(&column.handle, number_map(row.column_type, column_type));
}

/// A column, whose numbers are written as a map tells.
pub fn source_of(handle: &DynamicColumnHandle, written: NumberMap) -> Source
    ensures { result ≡ spec.source_of written handle.now.column }
{
    match handle.open_u64_lenient() {
        Some(numbers) => Source::Numbers(NumberSource { numbers, written }),
        None => address_source(handle.open()),
    }
}

fn address_source(column: DynamicColumn) -> Source
    ensures { result ≡ spec.address_source (ip_column column) }
{
    match column {
        DynamicColumn::IpAddr(addresses) => Source::Addresses(addresses),
        _ => Source::Nothing,
    }
}

/// What is written for the numbers of a column of one type in a column of another.
fn number_map(from: ColumnType, to: ColumnType) -> NumberMap
    ensures { result ≡ spec.number_map from to }
{
    match (from, to) {
        (ColumnType::I64, ColumnType::U64) => NumberMap::Lowered,
        (ColumnType::U64, ColumnType::I64) => NumberMap::Raised,
        _ => NumberMap::Same,
    }
}

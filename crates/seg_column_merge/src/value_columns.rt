//! A merged column of numbers, moments or truth values.
ghost use Rattle.std.specs.Prelude.{All, map, OnOk};
ghost use Rattle.seg_common.specs.declared.column_type.ColumnType.{ColumnType};
ghost use Rattle.seg_column_merge.specs.Groups.{AreOfFiles};
ghost use Rattle.seg_column_merge.specs.MergedBytes.{AddsMerged, HasType, IsMerge, IsNumberType, RowFits, SuitsType, places_of};
ghost use Rattle.seg_column_merge_parts.specs.Tables.{row_of};

use crate::merge::Merge;
use seg_column_merge_parts::{TableRow, number_sources, put_joined};
use seg_common::ColumnType;
use std::alloc::AllocError;

/// Adds the column of rows with one key in a type, which holds the values of kept rows.
pub(crate) fn put_values(
    merge: &Merge<'_>,
    rows: &[TableRow<'_>],
    column_type: ColumnType,
    out: &mut Vec<u8>,
) -> Result<(), AllocError>
    requires merge { IsMerge merge.now }
    requires files { AreOfFiles merge.now.counts.now 0 rows.now }
    requires types { All (λ r. HasType r.column_type r.column) rows.now }
    requires fits { All (λ r. RowFits merge.now.kept.now r.column) rows.now }
    requires number { IsNumberType column_type }
    requires suits { SuitsType column_type rows.now (places_of merge.now) }
    ensures { OnOk result (AddsMerged column_type (map row_of rows.now) (places_of merge.now) out.old.items
        out.new.items) }
{
    let sources = number_sources(merge.alloc, merge.counts.len(), rows, column_type)?;
    put_joined(merge.counts, merge.order, sources.as_slice(), out)?;
    Ok(())
}

/// As `put_values`, for addresses.
pub(crate) fn put_addresses(
    merge: &Merge<'_>,
    rows: &[TableRow<'_>],
    out: &mut Vec<u8>,
) -> Result<(), AllocError>
    requires merge { IsMerge merge.now }
    requires files { AreOfFiles merge.now.counts.now 0 rows.now }
    requires fits { All (λ r. RowFits merge.now.kept.now r.column) rows.now }
    requires types { All (λ r. HasType ColumnType.IpAddr r.column) rows.now }
    ensures { OnOk result (AddsMerged ColumnType.IpAddr (map row_of rows.now) (places_of merge.now) out.old.items
        out.new.items) }
{
    let sources = number_sources(merge.alloc, merge.counts.len(), rows, ColumnType::IpAddr)?;
    put_joined(merge.counts, merge.order, sources.as_slice(), out)?;
    Ok(())
}

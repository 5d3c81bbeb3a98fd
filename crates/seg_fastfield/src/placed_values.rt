//! Values recorded in their column, which is looked up by its path where it isn't known.
ghost use Rattle.std.specs.Prelude.{◌≡◌, OnOk, OnErr};
ghost use Rattle.std.specs.Net.Addr.{ipv6_octets};
ghost use Rattle.seg_column_writer.specs.RowValues.{number_in};
ghost use Rattle.seg_column_writer.specs.RecordingRules.{AreKeptBut, MayRecord, with_recorded};
ghost use Rattle.seg_column_writer.specs.declared.value_kind.ValueKind.TheVariants as kinds;
ghost use Rattle.seg_fastfield.specs.FieldColumns.{IsColumnOf};
ghost use Rattle.seg_fastfield.specs.PathNumbers.{IsKnownAt, IsKnownStill};
ghost use Rattle.seg_model.specs.Columns as model;

use crate::path_columns::PathColumns;
use crate::place::Place;
use seg_column_writer::{ColumnarWriter, NumericalValue, ValueKind};
use seg_columns::ColumnError;
use seg_common::DateTime;
use std::net::Ipv6Addr;

pub(crate) fn put_number(
    columns: &mut ColumnarWriter,
    known: &mut PathColumns,
    row: u32,
    place: Place,
    path: &str,
    value: NumericalValue,
) -> Result<(), ColumnError>
    requires may { MayRecord path.now kinds.Number row (model.number (number_in value)) columns.old }
    requires column { IsColumnOf place.column path.now kinds.Number columns.old }
    requires known { IsKnownAt known.old place.number path.now columns.old }
    ensures ok { OnOk result (columns.new
        ≡ with_recorded path.now kinds.Number row (model.number (number_in value)) columns.old) }
    ensures kept { OnErr result (AreKeptBut path.now kinds.Number columns.old columns.new) }
    ensures known { OnOk result (IsKnownStill known.old known.new columns.new) }
{
    let column = known.column(columns, place, path, ValueKind::Number)?;
    columns.record_numerical_in(row, column, value)
}

pub(crate) fn put_text(
    columns: &mut ColumnarWriter,
    known: &mut PathColumns,
    row: u32,
    place: Place,
    path: &str,
    value: &str,
) -> Result<(), ColumnError>
    requires may { MayRecord path.now kinds.Str row (model.text_value value.now) columns.old }
    requires column { IsColumnOf place.column path.now kinds.Str columns.old }
    requires known { IsKnownAt known.old place.number path.now columns.old }
    ensures ok { OnOk result (columns.new
        ≡ with_recorded path.now kinds.Str row (model.text_value value.now) columns.old) }
    ensures kept { OnErr result (AreKeptBut path.now kinds.Str columns.old columns.new) }
    ensures known { OnOk result (IsKnownStill known.old known.new columns.new) }
{
    let column = known.column(columns, place, path, ValueKind::Str)?;
    columns.record_str_in(row, column, value)
}

pub(crate) fn put_bytes(
    columns: &mut ColumnarWriter,
    known: &mut PathColumns,
    row: u32,
    place: Place,
    path: &str,
    value: &[u8],
) -> Result<(), ColumnError>
    requires may { MayRecord path.now kinds.Bytes row (model.bytes_value value.now) columns.old }
    requires column { IsColumnOf place.column path.now kinds.Bytes columns.old }
    requires known { IsKnownAt known.old place.number path.now columns.old }
    ensures ok { OnOk result (columns.new
        ≡ with_recorded path.now kinds.Bytes row (model.bytes_value value.now) columns.old) }
    ensures kept { OnErr result (AreKeptBut path.now kinds.Bytes columns.old columns.new) }
    ensures known { OnOk result (IsKnownStill known.old known.new columns.new) }
{
    let column = known.column(columns, place, path, ValueKind::Bytes)?;
    columns.record_bytes_in(row, column, value)
}

pub(crate) fn put_bool(
    columns: &mut ColumnarWriter,
    known: &mut PathColumns,
    row: u32,
    place: Place,
    path: &str,
    value: bool,
) -> Result<(), ColumnError>
    requires may { MayRecord path.now kinds.Bool row (model.boolean_value value) columns.old }
    requires column { IsColumnOf place.column path.now kinds.Bool columns.old }
    requires known { IsKnownAt known.old place.number path.now columns.old }
    ensures ok { OnOk result (columns.new
        ≡ with_recorded path.now kinds.Bool row (model.boolean_value value) columns.old) }
    ensures kept { OnErr result (AreKeptBut path.now kinds.Bool columns.old columns.new) }
    ensures known { OnOk result (IsKnownStill known.old known.new columns.new) }
{
    let column = known.column(columns, place, path, ValueKind::Bool)?;
    columns.record_bool_in(row, column, value)
}

pub(crate) fn put_moment(
    columns: &mut ColumnarWriter,
    known: &mut PathColumns,
    row: u32,
    place: Place,
    path: &str,
    value: DateTime,
) -> Result<(), ColumnError>
    requires may { MayRecord path.now kinds.DateTime row (model.date_value value) columns.old }
    requires column { IsColumnOf place.column path.now kinds.DateTime columns.old }
    requires known { IsKnownAt known.old place.number path.now columns.old }
    ensures ok { OnOk result (columns.new
        ≡ with_recorded path.now kinds.DateTime row (model.date_value value) columns.old) }
    ensures kept { OnErr result (AreKeptBut path.now kinds.DateTime columns.old columns.new) }
    ensures known { OnOk result (IsKnownStill known.old known.new columns.new) }
{
    let column = known.column(columns, place, path, ValueKind::DateTime)?;
    columns.record_datetime_in(row, column, value)
}

pub(crate) fn put_address(
    columns: &mut ColumnarWriter,
    known: &mut PathColumns,
    row: u32,
    place: Place,
    path: &str,
    value: Ipv6Addr,
) -> Result<(), ColumnError>
    requires may { MayRecord path.now kinds.IpAddr row (model.ip_value (ipv6_octets value)) columns.old }
    requires column { IsColumnOf place.column path.now kinds.IpAddr columns.old }
    requires known { IsKnownAt known.old place.number path.now columns.old }
    ensures ok { OnOk result (columns.new
        ≡ with_recorded path.now kinds.IpAddr row (model.ip_value (ipv6_octets value)) columns.old) }
    ensures kept { OnErr result (AreKeptBut path.now kinds.IpAddr columns.old columns.new) }
    ensures known { OnOk result (IsKnownStill known.old known.new columns.new) }
{
    let column = known.column(columns, place, path, ValueKind::IpAddr)?;
    columns.record_ip_addr_in(row, column, value)
}

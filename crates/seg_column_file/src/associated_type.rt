//! The type of the columns that have values of a Rust type.
ghost use Rattle.std.specs.Prelude.{◌≡◌, List, Option, false, pos};
ghost use Rattle.seg_common.specs.declared.column_type.ColumnType.{ColumnType};
ghost use Rattle.seg_common.specs.declared.column_type.ColumnType.TheVariants as types;
ghost use Rattle.seg_columns.specs.Addresses.{unspecified};
ghost use Rattle.seg_columns.specs.declared.dynamic_column.DynamicColumn.{DynamicColumn};
ghost use Rattle.seg_columns.specs.DynamicColumns.{u64_column, i64_column, bool_column, date_column, ip_column};

use seg_columns::{Column, ColumnValue, DynamicColumn};
use seg_common::{ColumnType, DateTime};
use std::net::Ipv6Addr;

/// A value that has columns of its own type.
pub trait HasAssociatedColumnType: ColumnValue {
    ghost column_type: { ColumnType };

    fn column_type() -> ColumnType
        ensures { result ≡ column_type };

    ghost default_value: { Self };

    fn default_value() -> Self
        ensures { result ≡ default_value };

    ghost column_of: { DynamicColumn → Option (List (List Self)) };

    /// The column, where it has this type.
    fn column_of(column: DynamicColumn) -> Option<Column<Self>>
        ensures { result ≡ column_of column };
}

impl HasAssociatedColumnType for u64 {
    ghost column_type = { types.U64 };

    ghost default_value = { 0 };

    ghost column_of = { u64_column };

    fn column_type() -> ColumnType {
        ColumnType::U64
    }

    fn default_value() -> u64 {
        0
    }

    fn column_of(column: DynamicColumn) -> Option<Column<u64>> {
        match column {
            DynamicColumn::U64(column) => Some(column),
            _ => None,
        }
    }
}

impl HasAssociatedColumnType for i64 {
    ghost column_type = { types.I64 };

    ghost default_value = { pos 0 };

    ghost column_of = { i64_column };

    fn column_type() -> ColumnType {
        ColumnType::I64
    }

    fn default_value() -> i64 {
        0
    }

    fn column_of(column: DynamicColumn) -> Option<Column<i64>> {
        match column {
            DynamicColumn::I64(column) => Some(column),
            _ => None,
        }
    }
}

impl HasAssociatedColumnType for bool {
    ghost column_type = { types.Bool };

    ghost default_value = { false };

    ghost column_of = { bool_column };

    fn column_type() -> ColumnType {
        ColumnType::Bool
    }

    fn default_value() -> bool {
        false
    }

    fn column_of(column: DynamicColumn) -> Option<Column<bool>> {
        match column {
            DynamicColumn::Bool(column) => Some(column),
            _ => None,
        }
    }
}

impl HasAssociatedColumnType for DateTime {
    ghost column_type = { types.DateTime };

    ghost default_value = { pos 0 };

    ghost column_of = { date_column };

    fn column_type() -> ColumnType {
        ColumnType::DateTime
    }

    fn default_value() -> DateTime {
        DateTime::from_timestamp_nanos(0)
    }

    fn column_of(column: DynamicColumn) -> Option<Column<DateTime>> {
        match column {
            DynamicColumn::DateTime(column) => Some(column),
            _ => None,
        }
    }
}

impl HasAssociatedColumnType for Ipv6Addr {
    ghost column_type = { types.IpAddr };

    ghost default_value = { unspecified };

    ghost column_of = { ip_column };

    fn column_type() -> ColumnType {
        ColumnType::IpAddr
    }

    fn default_value() -> Ipv6Addr {
        Ipv6Addr::from_octets([0; 16])
    }

    fn column_of(column: DynamicColumn) -> Option<Column<Ipv6Addr>> {
        match column {
            DynamicColumn::IpAddr(column) => Some(column),
            _ => None,
        }
    }
}

//! Handles of columns.
ghost use Rattle.std.specs.Prelude.{◌≡◌, MatchResult};
ghost use Rattle.seg_columns.specs.DynamicColumns.{IsColumnOf, numbers_of, stored_column, type_of};
ghost use Rattle.seg_columns.specs.Refusals.{Refuses};

use crate::bytes_column::BytesColumn;
use crate::column::Column;
use crate::dynamic_column::DynamicColumn;
use crate::error::ColumnError;
use crate::lenient::{ordinals, signed_numbers, truth_numbers};
use crate::str_column::StrColumn;
use crate::type_check::check_column;
use seg_common::{ByteCount, ColumnType, OwnedBytes};
use std::alloc::Global;
use std::marker::Model;

/// A column of any type that isn't opened yet. It is seen as the column, and how many bytes it has.
#[derive(Drop)]
pub struct DynamicColumnHandle {
    bytes: OwnedBytes,
    num_docs: u32,
    column_type: ColumnType,
}

impl Model for DynamicColumnHandle {
    ghost use Rattle.seg_columns.specs.DynamicColumns.{IsColumnOf, StoredColumn, stored_column};

    ghost Value = { StoredColumn };

    ghost view = { λ h. stored_column h.column_type h.num_docs h.bytes };

    ghost invariant = { λ h. IsColumnOf h.column_type h.num_docs h.bytes };
}

impl DynamicColumnHandle {
    /// The handle of a column that has these bytes, which are checked as `check_column` does.
    pub fn new(
        alloc: Global,
        column_type: ColumnType,
        bytes: OwnedBytes,
        num_docs: u32,
    ) -> Result<DynamicColumnHandle, ColumnError>
        ensures { MatchResult result (λ h. IsColumnOf column_type num_docs bytes
            × (h ≡ stored_column column_type num_docs bytes)) (Refuses (IsColumnOf column_type num_docs bytes)) }
    {
        match check_column(alloc, column_type, &bytes, num_docs) {
            Ok(()) => Ok(DynamicColumnHandle::of_checked(column_type, bytes, num_docs)),
            Err(error) => Err(error),
        }
    }

    /// The handle of a column that has these bytes, which were checked before.
    pub fn of_checked(
        column_type: ColumnType,
        bytes: OwnedBytes,
        num_docs: u32,
    ) -> DynamicColumnHandle
        requires { IsColumnOf column_type num_docs bytes }
        ensures { result ≡ stored_column column_type num_docs bytes }
    {
        DynamicColumnHandle {
            bytes,
            num_docs,
            column_type,
        }
    }

    pub fn column_type(&self) -> ColumnType
        ensures { result ≡ type_of self.now.column }
    {
        self.column_type
    }

    /// How many bytes the column has.
    pub fn num_bytes(&self) -> ByteCount
        ensures { result.0 ≡ self.now.size }
    {
        ByteCount(self.bytes.len() as u64)
    }

    /// As `num_bytes`.
    pub fn space_usage(&self) -> ByteCount
        ensures { result.0 ≡ self.now.size }
    {
        self.num_bytes()
    }

    /// The column, which shares the bytes and takes no memory.
    pub fn open(&self) -> DynamicColumn
        ensures { result ≡ self.now.column }
    {
        let docs = self.num_docs;
        match self.column_type {
            ColumnType::I64 => DynamicColumn::I64(Column::of_checked(self.bytes.share(), docs)),
            ColumnType::U64 => DynamicColumn::U64(Column::of_checked(self.bytes.share(), docs)),
            ColumnType::Bytes => DynamicColumn::Bytes(BytesColumn::of_checked(&self.bytes, docs)),
            ColumnType::Str => DynamicColumn::Str(StrColumn::of_checked(&self.bytes, docs)),
            ColumnType::Bool => DynamicColumn::Bool(Column::of_checked(self.bytes.share(), docs)),
            ColumnType::IpAddr => {
                DynamicColumn::IpAddr(Column::of_checked(self.bytes.share(), docs))
            }
            ColumnType::DateTime => {
                DynamicColumn::DateTime(Column::of_checked(self.bytes.share(), docs))
            }
        }
    }

    /// The numbers that stand for the values, where values of the type have numbers.
    pub fn open_u64_lenient(&self) -> Option<Column<u64>>
        ensures { result ≡ numbers_of self.now.column }
    {
        let docs = self.num_docs;
        match self.column_type {
            ColumnType::I64 => Some(signed_numbers(self.bytes.share(), docs)),
            ColumnType::U64 => Some(Column::of_checked(self.bytes.share(), docs)),
            ColumnType::Bytes => Some(ordinals(&self.bytes, docs)),
            ColumnType::Str => Some(ordinals(&self.bytes, docs)),
            ColumnType::Bool => Some(truth_numbers(self.bytes.share(), docs)),
            ColumnType::IpAddr => None,
            ColumnType::DateTime => Some(signed_numbers(self.bytes.share(), docs)),
        }
    }
}

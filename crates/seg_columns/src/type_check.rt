//! Whether bytes are a column of a type.
ghost use Rattle.std.specs.Prelude.{IsTrue, MatchResult};
ghost use Rattle.seg_columns.specs.DynamicColumns.{IsColumnOf};
ghost use Rattle.seg_columns.specs.Refusals.{Refuses};

use crate::bytes_column::BytesColumn;
use crate::column_check::is_column;
use crate::error::ColumnError;
use crate::str_column::StrColumn;
use seg_common::{ColumnType, DateTime, OwnedBytes};
use std::alloc::Global;
use std::net::Ipv6Addr;

/// Checks the bytes whole, in time linear in them. For texts and bytes it takes a byte for each distinct one, and gives
/// them back.
pub fn check_column(
    alloc: Global,
    column_type: ColumnType,
    bytes: &OwnedBytes,
    num_docs: u32,
) -> Result<(), ColumnError>
    ensures { MatchResult result (λ _. IsColumnOf column_type num_docs bytes.now)
        (Refuses (IsColumnOf column_type num_docs bytes.now)) }
{
    let data = bytes.as_slice();
    match column_type {
        ColumnType::I64 => told(is_column::<i64>(data, num_docs)),
        ColumnType::U64 => told(is_column::<u64>(data, num_docs)),
        ColumnType::Bytes => check_bytes(alloc, bytes, num_docs),
        ColumnType::Str => check_str(alloc, bytes, num_docs),
        ColumnType::Bool => told(is_column::<bool>(data, num_docs)),
        ColumnType::IpAddr => told(is_column::<Ipv6Addr>(data, num_docs)),
        ColumnType::DateTime => told(is_column::<DateTime>(data, num_docs)),
    }
}

fn check_bytes(alloc: Global, bytes: &OwnedBytes, num_docs: u32) -> Result<(), ColumnError>
    ensures { MatchResult result (λ _. IsColumnOf ColumnType.Bytes num_docs bytes.now)
        (Refuses (IsColumnOf ColumnType.Bytes num_docs bytes.now)) }
{
    BytesColumn::open(alloc, bytes, num_docs)?;
    Ok(())
}

fn check_str(alloc: Global, bytes: &OwnedBytes, num_docs: u32) -> Result<(), ColumnError>
    ensures { MatchResult result (λ _. IsColumnOf ColumnType.Str num_docs bytes.now)
        (Refuses (IsColumnOf ColumnType.Str num_docs bytes.now)) }
{
    StrColumn::open(alloc, bytes, num_docs)?;
    Ok(())
}

fn told(is: bool) -> Result<(), ColumnError>
    ensures { MatchResult result (λ _. IsTrue is) (Refuses (IsTrue is)) }
{
    if is {
        Ok(())
    } else {
        Err(ColumnError::Malformed)
    }
}

//! Columns of any type.

use crate::bytes_column::BytesColumn;
use crate::column::Column;
use crate::str_column::StrColumn;
use seg_common::DateTime;
use std::net::Ipv6Addr;

/// A column of any type.
#[derive(Drop)]
pub enum DynamicColumn {
    I64(Column<i64>),
    U64(Column<u64>),
    Bytes(BytesColumn),
    Str(StrColumn),
    Bool(Column<bool>),
    IpAddr(Column<Ipv6Addr>),
    DateTime(Column<DateTime>),
}

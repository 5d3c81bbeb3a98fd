//! Which values of a path are in one column.
ghost use Rattle.std.specs.Prelude.{◌≡◌};
ghost use Rattle.seg_column_writer.specs.ValueKinds.{kind_of, kind_place};

use seg_common::ColumnType;

/// What the values of a column are. The numbers of a path are in one column, whose type goes by all of them.
#[derive(Clone, Copy, Debug, PartialEq, Eq)]
pub enum ValueKind {
    Number,
    Bytes,
    Str,
    Bool,
    IpAddr,
    DateTime,
}

impl ValueKind {
    /// The kind of the values of a type.
    pub fn of(column_type: ColumnType) -> ValueKind
        ensures { result ≡ kind_of column_type }
    {
        match column_type {
            ColumnType::I64 => ValueKind::Number,
            ColumnType::U64 => ValueKind::Number,
            ColumnType::Bytes => ValueKind::Bytes,
            ColumnType::Str => ValueKind::Str,
            ColumnType::Bool => ValueKind::Bool,
            ColumnType::IpAddr => ValueKind::IpAddr,
            ColumnType::DateTime => ValueKind::DateTime,
        }
    }

    /// Its place in the order of kinds.
    pub(crate) fn place(self) -> u8
        ensures { result ≡ kind_place self }
    {
        match self {
            ValueKind::Number => 0,
            ValueKind::Bytes => 1,
            ValueKind::Str => 2,
            ValueKind::Bool => 3,
            ValueKind::IpAddr => 4,
            ValueKind::DateTime => 5,
        }
    }
}

//! A column while its values come.
ghost use Rattle.std.specs.Prelude.{◌≡◌, ◌&&◌, if◌then◌else◌, None, Some, [], false, map, All, OnOk, OnErr};
ghost use Rattle.seg_column_writer.specs.ValueKinds.{kind_of};
ghost use Rattle.seg_common.specs.declared.column_type.ColumnType.TheVariants as types;
ghost use Rattle.seg_column_writer.specs.RecordedColumns.{IsRecorded, column_type_of, is_there, type_of_values};
ghost use Rattle.seg_column_writer.specs.ColumnRecords.{Accepts, HasReached, with_type, with_value};
ghost use Rattle.seg_column_writer.specs.RowValues.{term_value, value_of};
ghost use Rattle.seg_column_writer.specs.SoundColumns.{Fits, IsTermOf};
ghost use Rattle.seg_column_writer.specs.TypedColumns.{written_type};

use crate::known_values::KnownValues;
use crate::row_value::RowValue;
use crate::value_kind::ValueKind;
use seg_common::ColumnType;
use std::alloc::{AllocError, Global};
use std::marker::Model;

/// The values of a column in the order in which they came. Of numbers two marks say whether all fit i64, and whether
/// none is negative, so that their type is known without a second look.
#[derive(Drop)]
pub(crate) struct RecordedColumn {
    pub(crate) kind: ValueKind,
    pub(crate) declared: Option<ColumnType>,
    pub(crate) sorts: bool,
    pub(crate) signed: bool,
    pub(crate) unsigned: bool,
    pub(crate) known: KnownValues,
}

impl Model for RecordedColumn {
    ghost use Rattle.std.specs.Prelude.{map};
    ghost use Rattle.seg_column_writer.specs.ColumnRecords.{Recording};
    ghost use Rattle.seg_column_writer.specs.SoundColumns.{AreSound, rowed};

    ghost Value = { Recording };

    ghost view = { λ c. record {
      kind = c.kind;
      declared = c.declared;
      sorts = c.sorts;
      values = map (rowed c.kind c.known.terms) c.known.values.items;
    } };

    ghost invariant = { λ c. AreSound c.kind c.declared c.signed c.unsigned c.known.values.items c.known.terms };
}

impl RecordedColumn {
    pub fn new(alloc: Global, kind: ValueKind) -> RecordedColumn
        ensures { result ≡ record { kind = kind; declared = None; sorts = false; values = [] } }
    {
        RecordedColumn {
            kind,
            declared: None,
            sorts: false,
            signed: true,
            unsigned: true,
            known: KnownValues::new(alloc),
        }
    }

    /// Gives the column a type, with which it is there without any value.
    pub fn declare(&mut self, column_type: ColumnType, sorts: bool)
        requires kind { self.old.kind ≡ kind_of column_type }
        requires accepted { All (λ v. Accepts (Some column_type) v.value) self.old.values }
        ensures { self.new ≡ with_type column_type sorts self.old }
    {
        self.declared = Some(column_type);
        self.sorts = sorts;
    }

    /// Adds a value that isn't kept by its term.
    pub fn push(&mut self, value: RowValue) -> Result<(), AllocError>
        requires row { HasReached value.row self.old }
        requires fits { Fits self.old.kind 0 value }
        requires accepted { Accepts self.old.declared (value_of self.old.kind [] value) }
        ensures ok { OnOk result (self.new ≡ with_value value.row (value_of self.old.kind [] value) self.old) }
        ensures err { OnErr result (self.new ≡ self.old) }
    {
        self.known.add(value)?;
        self.signed = both(self.signed, value.fits_signed());
        self.unsigned = both(self.unsigned, !value.negative);
        Ok(())
    }

    /// Adds a value by its term.
    pub fn push_term(&mut self, alloc: Global, row: u32, bytes: &[u8]) -> Result<(), AllocError>
        requires row { HasReached row self.old }
        requires term { IsTermOf self.old.kind bytes.now }
        ensures ok { OnOk result (self.new ≡ with_value row (term_value self.old.kind bytes.now) self.old) }
        ensures err { OnErr result (self.new ≡ self.old) }
    {
        self.known.add_term(alloc, row, bytes)
    }

    /// The type that the column has, if its numbers have one.
    pub fn column_type(&self) -> Option<ColumnType>
        ensures is { result ≡ column_type_of self.now }
        ensures recorded { IsRecorded self.now }
    {
        match self.declared {
            Some(column_type) => Some(column_type),
            None => self.free_type(),
        }
    }

    /// The type with which a file has the column, where it has it.
    pub fn written_type(&self) -> Option<ColumnType>
        ensures { result ≡ written_type self.now }
    {
        if !self.is_there() {
            return None;
        }
        self.column_type()
    }

    /// The type that it has where none is declared.
    fn free_type(&self) -> Option<ColumnType>
        ensures { result ≡ type_of_values self.now.kind (map (λ v. v.value) self.now.values) }
    {
        match self.kind {
            ValueKind::Number => number_type(self.signed, self.unsigned),
            ValueKind::Bytes => Some(ColumnType::Bytes),
            ValueKind::Str => Some(ColumnType::Str),
            ValueKind::Bool => Some(ColumnType::Bool),
            ValueKind::IpAddr => Some(ColumnType::IpAddr),
            ValueKind::DateTime => Some(ColumnType::DateTime),
        }
    }

    /// Whether a file has the column: it is declared, or has a value.
    fn is_there(&self) -> bool
        ensures { result ≡ is_there self.now }
    {
        self.declared.is_some() || self.known.values.len() > 0
    }
}

/// The type of numbers, if all fit one.
fn number_type(signed: bool, unsigned: bool) -> Option<ColumnType>
    ensures { result ≡ (if signed then Some types.I64 else (if unsigned then Some types.U64 else None)) }
{
    if signed {
        return Some(ColumnType::I64);
    }
    if unsigned {
        return Some(ColumnType::U64);
    }
    None
}

fn both(first: bool, second: bool) -> bool
    ensures { result ≡ (first && second) }
{
    first && second
}

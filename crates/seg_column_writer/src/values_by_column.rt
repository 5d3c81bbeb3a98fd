//! Values that are recorded by their column.
ghost use Rattle.std.specs.Prelude.{◌≡◌, OnOk, OnErr, IfErr};
ghost use Rattle.std.specs.Net.Addr.{ipv6_octets};
ghost use Rattle.seg_columns.specs.declared.error.ColumnError.TheVariants.{OutOfMemory};
ghost use Rattle.seg_model.specs.Columns.{number, bytes_value, text_value, boolean_value, ip_value, date_value};
ghost use Rattle.seg_column_writer.specs.ColumnRecords.{changed_at, with_value};
ghost use Rattle.seg_column_writer.specs.RowValues.{number_in};
ghost use Rattle.seg_column_writer.specs.RecordingRules.{At, CanTake};
ghost use Rattle.seg_column_writer.specs.declared.value_kind.ValueKind.TheVariants as kinds;

use crate::numerical_value::NumericalValue;
use crate::row_value::RowValue;
use crate::writer::{ColumnId, ColumnarWriter};
use seg_columns::ColumnError;
use seg_common::{DateTime, MonotonicallyMappableToU64};
use std::net::Ipv6Addr;

/// The calls that record a value in a column that was looked up before, by `ColumnarWriter::column`.
impl ColumnarWriter {
    /// Records a number.
    pub fn record_numerical_in(
        &mut self,
        doc: u32,
        column: ColumnId,
        value: NumericalValue,
    ) -> Result<(), ColumnError>
        requires { At (CanTake kinds.Number doc (number (number_in value))) column.place self.old }
        ensures ok { OnOk result
            (self.new ≡ changed_at (with_value doc (number (number_in value))) column.place self.old) }
        ensures err { IfErr result (λ e. e ≡ OutOfMemory) }
        ensures kept { OnErr result (self.new ≡ self.old) }
    {
        self.push(column, RowValue::of_numerical(doc, value))?;
        Ok(())
    }

    /// Records a text.
    pub fn record_str_in(
        &mut self,
        doc: u32,
        column: ColumnId,
        value: &str,
    ) -> Result<(), ColumnError>
        requires { At (CanTake kinds.Str doc (text_value value.now)) column.place self.old }
        ensures ok { OnOk result (self.new ≡ changed_at (with_value doc (text_value value.now)) column.place self.old) }
        ensures err { IfErr result (λ e. e ≡ OutOfMemory) }
        ensures kept { OnErr result (self.new ≡ self.old) }
    {
        self.push_term(column, doc, value.as_bytes())?;
        Ok(())
    }

    /// Records bytes.
    pub fn record_bytes_in(
        &mut self,
        doc: u32,
        column: ColumnId,
        value: &[u8],
    ) -> Result<(), ColumnError>
        requires { At (CanTake kinds.Bytes doc (bytes_value value.now)) column.place self.old }
        ensures ok { OnOk result
            (self.new ≡ changed_at (with_value doc (bytes_value value.now)) column.place self.old) }
        ensures err { IfErr result (λ e. e ≡ OutOfMemory) }
        ensures kept { OnErr result (self.new ≡ self.old) }
    {
        self.push_term(column, doc, value)?;
        Ok(())
    }

    /// Records a truth value.
    pub fn record_bool_in(
        &mut self,
        doc: u32,
        column: ColumnId,
        value: bool,
    ) -> Result<(), ColumnError>
        requires { At (CanTake kinds.Bool doc (boolean_value value)) column.place self.old }
        ensures ok { OnOk result (self.new ≡ changed_at (with_value doc (boolean_value value)) column.place self.old) }
        ensures err { IfErr result (λ e. e ≡ OutOfMemory) }
        ensures kept { OnErr result (self.new ≡ self.old) }
    {
        self.push(column, RowValue::of_number(doc, value.to_u64()))?;
        Ok(())
    }

    /// Records a moment.
    pub fn record_datetime_in(
        &mut self,
        doc: u32,
        column: ColumnId,
        value: DateTime,
    ) -> Result<(), ColumnError>
        requires { At (CanTake kinds.DateTime doc (date_value value)) column.place self.old }
        ensures ok { OnOk result (self.new ≡ changed_at (with_value doc (date_value value)) column.place self.old) }
        ensures err { IfErr result (λ e. e ≡ OutOfMemory) }
        ensures kept { OnErr result (self.new ≡ self.old) }
    {
        self.push(column, RowValue::of_number(doc, value.to_u64()))?;
        Ok(())
    }

    /// Records an address.
    pub fn record_ip_addr_in(
        &mut self,
        doc: u32,
        column: ColumnId,
        value: Ipv6Addr,
    ) -> Result<(), ColumnError>
        requires { At (CanTake kinds.IpAddr doc (ip_value (ipv6_octets value))) column.place self.old }
        ensures ok { OnOk result
            (self.new ≡ changed_at (with_value doc (ip_value (ipv6_octets value))) column.place self.old) }
        ensures err { IfErr result (λ e. e ≡ OutOfMemory) }
        ensures kept { OnErr result (self.new ≡ self.old) }
    {
        self.push_term(column, doc, &value.octets())?;
        Ok(())
    }
}

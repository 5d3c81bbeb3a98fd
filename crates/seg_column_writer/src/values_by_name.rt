//! Values that are recorded by the name of their column.
ghost use Rattle.std.specs.Prelude.{◌≡◌, OnOk, OnErr, IfErr};
ghost use Rattle.std.specs.Net.Addr.{ipv6_octets};
ghost use Rattle.seg_columns.specs.declared.error.ColumnError.TheVariants.{OutOfMemory};
ghost use Rattle.seg_model.specs.Columns.{number, bytes_value, text_value, boolean_value, ip_value, date_value};
ghost use Rattle.seg_column_writer.specs.RowValues.{number_in};
ghost use Rattle.seg_column_writer.specs.RecordingRules.{AreKeptBut, MayRecord, with_recorded};
ghost use Rattle.seg_column_writer.specs.declared.value_kind.ValueKind.TheVariants as kinds;

use crate::numerical_value::NumericalValue;
use crate::value_kind::ValueKind;
use crate::writer::ColumnarWriter;
use seg_columns::ColumnError;
use seg_common::DateTime;
use std::net::Ipv6Addr;

/// The calls that record a value under a name. Each looks for the column, and makes it where there is none.
impl ColumnarWriter {
    /// Records a number.
    pub fn record_numerical(
        &mut self,
        doc: u32,
        name: &str,
        value: NumericalValue,
    ) -> Result<(), ColumnError>
        requires { MayRecord name.now kinds.Number doc (number (number_in value)) self.old }
        ensures ok { OnOk result
            (self.new ≡ with_recorded name.now kinds.Number doc (number (number_in value)) self.old) }
        ensures err { IfErr result (λ e. e ≡ OutOfMemory) }
        ensures kept { OnErr result (AreKeptBut name.now kinds.Number self.old self.new) }
    {
        let column = self.column(name, ValueKind::Number)?;
        self.record_numerical_in(doc, column, value)?;
        Ok(())
    }

    /// Records a text.
    pub fn record_str(&mut self, doc: u32, name: &str, value: &str) -> Result<(), ColumnError>
        requires { MayRecord name.now kinds.Str doc (text_value value.now) self.old }
        ensures ok { OnOk result (self.new ≡ with_recorded name.now kinds.Str doc (text_value value.now) self.old) }
        ensures err { IfErr result (λ e. e ≡ OutOfMemory) }
        ensures kept { OnErr result (AreKeptBut name.now kinds.Str self.old self.new) }
    {
        let column = self.column(name, ValueKind::Str)?;
        self.record_str_in(doc, column, value)?;
        Ok(())
    }

    /// Records bytes.
    pub fn record_bytes(&mut self, doc: u32, name: &str, value: &[u8]) -> Result<(), ColumnError>
        requires { MayRecord name.now kinds.Bytes doc (bytes_value value.now) self.old }
        ensures ok { OnOk result (self.new ≡ with_recorded name.now kinds.Bytes doc (bytes_value value.now) self.old) }
        ensures err { IfErr result (λ e. e ≡ OutOfMemory) }
        ensures kept { OnErr result (AreKeptBut name.now kinds.Bytes self.old self.new) }
    {
        let column = self.column(name, ValueKind::Bytes)?;
        self.record_bytes_in(doc, column, value)?;
        Ok(())
    }

    /// Records a truth value.
    pub fn record_bool(&mut self, doc: u32, name: &str, value: bool) -> Result<(), ColumnError>
        requires { MayRecord name.now kinds.Bool doc (boolean_value value) self.old }
        ensures ok { OnOk result (self.new ≡ with_recorded name.now kinds.Bool doc (boolean_value value) self.old) }
        ensures err { IfErr result (λ e. e ≡ OutOfMemory) }
        ensures kept { OnErr result (AreKeptBut name.now kinds.Bool self.old self.new) }
    {
        let column = self.column(name, ValueKind::Bool)?;
        self.record_bool_in(doc, column, value)?;
        Ok(())
    }

    /// Records a moment.
    pub fn record_datetime(
        &mut self,
        doc: u32,
        name: &str,
        value: DateTime,
    ) -> Result<(), ColumnError>
        requires { MayRecord name.now kinds.DateTime doc (date_value value) self.old }
        ensures ok { OnOk result (self.new ≡ with_recorded name.now kinds.DateTime doc (date_value value) self.old) }
        ensures err { IfErr result (λ e. e ≡ OutOfMemory) }
        ensures kept { OnErr result (AreKeptBut name.now kinds.DateTime self.old self.new) }
    {
        let column = self.column(name, ValueKind::DateTime)?;
        self.record_datetime_in(doc, column, value)?;
        Ok(())
    }

    /// Records an address.
    pub fn record_ip_addr(
        &mut self,
        doc: u32,
        name: &str,
        value: Ipv6Addr,
    ) -> Result<(), ColumnError>
        requires { MayRecord name.now kinds.IpAddr doc (ip_value (ipv6_octets value)) self.old }
        ensures ok { OnOk result
            (self.new ≡ with_recorded name.now kinds.IpAddr doc (ip_value (ipv6_octets value)) self.old) }
        ensures err { IfErr result (λ e. e ≡ OutOfMemory) }
        ensures kept { OnErr result (AreKeptBut name.now kinds.IpAddr self.old self.new) }
    {
        let column = self.column(name, ValueKind::IpAddr)?;
        self.record_ip_addr_in(doc, column, value)?;
        Ok(())
    }
}

//! Terms.
ghost use Rattle.std.specs.Prelude.{◌≡◌, ℕ, List, [], ◌∷◌, ◌++◌, IfOk, IfErr, OnOk, OnErr, IsOkUnless};
ghost use Rattle.std.specs.Net.Addr.{ipv6_octets};
ghost use Rattle.seg_common.specs.JsonPaths.{joined_path};
ghost use Rattle.seg_values.specs.JsonPathTexts.{path_keys};
ghost use Rattle.seg_values.specs.JsonTerms.{coded_token, coded_value};
ghost use Rattle.seg_values.specs.Tree.{text, unsigned, signed, boolean, date, facet, byte_string, ip};
ghost use Rattle.seg_values.specs.ValueBytes.{value_bytes};

use crate::error::{TResult, TantivyError};
use crate::facet::Facet;
use crate::fast_value::{FastValue, TEXT_CODE, coded_leaf};
use crate::json_path::path_bytes;
use crate::schema::Field;
use crate::value_error::ValueError;
use seg_common::{DateTime, DateTimePrecision, MonotonicallyMappableToU64};
use std::alloc::{AllocError, Global};
use std::marker::Model;
use std::net::Ipv6Addr;

/// A field, and the bytes of a value. In a field, numbers and moments are in the order of their bytes.
#[derive(Debug, Drop)]
pub struct Term {
    field: Field,
    bytes: Vec<u8>,
}

impl Model for Term {
    ghost use Rattle.seg_values.specs.ValueBytes.{TermKey};

    ghost Value = { TermKey };

    ghost view = { λ a. record { field = a.field; bytes = a.bytes.items } };
}

impl Term {
    /// A token of a text.
    pub fn from_field_text(alloc: Global, field: Field, value: &str) -> Result<Term, ValueError>
        ensures ok { IfOk result
            (λ t. t ≡ record { field = field; bytes = value_bytes (text value.now) }) }
        ensures memory { IsOkUnless result ValueError.OutOfMemory }
    {
        Self::from_field_bytes(alloc, field, value.as_bytes())
    }

    pub fn from_field_bytes(alloc: Global, field: Field, value: &[u8]) -> Result<Term, ValueError>
        ensures ok { IfOk result
            (λ t. t ≡ record { field = field; bytes = value_bytes (byte_string value.now) }) }
        ensures memory { IsOkUnless result ValueError.OutOfMemory }
    {
        Ok(Term {
            field,
            bytes: Vec::from_slice(alloc, value)?,
        })
    }

    pub fn from_facet(alloc: Global, field: Field, value: &Facet) -> Result<Term, ValueError>
        ensures ok { IfOk result
            (λ t. t ≡ record { field = field; bytes = value_bytes (facet value.now) }) }
        ensures memory { IsOkUnless result ValueError.OutOfMemory }
    {
        Self::from_field_text(alloc, field, value.encoded_str())
    }

    pub fn from_field_u64(alloc: Global, field: Field, value: u64) -> Result<Term, ValueError>
        ensures ok { IfOk result
            (λ t. t ≡ record { field = field; bytes = value_bytes (unsigned value) }) }
        ensures memory { IsOkUnless result ValueError.OutOfMemory }
    {
        Self::from_field_bytes(alloc, field, &value.to_be_bytes())
    }

    pub fn from_field_i64(alloc: Global, field: Field, value: i64) -> Result<Term, ValueError>
        ensures ok { IfOk result
            (λ t. t ≡ record { field = field; bytes = value_bytes (signed value) }) }
        ensures memory { IsOkUnless result ValueError.OutOfMemory }
    {
        Self::from_field_u64(alloc, field, value.to_u64())
    }

    pub fn from_field_bool(alloc: Global, field: Field, value: bool) -> Result<Term, ValueError>
        ensures ok { IfOk result
            (λ t. t ≡ record { field = field; bytes = value_bytes (boolean value) }) }
        ensures memory { IsOkUnless result ValueError.OutOfMemory }
    {
        Self::from_field_u64(alloc, field, value.to_u64())
    }

    /// The moment is cut to whole seconds.
    pub fn from_field_date(alloc: Global, field: Field, value: DateTime) -> Result<Term, ValueError>
        ensures ok { IfOk result
            (λ t. t ≡ record { field = field; bytes = value_bytes (date value) }) }
        ensures memory { IsOkUnless result ValueError.OutOfMemory }
    {
        let cut = value.truncate(DateTimePrecision::Seconds);
        Self::from_field_u64(alloc, field, cut.to_u64())
    }

    pub fn from_field_ip_addr(
        alloc: Global,
        field: Field,
        value: Ipv6Addr,
    ) -> Result<Term, ValueError>
        ensures ok { IfOk result
            (λ t. t ≡ record { field = field; bytes = value_bytes (ip (ipv6_octets value)) }) }
        ensures memory { IsOkUnless result ValueError.OutOfMemory }
    {
        Self::from_field_bytes(alloc, field, &value.octets())
    }

    /// The front of the terms of a path in a JSON field, which an append completes. The path is a text in which each
    /// dot stands between two keys, except where a backslash precedes it: `\.` is a dot of a key.
    pub fn from_field_json_path(
        alloc: Global,
        field: Field,
        path: &str,
        expand_dots: bool,
    ) -> Result<Term, ValueError>
        ensures ok { IfOk result
            (λ t. t ≡ record { field = field; bytes = joined_path expand_dots (path_keys path.now) ++ 0 ∷ [] }) }
        ensures memory { IsOkUnless result ValueError.OutOfMemory }
    {
        Ok(Term {
            field,
            bytes: path_bytes(alloc, path, expand_dots)?,
        })
    }

    /// Appends the type code of texts, and a token.
    pub fn append_type_and_str(&mut self, value: &str) -> Result<(), ValueError>
        ensures ok { OnOk result (self.new ≡ record self.old { bytes = self.old.bytes ++ coded_token value.now }) }
        ensures err { OnErr result (self.new ≡ self.old) }
        ensures memory { IsOkUnless result ValueError.OutOfMemory }
    {
        push_coded(&mut self.bytes, TEXT_CODE, value.as_bytes())?;
        Ok(())
    }

    /// Appends the type code of a value, and its bytes. A `u64` that fits an `i64` is coded as one, and a moment is cut
    /// to whole seconds.
    pub fn append_type_and_fast_value<T: FastValue>(&mut self, value: T) -> Result<(), ValueError>
        ensures ok { OnOk result ((coded : List ℕ) × (coded_value (T.leaf value) ≡ coded ∷ [])
            × (self.new ≡ record self.old { bytes = self.old.bytes ++ coded })) }
        ensures err { OnErr result (self.new ≡ self.old) }
        ensures memory { IsOkUnless result ValueError.OutOfMemory }
    {
        let coded = coded_leaf(value);
        push_coded(&mut self.bytes, coded.code, &coded.number.to_be_bytes())?;
        Ok(())
    }

    /// A copy of the field and the bytes.
    pub fn try_clone(&self, alloc: Global) -> TResult<Term>
        ensures ok { IfOk result (λ copy. copy ≡ self.now) }
        ensures err { IfErr result (λ e. e ≡ TantivyError.OutOfMemory) }
    {
        match Vec::from_slice(alloc, &self.bytes) {
            Ok(bytes) => Ok(Term {
                field: self.field,
                bytes,
            }),
            Err(_) => Err(TantivyError::OutOfMemory),
        }
    }

    pub fn field(&self) -> Field
        ensures { result ≡ self.now.field }
    {
        self.field
    }

    pub fn serialized_value_bytes(&self) -> &[u8]
        ensures { result.now ≡ self.now.bytes }
    {
        &self.bytes
    }
}

/// Appends a type code and bytes after it, both or none.
fn push_coded(out: &mut Vec<u8>, code: u8, value: &[u8]) -> Result<(), AllocError>
    ensures ok { OnOk result (out.new.items ≡ out.old.items ++ code ∷ value.now) }
    ensures err { OnErr result (out.new.items ≡ out.old.items) }
{
    out.push(code)?;
    match out.extend_from_slice(value) {
        Ok(()) => Ok(()),
        Err(AllocError) => {
            out.pop();
            Err(AllocError)
        }
    }
}

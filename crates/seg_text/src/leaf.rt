//! Values with no values below them, as JSON. After an error it is open what `out` holds.
ghost use Rattle.std.specs.Prelude.{◌≡◌, ◌++◌, OnOk};
ghost use Rattle.std.specs.Net.Addr.{ipv6_octets};
ghost use Rattle.base64.specs.Engines.{standard};
ghost use Rattle.base64.specs.GeneralPurpose.{encode_of};
ghost use Rattle.json.specs.Print.{quoted};
ghost use Rattle.serde_json.specs.Data as json;
ghost use Rattle.serde_json.specs.Written.{compact_text};
ghost use Rattle.seg_common.specs.DateText.{date_text};
ghost use Rattle.seg_values.specs.AddressText.{address_text};
ghost use Rattle.seg_values.specs.Facets.{path_of};

use crate::quoted_text::push_quoted;
use base64::engine::general_purpose::STANDARD;
use seg_common::{DateTime, push_rfc3339};
use seg_values::{Facet, shown_address};
use std::alloc::{AllocError, Global};
use std::net::Ipv6Addr;

pub fn push_bool(out: &mut Vec<u8>, bit: bool) -> Result<(), AllocError>
    ensures { OnOk result (out.new.items ≡ out.old.items ++ compact_text (json.boolean bit)) }
{
    out.extend_from_slice(if bit { b"true".as_slice() } else { b"false" })
}

/// The path of a facet.
pub(crate) fn push_facet(out: &mut Vec<u8>, alloc: Global, facet: &Facet) -> Result<(), AllocError>
    ensures { OnOk result (out.new.items ≡ out.old.items ++ quoted (path_of facet.now)) }
{
    match facet.to_path_string(alloc) {
        Ok(path) => push_quoted(out, alloc, path.as_str()),
        Err(_) => Err(AllocError),
    }
}

/// Bytes in base64.
pub fn push_base64(out: &mut Vec<u8>, alloc: Global, bytes: &[u8]) -> Result<(), AllocError>
    ensures { OnOk result (out.new.items ≡ out.old.items ++ quoted (encode_of standard bytes.now)) }
{
    let text = STANDARD.encode(alloc, bytes)?;
    push_quoted(out, alloc, text.as_str())
}

pub fn push_date(out: &mut Vec<u8>, date: DateTime) -> Result<(), AllocError>
    ensures { OnOk result (out.new.items ≡ out.old.items ++ quoted (date_text date)) }
{
    out.push(b'"')?;
    push_rfc3339(out, date)?;
    out.push(b'"')?;
    Ok(())
}

pub fn push_address(out: &mut Vec<u8>, alloc: Global, address: Ipv6Addr) -> Result<(), AllocError>
    ensures { OnOk result (out.new.items ≡ out.old.items ++ quoted (address_text (ipv6_octets address))) }
{
    let text = shown_address(alloc, address)?;
    push_quoted(out, alloc, text.as_str())
}

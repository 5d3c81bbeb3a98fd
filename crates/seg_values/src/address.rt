//! The texts of addresses.
ghost use Rattle.std.specs.Prelude.{◌≡◌, IfOk, string_bytes};
ghost use Rattle.std.specs.Net.Addr.{ipv6_octets};
ghost use Rattle.seg_values.specs.AddressText.{address_text};

use std::alloc::{AllocError, Global};
use std::net::Ipv6Addr;

/// The text of an address, of which an IPv4-mapped one is shown as IPv4.
pub fn shown_address(alloc: Global, address: Ipv6Addr) -> Result<String, AllocError>
    ensures { IfOk result (λ text. string_bytes text ≡ address_text (ipv6_octets address)) }
{
    match address.to_ipv4_mapped() {
        Some(address) => Ok(format!(in alloc; "{address}")?),
        None => Ok(format!(in alloc; "{}", address.hex_groups())?),
    }
}

//! Texts read as addresses.
ghost use Rattle.std.specs.Prelude.{◌≡◌, option_map};
ghost use Rattle.std.specs.Net.Addr.{ipv6_octets};
ghost use Rattle.seg_script_values.specs.Addresses.{has_byte, dotted_address, colon_address, address_of};

use std::net::{Ipv4Addr, Ipv6Addr};

/// The address that a text is: dotted numbers as the IPv4-mapped address, or groups of hexadecimal digits between
/// colons.
pub fn address_from(text: &str) -> Option<Ipv6Addr>
    ensures { option_map ipv6_octets result ≡ address_of text.now }
{
    if !has_byte(text.as_bytes(), b':') {
        return dotted_address(text);
    }
    if has_byte(text.as_bytes(), b'.') {
        return None;
    }
    colon_address(text)
}

fn dotted_address(text: &str) -> Option<Ipv6Addr>
    ensures { option_map ipv6_octets result ≡ dotted_address text.now }
{
    match text.parse::<Ipv4Addr>() {
        Ok(address) => Some(address.to_ipv6_mapped()),
        Err(_) => None,
    }
}

fn colon_address(text: &str) -> Option<Ipv6Addr>
    ensures { option_map ipv6_octets result ≡ colon_address text.now }
{
    match text.parse::<Ipv6Addr>() {
        Ok(address) => Some(address),
        Err(_) => None,
    }
}

fn has_byte(text: &[u8], byte: u8) -> bool
    ensures { result ≡ has_byte byte text.now }
{
    text.iter().any(|other| byte == *other)
}

//! Terms.
ghost use Rattle.std.specs.Prelude.{◌≡◌, ◌++◌, OnOk};
ghost use Rattle.std.specs.List.{list_all};
ghost use Rattle.seg_text.specs.TermText.{is_plain, byte_text, term_text};

use crate::hexadecimal::hex_digit;
use std::alloc::AllocError;

/// The text of a term, without a line feed.
/// After an error it is open what `out` holds.
pub fn push_term(out: &mut Vec<u8>, bytes: &[u8]) -> Result<(), AllocError>
    ensures { OnOk result (out.new.items ≡ out.old.items ++ term_text bytes.now) }
{
    if bytes.is_empty() {
        return out.extend_from_slice(b"\\e");
    }
    if are_plain(bytes) {
        return out.extend_from_slice(bytes);
    }
    for byte in bytes {
        push_byte(out, *byte)?;
    }
    Ok(())
}

fn are_plain(bytes: &[u8]) -> bool
    ensures { result ≡ list_all is_plain bytes.now }
{
    bytes.iter().all(|byte| is_plain(*byte))
}

/// Whether the byte stands for itself in a term.
fn is_plain(byte: u8) -> bool
    ensures { result ≡ is_plain byte }
{
    byte.is_ascii_graphic() && byte != b'\\'
}

fn push_byte(out: &mut Vec<u8>, byte: u8) -> Result<(), AllocError>
    ensures { OnOk result (out.new.items ≡ out.old.items ++ byte_text byte) }
{
    if is_plain(byte) {
        out.push(byte)?;
    } else {
        out.extend_from_slice(&[b'\\', hex_digit(byte / 16), hex_digit(byte % 16)])?;
    }
    Ok(())
}

//! Texts as JSON.
ghost use Rattle.std.specs.Prelude.{◌≡◌, ◌++◌, true, IfOk, OnOk};
ghost use Rattle.std.specs.List.{list_all};
ghost use Rattle.json.specs.Print.{quoted};
ghost use Rattle.seg_text.specs.QuotedText.{is_unescaped};

use json::Writer;
use std::alloc::{AllocError, Global};

/// The compact JSON text of a text.
/// After an error it is open what `out` holds.
pub fn push_quoted(out: &mut Vec<u8>, alloc: Global, text: &str) -> Result<(), AllocError>
    ensures { OnOk result (out.new.items ≡ out.old.items ++ quoted text.now) }
{
    if are_unescaped(text.as_bytes()) {
        push_between_quotes(out, text)
    } else {
        push_escaped(out, alloc, text)
    }
}

fn are_unescaped(bytes: &[u8]) -> bool
    ensures { result ≡ list_all is_unescaped bytes.now }
{
    bytes.iter().all(|byte| is_unescaped(*byte))
}

/// Whether the byte stands for itself between quotes.
#[inline]
fn is_unescaped(byte: u8) -> bool
    ensures { result ≡ is_unescaped byte }
{
    byte >= b' ' && byte != b'"' && byte != b'\\'
}

fn push_between_quotes(out: &mut Vec<u8>, text: &str) -> Result<(), AllocError>
    requires { list_all is_unescaped text.now ≡ true }
    ensures { OnOk result (out.new.items ≡ out.old.items ++ quoted text.now) }
{
    out.push(b'"')?;
    out.extend_from_slice(text.as_bytes())?;
    out.push(b'"')?;
    Ok(())
}

fn push_escaped(out: &mut Vec<u8>, alloc: Global, text: &str) -> Result<(), AllocError>
    ensures { OnOk result (out.new.items ≡ out.old.items ++ quoted text.now) }
{
    let text = escaped(alloc, text)?;
    out.extend_from_slice(&text)?;
    Ok(())
}

/// A list of its own, since a writer clears memory ahead of what it writes.
fn escaped(alloc: Global, text: &str) -> Result<Vec<u8>, AllocError>
    ensures { IfOk result (λ bytes. bytes.items ≡ quoted text.now) }
{
    let mut writer = Writer::new(Vec::new(alloc));
    writer.string(text)?;
    Ok(writer.into_inner())
}

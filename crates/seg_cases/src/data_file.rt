//! The files in `damage`.

use crate::failure::Failure;
use std::alloc::Global;
use std::fs;
use std::rt::Files;

/// The bytes of a file: JSON as it is there, any other as hexadecimal digits.
pub(crate) fn read<R: Files + AllocGlobal>(
    rt: &R,
    name: &str,
    extension: &str,
) -> Result<Vec<u8>, Failure> {
    let text = fs::read_to_string(rt, format!(in rt.alloc(); "damage/{name}.{extension}")?)?;
    if extension == "json" {
        Ok(Vec::from_slice(rt.alloc(), text.as_bytes())?)
    } else {
        from_hex(rt.alloc(), text.as_str())
    }
}

fn from_hex(alloc: Global, text: &str) -> Result<Vec<u8>, Failure> {
    let mut bytes = Vec::new(alloc);
    for line in text.lines() {
        for digits in before_comment(line).split_whitespace() {
            let Ok(piece) = hex::decode(alloc, digits) else {
                return Err(Failure::Case("a file has other than hexadecimal digits"));
            };
            bytes.extend_from_slice(&piece)?;
        }
    }
    Ok(bytes)
}

/// What a line has before a number sign.
pub(crate) fn before_comment(line: &str) -> &str {
    match line.split_once('#') {
        Some((front, _)) => front,
        None => line,
    }
}

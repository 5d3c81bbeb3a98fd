//! Paths of JSON keys, read from a text.
ghost use Rattle.std.specs.Prelude.{◌≡◌, ◌≢◌, ◌<◌, ◌++◌, [], ◌∷◌, ℕ, List, map, length, slice_index, string_bytes, OnOk, IfOk};
ghost use Rattle.seg_common.specs.JsonPaths.{joined_path, written_key};
ghost use Rattle.seg_values.specs.JsonPathTexts.{path_keys, keys_in, before_first};

use seg_common::JsonPathWriter;
use std::alloc::{AllocError, Global};

/// The path that a text names, with U+0001 between each two keys, as terms and columns have it. In the text the keys
/// stand between dots, and `\.` is a dot in a key. Any other backslash stands for itself, so `\\.` is a backslash and a
/// dot.
pub fn json_path_text(alloc: Global, text: &str, expand_dots: bool) -> Result<String, AllocError>
    ensures { IfOk result (λ path. string_bytes path ≡ joined_path expand_dots (path_keys text.now)) }
{
    let path = path_from(alloc, text, expand_dots)?;
    let copy = String::from_str(alloc, path.as_str())?;
    Ok(copy)
}

/// What a term of a JSON field begins with: the path that a text names, and a byte 0.
pub(crate) fn path_bytes(
    alloc: Global,
    text: &str,
    expand_dots: bool,
) -> Result<Vec<u8>, AllocError>
    ensures { IfOk result (λ bytes. bytes.items ≡ joined_path expand_dots (path_keys text.now) ++ 0 ∷ []) }
{
    let path = json_path_text(alloc, text, expand_dots)?;
    let mut bytes = Vec::from_slice(alloc, path.as_str().as_bytes())?;
    bytes.push(0)?;
    Ok(bytes)
}

fn path_from(alloc: Global, text: &str, expand_dots: bool) -> Result<JsonPathWriter, AllocError>
    ensures { IfOk result (λ path. path.keys ≡ map (written_key expand_dots) (path_keys text.now)) }
{
    let mut path = JsonPathWriter::new(alloc);
    path.set_expand_dots(expand_dots);
    if !text.is_empty() {
        push_keys(&mut path, alloc, text)?;
    }
    Ok(path)
}

/// Adds the keys of a text.
fn push_keys(path: &mut JsonPathWriter, alloc: Global, text: &str) -> Result<(), AllocError>
    ensures { OnOk result (path.new.keys ≡ path.old.keys ++ map (written_key path.old.expand_dots) (keys_in text.now)) }
{
    let mut key = String::new(alloc);
    let mut rest = text;
    while let Some((part, others)) = rest.split_once('.') {
        take_part(path, &mut key, part)?;
        rest = others;
    }
    end_key(path, &mut key, rest)
}

/// Takes what stands before a dot into a key. The dot ends the key, except where a backslash is before it.
fn take_part(path: &mut JsonPathWriter, key: &mut String, part: &str) -> Result<(), AllocError>
    requires { (i : ℕ) → i < length part.now → slice_index part.now i ≢ 46 }
    ensures keys { OnOk result ((others : List ℕ)
        → path.new.keys ++ map (written_key path.old.expand_dots) (before_first (string_bytes key.new) (keys_in others))
        ≡ path.old.keys
        ++ map (written_key path.old.expand_dots)
        (before_first (string_bytes key.old) (keys_in (part.now ++ 46 ∷ others)))) }
    ensures same { OnOk result (path.new.expand_dots ≡ path.old.expand_dots) }
{
    match part.strip_suffix('\\') {
        Some(front) => go_on_with_dot(key, front),
        None => end_key(path, key, part),
    }
}

/// Adds a part to a key, and a dot.
fn go_on_with_dot(key: &mut String, front: &str) -> Result<(), AllocError>
    ensures { OnOk result (string_bytes key.new ≡ (string_bytes key.old ++ front.now) ++ 46 ∷ []) }
{
    key.push_str(front)?;
    key.push('.')
}

/// Adds a part to a key, and the key to a path.
fn end_key(path: &mut JsonPathWriter, key: &mut String, part: &str) -> Result<(), AllocError>
    ensures keys { OnOk result
        (path.new
        ≡ record path.old {
          keys = path.old.keys
              ++ written_key path.old.expand_dots (string_bytes key.old ++ part.now) ∷ [];
        }) }
    ensures empty { OnOk result (string_bytes key.new ≡ []) }
{
    key.push_str(part)?;
    push_key(path, key.as_str())?;
    key.clear();
    Ok(())
}

fn push_key(path: &mut JsonPathWriter, key: &str) -> Result<(), AllocError>
    ensures { OnOk result
        (path.new ≡ record path.old { keys = path.old.keys ++ written_key path.old.expand_dots key.now ∷ [] }) }
{
    match path.push(key) {
        Ok(()) => Ok(()),
        Err(_) => Err(AllocError),
    }
}

//! The names under which paths are listed.
ghost use Rattle.std.specs.Prelude.{◌≡◌, ◌==◌, ◌++◌, [], ◌∷◌, List, IfOk, OnOk, string_bytes};
ghost use Rattle.std.specs.List.{list_any};
ghost use Rattle.seg_field_metadata.specs.ListedNames as spec;
ghost use Rattle.seg_field_metadata.specs.ListedNames.{EscapedName, HasNames, dotted_path, escaped_names, escaped_path};

use seg_common::{PATH_SEPARATOR, push_replaced};
use seg_values::FieldEntry;
use std::alloc::{AllocError, Global};
use std::collections::HashMap;

/// The escaped names of paths, by their names with plain dots. Of several with one the last counts.
#[derive(Drop)]
pub(crate) struct EscapedNames {
    pub(crate) by_dotted: HashMap<String, String>,
}

impl EscapedNames {
    pub(crate) fn new(alloc: Global) -> EscapedNames
        ensures { HasNames result.by_dotted [] }
    {
        EscapedNames {
            by_dotted: HashMap::new(alloc),
        }
    }

    /// Takes the name of a joined path of a JSON field, if it is an escaped one.
    pub(crate) fn add(
        &mut self,
        alloc: Global,
        entry: &FieldEntry,
        path: &str,
    ) -> Result<(), AllocError>
        ensures { OnOk result ((names : List EscapedName) → HasNames self.old.by_dotted names
            → HasNames self.new.by_dotted (names ++ escaped_names entry.now path.now)) }
    {
        if !is_escaped(entry, path) {
            return Ok(());
        }
        let mut dotted = field_name(alloc, entry)?;
        push_replaced(&mut dotted, path, PATH_SEPARATOR, '.')?;
        let escaped = listed_name(alloc, entry, path)?;
        drop(self.by_dotted.insert(dotted, escaped)?);
        Ok(())
    }

    /// The name under which the columns of a path are listed.
    pub(crate) fn column_name(&self, alloc: Global, path: &str) -> Result<String, AllocError>
        ensures { IfOk result (λ name. (names : List EscapedName) → HasNames self.now.by_dotted names
            → string_bytes name ≡ spec.column_name names path.now) }
    {
        let mut dotted = String::new(alloc);
        push_replaced(&mut dotted, path, PATH_SEPARATOR, '.')?;
        match self.by_dotted.get(dotted.as_str()) {
            Some(escaped) => String::from_str(alloc, escaped.as_str()),
            None => Ok(dotted),
        }
    }
}

fn is_escaped(entry: &FieldEntry, path: &str) -> bool
    ensures { result ≡ spec.is_escaped entry.now path.now }
{
    if entry.expand_dots {
        return false;
    }
    has_dot(path.as_bytes())
}

fn has_dot(path: &[u8]) -> bool
    ensures { result ≡ list_any (λ b. b == 46) path.now }
{
    path.iter().any(|b| *b == b'.')
}

/// The name of a joined path of a JSON field.
pub(crate) fn listed_name(
    alloc: Global,
    entry: &FieldEntry,
    path: &str,
) -> Result<String, AllocError>
    ensures { IfOk result (λ name. string_bytes name ≡ spec.listed_name entry.now path.now) }
{
    let mut name = field_name(alloc, entry)?;
    if entry.expand_dots {
        push_replaced(&mut name, path, PATH_SEPARATOR, '.')?;
        return Ok(name);
    }
    push_escaped(&mut name, path)?;
    Ok(name)
}

/// The name of a field, and a dot.
fn field_name(alloc: Global, entry: &FieldEntry) -> Result<String, AllocError>
    ensures { IfOk result (λ name. string_bytes name ≡ entry.now.name ++ 46 ∷ []) }
{
    let mut name = String::from_str(alloc, entry.name.as_str())?;
    name.push('.')?;
    Ok(name)
}

fn push_escaped(name: &mut String, path: &str) -> Result<(), AllocError>
    ensures { OnOk result (string_bytes name.new ≡ string_bytes name.old ++ escaped_path path.now) }
{
    let mut rest = path;
    while let Some((part, others)) = rest.split_once('.') {
        push_part(name, part)?;
        rest = others;
    }
    push_replaced(name, rest, PATH_SEPARATOR, '.')
}

/// Appends what stands before a dot, and the dot, escaped.
fn push_part(name: &mut String, part: &str) -> Result<(), AllocError>
    ensures { OnOk result (string_bytes name.new ≡ string_bytes name.old ++ (dotted_path part.now ++ 92 ∷ 46 ∷ [])) }
{
    push_replaced(name, part, PATH_SEPARATOR, '.')?;
    name.push_str("\\.")
}

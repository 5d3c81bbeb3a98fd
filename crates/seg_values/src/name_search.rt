//! The search for the field of a name that goes on with a path.
ghost use Rattle.std.specs.Prelude.{◌≡◌, ◌<◌, ◌↔◌, length, IsTrue};
ghost use Rattle.std.specs.Option.{option_map};
ghost use Rattle.seg_values.specs.NameSearch.{IsSeparator, Finds};

use crate::schema::{Field, Schema};

impl Schema {
    /// The field that a name finds, and the path in it. `a.b.c` finds the field `a.b.c` with an empty path, else
    /// `a.b` with the path `c`, else `a` with the path `b.c`; names of fields are compared as they are written.
    pub fn find_field_with_default<'n>(
        &self,
        name: &'n str,
        default: Option<Field>,
    ) -> Option<(Field, &'n str)>
        ensures { Finds self.now name.entry.now default
            (option_map (λ found. (found.0, found.1.now)) result) }
    {
        if let Ok(field) = self.get_field(name) {
            return Some((field, ""));
        }
        for at in (0..name.len()).rev() {
            if is_separator(name, at) {
                if let Ok(field) = self.get_field(&name[..at]) {
                    return Some((field, &name[at + 1..]));
                }
            }
        }
        Some((default?, name))
    }
}

/// Whether a dot is at a place, and no backslash before it.
fn is_separator(name: &str, at: usize) -> bool
    requires { at < length name.now }
    ensures { IsTrue result ↔ IsSeparator name.now at }
{
    let bytes = name.as_bytes();
    bytes[at] == b'.' && (at == 0 || bytes[at - 1] != b'\\')
}

//! The paths at which JSON fields have columns.
ghost use Rattle.std.specs.Prelude.{◌≡◌};
ghost use Rattle.seg_column_format.specs.PathStarts.{AreStarts};
ghost use Rattle.seg_column_format.specs.SchemaColumns as spec;

use crate::json_fields::is_named;
use crate::path_start::PathStart;
use crate::path_starts::is_below_some;
use seg_values::Schema;

/// Whether a path is the name of a fast JSON field, or has one before a separator.
pub(crate) fn is_json_path(schema: &Schema, starts: &[PathStart], path: &str) -> bool
    requires { AreStarts schema.now starts.now }
    ensures { result ≡ spec.is_json_path schema.now path.now }
{
    if is_named(schema, path) {
        return true;
    }
    is_below_some(starts, path.as_bytes())
}

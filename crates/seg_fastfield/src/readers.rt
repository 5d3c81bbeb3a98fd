//! The readers of a segment's fast fields.
ghost use Rattle.std.specs.Prelude.{◌≡◌, ◌<◌, ◌⊎◌, length, option_map, string_bytes, IfSome, MatchResult, Ok};
ghost use Rattle.seg_values.specs.declared.error.TantivyError.TheVariants.{OutOfMemory, InvalidArgument};
ghost use Rattle.seg_values.specs.declared.error.ArgumentCause.TheVariants.{NotFast};
ghost use Rattle.seg_fastfield.specs.ColumnNames.{FindsNotFast, StandsFor};

use crate::column_name::column_path;
use seg_column_file::ColumnarReader;
use seg_values::{ArgumentCause, Field, Schema, TResult, TantivyError};
use std::alloc::Global;
use std::marker::Model;

/// The columns of a segment by the names of its fields. A name is that of a fast field, or of a fast JSON field with a
/// path after a dot: `attributes.color`. In a path a dot of a key is written `\.`.
#[derive(Drop)]
pub struct FastFieldReaders {
    columnar: ColumnarReader,
    schema: Schema,
}

impl Model for FastFieldReaders {
    ghost use Rattle.seg_fastfield.specs.OpenFastFields.{FastFields};

    ghost Value = { FastFields };

    ghost view = { λ r. record { schema = r.schema; file = r.columnar } };
}

impl FastFieldReaders {
    pub fn new(columnar: ColumnarReader, schema: Schema) -> FastFieldReaders
        ensures { result ≡ record { schema = schema; file = columnar } }
    {
        FastFieldReaders { columnar, schema }
    }

    /// Readers that share the columns and the schema: no memory is taken.
    pub fn try_clone(&self, _alloc: Global) -> TResult<FastFieldReaders>
        ensures { result ≡ Ok self.now }
    {
        let Ok(columnar) = self.columnar.clone() else {
            return Err(TantivyError::OutOfMemory);
        };
        Ok(FastFieldReaders {
            columnar,
            schema: self.schema.share(),
        })
    }

    pub fn columnar(&self) -> &ColumnarReader
        ensures { result.now ≡ self.now.file }
    {
        &self.columnar
    }

    /// The path of the columns that a name stands for, whether or not they are there: that of the field, and for a JSON
    /// field with a path its name, U+0001 and the keys with U+0001 between each two. A name that finds no field is a
    /// path in the default one.
    pub fn resolve_column_name_given_default_field(
        &self,
        alloc: Global,
        field_name: &str,
        default: Option<Field>,
    ) -> TResult<Option<String>>
        requires { IfSome default (λ f. f < length self.now.schema) }
        ensures { MatchResult result
            (λ name. StandsFor self.now.schema field_name.now default (option_map string_bytes name))
            (λ e. ((e ≡ InvalidArgument NotFast) × FindsNotFast self.now.schema field_name.now default)
            ⊎ (e ≡ OutOfMemory)) }
    {
        let Some((field, path)) = self.schema.find_field_with_default(field_name, default) else {
            return Ok(None);
        };
        let entry = self.schema.get_field_entry(field);
        if !entry.fast {
            return Err(TantivyError::InvalidArgument(ArgumentCause::NotFast));
        }
        match column_path(alloc, entry, path) {
            Ok(name) => Ok(name),
            Err(_) => Err(TantivyError::OutOfMemory),
        }
    }
}

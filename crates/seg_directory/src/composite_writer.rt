//! The writer of composite files.
ghost use Rattle.std.specs.Prelude.{◌≡◌, ◌≢◌, ◌≤◌, ◌<◌, ◌-◌, ◌^◌, ◌++◌, ◌∷◌, [], List, Option, Some, None, IfOk, IfErr, IfSome, OnOk};
ghost use Rattle.seg_common.specs.WriterGrowth.{HasGrown};
ghost use Rattle.seg_directory.specs.CompositeFiles.{Part, composite, low_after};

use crate::written_parts::WrittenParts;
use seg_common::CommonError;
use seg_values::Field;
use std::alloc::Global;
use std::marker::Model;

/// Writes a composite file part by part. Once out of memory it answers so for good, and it is seen as nothing.
#[derive(Drop)]
pub struct CompositeWriter {
    parts: Option<WrittenParts>,
}

impl Model for CompositeWriter {
    ghost Value = { Option (List Part) };

    ghost view = { λ w. w.parts };
}

impl CompositeWriter {
    pub fn new(alloc: Global) -> CompositeWriter
        ensures { result ≡ Some [] }
    {
        CompositeWriter {
            parts: Some(WrittenParts::new(alloc)),
        }
    }

    /// Adds the part of a field, which is above those written before.
    pub fn write(&mut self, field: Field, bytes: &[u8]) -> Result<(), CommonError>
        requires ascends { IfSome self.old (λ ps. low_after 0 ps ≤ field) }
        requires limit { field < 2 ^ 32 - 1 }
        ensures ok { OnOk result (HasGrown self.old self.new (λ ps. ps ++ (field, bytes.now) ∷ [])) }
        ensures err { IfErr result (λ e. (e ≡ CommonError.OutOfMemory) × (self.new ≡ None)) }
    {
        let Some(parts) = &mut self.parts else {
            return Err(CommonError::OutOfMemory);
        };
        if parts.write(field.field_id(), bytes).is_ok() {
            return Ok(());
        }
        self.parts = None;
        Err(CommonError::OutOfMemory)
    }

    /// The bytes of the file.
    pub fn close(self) -> Result<Vec<u8>, CommonError>
        ensures ok { IfOk result (λ file. (composite file.items ≡ self) × (self ≢ None)) }
        ensures err { IfErr result (λ e. e ≡ CommonError.OutOfMemory) }
    {
        match self.parts {
            Some(parts) => Ok(parts.close()?),
            None => Err(CommonError::OutOfMemory),
        }
    }
}

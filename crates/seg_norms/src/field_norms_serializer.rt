//! The file of length ids.
ghost use Rattle.std.specs.Prelude.{◌≡◌, ◌≢◌, ◌≤◌, ◌<◌, ◌-◌, ◌^◌, [], ◌∷◌, ◌++◌, Some, None, IfOk, IfErr, IfSome, OnOk};
ghost use Rattle.seg_common.specs.WriterGrowth.{HasGrown};
ghost use Rattle.seg_directory.specs.CompositeFiles.{composite, low_after};

use seg_directory::CompositeWriter;
use seg_values::{Field, PostingsError};
use std::alloc::Global;
use std::marker::Model;

/// Writes the file of length ids: a composite file with one part for each field that has lengths, in which each
/// document has a byte. Once out of memory it answers so for good, and it is seen as nothing.
#[derive(Drop)]
pub struct FieldNormsSerializer {
    parts: CompositeWriter,
}

impl Model for FieldNormsSerializer {
    ghost use Rattle.std.specs.Prelude.{List, Option};
    ghost use Rattle.seg_directory.specs.CompositeFiles.{Part};

    ghost Value = { Option (List Part) };

    ghost view = { λ s. s.parts };
}

impl FieldNormsSerializer {
    pub fn new(alloc: Global) -> FieldNormsSerializer
        ensures { result ≡ Some [] }
    {
        FieldNormsSerializer {
            parts: CompositeWriter::new(alloc),
        }
    }

    /// Adds the ids of a field, which is above those added before.
    pub fn serialize_field(&mut self, field: Field, ids: &[u8]) -> Result<(), PostingsError>
        requires ascends { IfSome self.old (λ ps. low_after 0 ps ≤ field) }
        requires limit { field < 2 ^ 32 - 1 }
        ensures ok { OnOk result (HasGrown self.old self.new (λ ps. ps ++ (field, ids.now) ∷ [])) }
        ensures err { IfErr result (λ e. (e ≡ PostingsError.OutOfMemory) × (self.new ≡ None)) }
    {
        match self.parts.write(field, ids) {
            Ok(()) => Ok(()),
            Err(_) => Err(PostingsError::OutOfMemory),
        }
    }

    /// The bytes of the file.
    pub fn close(self) -> Result<Vec<u8>, PostingsError>
        ensures ok { IfOk result (λ file. (composite file.items ≡ self) × (self ≢ None)) }
        ensures err { IfErr result (λ e. e ≡ PostingsError.OutOfMemory) }
    {
        match self.parts.close() {
            Ok(file) => Ok(file),
            Err(_) => Err(PostingsError::OutOfMemory),
        }
    }
}

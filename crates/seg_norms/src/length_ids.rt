//! The length ids of one field.
ghost use Rattle.std.specs.Prelude.{◌≡◌, [], OnOk};
ghost use Rattle.seg_norms.specs.FieldNorms.{filled, with_length};

use crate::field_norm_id::fieldnorm_to_id;
use std::alloc::{AllocError, Global};
use std::marker::Model;

/// The ids of the lengths of one field, a byte a document.
#[derive(Drop)]
pub(crate) struct LengthIds {
    ids: Vec<u8>,
}

impl Model for LengthIds {
    ghost use Rattle.std.specs.Prelude.{ℕ, List};

    ghost Value = { List ℕ };

    ghost view = { λ a. a.ids.items };
}

impl LengthIds {
    pub(crate) fn new(alloc: Global) -> LengthIds
        ensures { result ≡ [] }
    {
        LengthIds {
            ids: Vec::new(alloc),
        }
    }

    pub(crate) fn as_slice(&self) -> &[u8]
        ensures { result.now ≡ self.now }
    {
        &self.ids
    }

    /// Adds a 0 for each document that lacks.
    pub(crate) fn fill(&mut self, documents: u32) -> Result<(), AllocError>
        ensures { OnOk result (self.new ≡ filled documents self.old) }
    {
        let lacking = (documents as usize).saturating_sub(self.ids.len());
        for _ in 0..lacking {
            self.ids.push(0)?;
        }
        Ok(())
    }

    pub(crate) fn record(&mut self, document: u32, length: u32) -> Result<(), AllocError>
        ensures { OnOk result (self.new ≡ with_length document length self.old) }
    {
        self.fill(document)?;
        self.ids.push(fieldnorm_to_id(length))?;
        Ok(())
    }
}

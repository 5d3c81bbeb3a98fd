//! Documents of which each field has one value: maps, in the order of their fields.
ghost use Rattle.std.specs.Prelude.{map};
ghost use Rattle.seg_values.specs.ValueTrees.{entry_pair};

use crate::document_trait::Document;
use crate::pairs::Pairs;
use crate::schema::Field;
use crate::value::OwnedValue;
use std::alloc::{AllocError, Global};
use std::collections::BTreeMap;

impl Document for BTreeMap<Field, OwnedValue> {
    ghost pairs_of = { λ m. map entry_pair m.entries };

    fn len(&self) -> usize {
        self.len()
    }

    fn pair(&self, at: usize) -> (Field, &OwnedValue) {
        match self.iter().nth(at) {
            Some((field, value)) => (*field, value),
            None => unreachable!(),
        }
    }

    fn pairs(&self, alloc: Global) -> Result<Pairs<'_>, AllocError> {
        let mut pairs = Pairs::with_capacity(alloc, self.len())?;
        for (field, value) in self {
            pairs.push(*field, value)?;
        }
        Ok(pairs)
    }
}

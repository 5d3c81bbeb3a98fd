//! Values that came, by their numbers, and the distinct terms of those that have one.
ghost use Rattle.std.specs.Prelude.{◌≡◌, [], ◌∷◌, ◌++◌, OnOk, OnErr};
ghost use Rattle.seg_column_writer.specs.SoundColumns.{IsAdded, IsKept};

use crate::row_value::RowValue;
use seg_column_format::TermTable;
use std::alloc::{AllocError, Global};

/// The values in the order in which they came. A term's number is its place, in the order of first values.
#[derive(Drop)]
pub(crate) struct KnownValues {
    pub values: Vec<RowValue>,
    pub terms: TermTable,
}

impl KnownValues {
    pub fn new(alloc: Global) -> KnownValues
        ensures values { result.values.items ≡ [] }
        ensures terms { result.terms ≡ [] }
    {
        KnownValues {
            values: Vec::new(alloc),
            terms: TermTable::new(alloc),
        }
    }

    pub fn add(&mut self, value: RowValue) -> Result<(), AllocError>
        ensures ok { OnOk result ((self.new.terms ≡ self.old.terms)
            × (self.new.values.items ≡ self.old.values.items ++ value ∷ [])) }
        ensures err { OnErr result (IsKept self.old self.new) }
    {
        self.values.push(value)?;
        Ok(())
    }

    /// Adds a value by its term.
    pub fn add_term(&mut self, alloc: Global, row: u32, term: &[u8]) -> Result<(), AllocError>
        ensures ok { OnOk result (IsAdded row term.now self.old self.new) }
        ensures err { OnErr result (IsKept self.old self.new) }
    {
        self.values.reserve(1)?;
        let number = self.terms.add(alloc, term)?;
        self.values.push(RowValue::of_number(row, number))?;
        Ok(())
    }
}

//! What is written for the numbers of a column.
ghost use Rattle.std.specs.Prelude.{◌≡◌};
ghost use Rattle.seg_column_merge_parts.specs.SourceRows.{CanMap, mapped};

use seg_common::MonotonicallyMappableToU64;

/// What is written for the numbers that stand for the values of a file's column.
#[derive(Drop)]
pub enum NumberMap {
    /// They themselves.
    Same,
    /// Those of the same values in an I64 column, of a U64 column's.
    Raised,
    /// Those of the same values in a U64 column, of an I64 column's.
    Lowered,
    /// Ordinals of another dictionary, by their own.
    Ordinals(Vec<u64>),
}

impl NumberMap {
    pub fn of(&self, number: u64) -> u64
        requires { CanMap self.now number }
        ensures { result ≡ mapped self.now number }
    {
        match self {
            NumberMap::Same => number,
            NumberMap::Raised => (number as i64).to_u64(),
            NumberMap::Lowered => i64::from_u64(number) as u64,
            NumberMap::Ordinals(ordinals) => ordinals[number as usize],
        }
    }
}

//! The types of term dictionaries.
ghost use Rattle.seg_termdict.specs.DictionaryTypes.{NamesType};

use crate::error::TermDictError;

/// A form of term dictionaries, by the number that its bytes end with. The list, which is the form that is written so
/// far, is neither.
#[derive(Clone, Copy, Debug, PartialEq, Eq)]
pub enum DictionaryType {
    /// A transducer.
    Fst,
    /// Blocks of terms.
    SSTable,
}

/// By its number, 1 or 2. Every other is answered by `WrongType`.
impl TryFrom<u32> for DictionaryType {
    type Error = TermDictError;

    ghost try_from_gives = { NamesType };

    fn try_from(number: u32) -> Result<DictionaryType, TermDictError> {
        match number {
            1 => Ok(DictionaryType::Fst),
            2 => Ok(DictionaryType::SSTable),
            _ => Err(TermDictError::WrongType),
        }
    }
}

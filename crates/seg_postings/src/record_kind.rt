//! What postings keep of each document.
ghost use Rattle.std.specs.Prelude.{◌≡◌};
ghost use Rattle.seg_postings.specs.RecordKinds as kinds;

use seg_values::IndexOption;

/// What the postings of a term keep of each document in which it occurs.
#[derive(Clone, Copy, Debug, PartialEq, Eq)]
pub enum RecordKind {
    /// The document alone.
    Documents,
    /// Also how often the term occurs in it.
    Counts,
    /// Also at which positions.
    Positions,
}

impl RecordKind {
    /// The kind that keeps what an option says. A field that isn't indexed has no terms, and any kind would do.
    pub fn of_option(option: IndexOption) -> RecordKind
        ensures { result ≡ kinds.kind_of option }
    {
        match option {
            IndexOption::No | IndexOption::Basic => RecordKind::Documents,
            IndexOption::Freqs => RecordKind::Counts,
            IndexOption::Positions => RecordKind::Positions,
        }
    }

    /// The byte with which the postings of a term begin.
    pub(crate) fn byte(self) -> u8
        ensures { result ≡ kinds.kind_byte self }
    {
        match self {
            RecordKind::Documents => 0,
            RecordKind::Counts => 1,
            RecordKind::Positions => 2,
        }
    }
}

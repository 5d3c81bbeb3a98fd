//! What becomes of damaged bytes, counted.

use std::fmt;

/// What becomes of damaged bytes.
#[derive(Clone, Copy)]
pub(crate) enum Outcome {
    Refused,
    /// They are read by themselves, and a file that is read after them is refused.
    Disagreeing,
    Read,
}

impl Outcome {
    pub(crate) fn of(is_read: bool) -> Outcome {
        if is_read {
            Outcome::Read
        } else {
            Outcome::Refused
        }
    }
}

/// How many bytes came to each outcome.
#[derive(Clone, Copy, Default)]
pub(crate) struct Tally {
    refused: u64,
    disagreeing: u64,
    read: u64,
}

impl Tally {
    pub(crate) fn count(&mut self, outcome: Outcome) {
        let number = match outcome {
            Outcome::Refused => &mut self.refused,
            Outcome::Disagreeing => &mut self.disagreeing,
            Outcome::Read => &mut self.read,
        };
        *number = number.saturating_add(1);
    }
}

impl fmt::Display for Tally {
    fn fmt<W: fmt::Write>(&self, f: &mut fmt::Formatter<W>) -> fmt::Result {
        write!(f, "{} refused, {} read", self.refused, self.read)?;
        if self.disagreeing > 0 {
            write!(f, ", {} told of a later file", self.disagreeing)?;
        }
        Ok(())
    }
}

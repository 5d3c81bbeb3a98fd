//! How finely moments are told.
ghost use Rattle.std.specs.Prelude.{◌≡◌, pos};

/// The unit that moments are cut to.
#[derive(Clone, Copy, Debug, PartialEq, Eq)]
pub enum DateTimePrecision {
    Seconds,
    Milliseconds,
    Microseconds,
    Nanoseconds,
}

impl DateTimePrecision {
    ghost use Rattle.seg_common.specs.DateUnits.{precision_unit};

    pub(crate) fn unit(self) -> i64
        ensures { result ≡ pos (precision_unit self) }
    {
        match self {
            DateTimePrecision::Seconds => 1_000_000_000,
            DateTimePrecision::Milliseconds => 1_000_000,
            DateTimePrecision::Microseconds => 1_000,
            DateTimePrecision::Nanoseconds => 1,
        }
    }
}

//! Moments as unsigned numbers, in their order.
ghost use Rattle.std.specs.Prelude.{true, FitsSigned};
ghost use Rattle.std.specs.Int.{w64};
ghost use Rattle.std.proofs.Common.{rules};
ghost use Rattle.seg_common.specs.MappableValues.{raised, lowered};
ghost use Rattle.seg_common.specs.MappableLaws.{lowered-raised, raised-in_order};

use crate::MonotonicallyMappableToU64;
use crate::date::DateTime;

impl MonotonicallyMappableToU64 for DateTime {
    ghost fits = { FitsSigned w64 };

    ghost number = { raised };

    ghost is_image = { λ _. true };

    ghost value_of = { lowered };

    ghost is_read_back = { lowered-raised };

    ghost gives_image = { Prim.search rules };

    ghost keeps_order = { raised-in_order };

    fn to_u64(self) -> u64 {
        self.into_timestamp_nanos().to_u64()
    }

    fn is_image(_value: u64) -> bool {
        true
    }

    fn from_u64(value: u64) -> DateTime {
        DateTime::from_timestamp_nanos(i64::from_u64(value))
    }
}

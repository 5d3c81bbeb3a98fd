//! Numbers are within their types.
ghost use Rattle.std.specs.Prelude.{◌<◌, ◌^◌};

pub(crate) fn has_32_bits(_number: u32)
    ensures { _number < 2 ^ 32 }
{}

pub(crate) fn has_64_bits(_number: u64)
    ensures { _number < 2 ^ 64 }
{}

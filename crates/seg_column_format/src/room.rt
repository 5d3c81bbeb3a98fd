//! Numbers of bytes that are known before they are written.
ghost use Rattle.std.specs.Prelude.{◌≡◌, ◌+◌, IfOk};

use std::alloc::AllocError;

/// Both together; more bytes than there can be count as out of memory.
pub fn sum(first: usize, second: usize) -> Result<usize, AllocError>
    ensures { IfOk result (λ sum. sum ≡ first + second) }
{
    match first.checked_add(second) {
        Some(sum) => Ok(sum),
        None => Err(AllocError),
    }
}

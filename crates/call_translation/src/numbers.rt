//! Numbers of symbols and of auxiliary variables.
ghost use Rattle.std.specs.Prelude.{◌≡◌, ◌+◌, IfOk};

use std::alloc::AllocError as Memory;

/// A number plus 1. Err also where that is 2^32.
pub fn next_number(number: u32) -> Result<u32, Memory>
    ensures { IfOk result (λ next. next ≡ number + 1) }
{
    number.checked_add(1).ok_or(Memory)
}

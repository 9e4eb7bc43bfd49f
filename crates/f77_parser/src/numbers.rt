//! Numbers of statements, and places in lists.
ghost use Rattle.std.specs.Prelude.{◌≡◌, ◌+◌, IfOk};

use std::alloc::AllocError as Memory;

/// The number after a number; Err at 2^32 - 1, which so many statements never reach.
pub fn next(number: u32) -> Result<u32, Memory>
    ensures { IfOk result (λ n. n ≡ number + 1) }
{
    if number == u32::MAX {
        return Err(Memory);
    }
    Ok(number + 1)
}

/// A place in a list in 32 bits; Err from 2^32 - 1 on, for which no list is long enough.
pub fn place_of(place: usize) -> Result<u32, Memory>
    ensures { IfOk result (λ n. n ≡ place) }
{
    if u32::MAX as usize <= place {
        return Err(Memory);
    }
    Ok(place as u32)
}

/// The sum; Err where it passes 2^32 - 1, to which so many statements never come.
pub fn sum(a: u32, b: u32) -> Result<u32, Memory>
    ensures { IfOk result (λ n. n ≡ a + b) }
{
    a.checked_add(b).ok_or(Memory)
}

//! Numbers that fit their types. Where one does not, as for 2^63 units, the result is Err, as for lack of memory.
ghost use Rattle.std.specs.Prelude.{◌≡◌, ◌+◌, ◌*◌, pos, IfOk};
ghost use Rattle.f77_ast.specs.Places.{as_count};

use std::alloc::AllocError as Memory;

/// The number in 32 bits; Err from 2^32 on.
pub fn as_number(n: usize) -> Result<u32, Memory>
    ensures { IfOk result (λ m. m ≡ n) }
{
    match u32::try_from(n) {
        Err(_) => Err(Memory),
        Ok(n) => Ok(n),
    }
}

/// The number as an offset with a sign; Err from 2^63 on.
pub fn as_offset(n: u64) -> Result<i64, Memory>
    ensures { IfOk result (λ m. m ≡ pos n) }
{
    match i64::try_from(n) {
        Err(_) => Err(Memory),
        Ok(n) => Ok(n),
    }
}

/// The sum; Err from 2^64 on.
pub fn sum(m: u64, n: u64) -> Result<u64, Memory>
    ensures { IfOk result (λ s. s ≡ m + n) }
{
    match m.checked_add(n) {
        None => Err(Memory),
        Some(s) => Ok(s),
    }
}

/// The product; Err from 2^64 on.
pub fn product(m: u64, n: u64) -> Result<u64, Memory>
    ensures { IfOk result (λ p. p ≡ m * n) }
{
    match m.checked_mul(n) {
        None => Err(Memory),
        Some(p) => Ok(p),
    }
}

/// The number itself, or 0 where it is negative.
pub fn as_count(n: i64) -> u64
    ensures { result ≡ as_count n }
{
    if n < 0 { 0 } else { n.unsigned_abs() }
}

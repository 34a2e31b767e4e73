// Counts and numbers of 32 and 64 bits. Past them there is no number for the next: that counts as want of memory.
ghost use Rattle.std.specs.Prelude.{◌≡◌, ◌+◌, ◌<◌, ◌^◌, IfOk, OnOk};

use crate::why::NoMemory;
use std::alloc::AllocError;

/// The most that is counted: of the units of a run, and of the elements that a blueprint may give as the number of a segment or
/// of those before an order.
pub const MOST_COUNT: u32 = 4_000_000_000;

/// One more than a count; past 64 bits that is want of memory.
pub fn one_more(count: u64) -> Result<u64, NoMemory>
    ensures { IfOk result (λ n. n ≡ count + 1) }
{
    match count.checked_add(1) {
        Some(more) => Ok(more),
        None => Err(AllocError),
    }
}

/// One more than a count of 32 bits; past these that is want of memory.
pub fn one_more_small(count: u32) -> Result<u32, NoMemory>
    ensures { IfOk result (λ n. n ≡ count + 1) }
{
    match count.checked_add(1) {
        Some(more) => Ok(more),
        None => Err(AllocError),
    }
}

/// A place in a list as its number; one that is out of 32 bits is want of memory.
pub fn numbered(place: usize) -> Result<u32, NoMemory>
    ensures number { IfOk result (λ n. n ≡ place) }
    ensures few { OnOk result (place < 2 ^ 32) }
{
    match u32::try_from(place) {
        Ok(number) => Ok(number),
        Err(_) => Err(AllocError),
    }
}

//! Parts behind one another, and in boxes. What they are is open here, so nothing has to be known of how they are dropped: a part waits
//! here for the next one, so that no function drops it where the next one is refused.
#![tactic(auto)]

ghost use Rattle.std.specs.Prelude.{◌≡◌, Ok, Err, IfOk, MatchResult};

use dm_stream::{Error, Made, Read};
use std::alloc::{AllocError, Global};

/// A part, and the one that was read behind it.
pub fn joined<T: Drop, U: Drop>(first: T, second: Result<U, Error>) -> Read<(T, U)>
    ensures { MatchResult result (λ r. (second ≡ Ok r.1) × (r.0 ≡ first)) (λ e. second ≡ Err e) }
{
    match second {
        Ok(second) => Ok((first, second)),
        Err(error) => Err(error),
    }
}

/// A part, and the end of what it was read from.
pub fn ended<T: Drop>(first: T, end: Result<(), Error>) -> Read<T>
    ensures { MatchResult result (λ r. (end ≡ Ok tt) × (r ≡ first)) (λ e. end ≡ Err e) }
{
    match end {
        Ok(_) => Ok(first),
        Err(error) => Err(error),
    }
}

/// A part in a box.
pub fn boxed<T: Drop>(alloc: Global, part: T) -> Made<Box<T>>
    ensures { IfOk result (λ b. b.value ≡ part) }
{
    Ok(Box::new(alloc, part)?)
}

/// A part that was made, and one that waited for it.
pub fn beside<T: Drop, U: Drop>(made: Result<T, AllocError>, other: U) -> Made<(T, U)>
    ensures { MatchResult result (λ r. (made ≡ Ok r.0) × (r.1 ≡ other)) (λ e. made ≡ Err e) }
{
    match made {
        Ok(part) => Ok((part, other)),
        Err(error) => Err(error),
    }
}

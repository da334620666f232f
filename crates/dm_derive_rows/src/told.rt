//! What a row is answered with as text.

ghost use Rattle.std.specs.Prelude.{IfOk, string_bytes};
ghost use Rattle.dm_derive_rows.specs.Told.{Tells};

use dm_stream::{Error, Made};
use std::alloc::{AllocError, Global};

/// An answer as text: what was derived, or the line of the refusal.
pub fn told(alloc: Global, answer: Result<String, Error>) -> Made<String>
    ensures { IfOk result (λ s. Tells answer (string_bytes s)) }
{
    match answer {
        Ok(text) => Ok(text),
        Err(Error::Refused(refusal)) => format!(in alloc; "{refusal}\n"),
        Err(Error::NoMemory) => Err(AllocError),
    }
}

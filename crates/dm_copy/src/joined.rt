//! Parts that were made one by one, put together once all of them are there.

ghost use Rattle.std.specs.Prelude.{◌≡◌, [], ◌∷◌, ◌++◌, Ok, IfOk};

use dm_stream::Seq;
use std::alloc::{AllocError, Global};

/// Both values, or the error of one.
pub fn both<T: Drop, U: Drop>(
    first: Result<T, AllocError>,
    second: Result<U, AllocError>,
) -> Result<(T, U), AllocError>
    ensures { IfOk result (λ r. (first ≡ Ok r.0) × (second ≡ Ok r.1)) }
{
    match first {
        Ok(first) => match second {
            Ok(second) => Ok((first, second)),
            Err(error) => Err(error),
        },
        Err(error) => Err(error),
    }
}

/// The value in a box.
pub fn boxed<T: Drop>(alloc: Global, made: Result<T, AllocError>) -> Result<Box<T>, AllocError>
    ensures { IfOk result (λ r. made ≡ Ok r.value) }
{
    match made {
        Ok(value) => Ok(Box::new(alloc, value)?),
        Err(error) => Err(error),
    }
}

/// The list with the value behind it.
pub fn grown<T: Drop>(list: Seq<T>, made: Result<T, AllocError>) -> Result<Seq<T>, AllocError>
    ensures { IfOk result (λ r. ((t : T) × (made ≡ Ok t) × (r ≡ list ++ t ∷ []))) }
{
    let mut list = list;
    match made {
        Ok(value) => {
            list.add(value)?;
            Ok(list)
        }
        Err(error) => Err(error),
    }
}

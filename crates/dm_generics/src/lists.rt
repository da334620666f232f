//! Lists of one and two items, and lists that grow.

ghost use Rattle.std.specs.Prelude.{◌≡◌, [], ◌∷◌, ◌++◌, IfOk, IsOkAnd};

use dm_copy::both;
use dm_stream::Seq;
use std::alloc::{AllocError, Global};

pub fn one<T: Drop>(alloc: Global, item: T) -> Result<Seq<T>, AllocError>
    ensures { IfOk result (λ it. it ≡ item ∷ []) }
{
    let mut out = Seq::new(alloc);
    out.add(item)?;
    Ok(out)
}

pub fn two<T: Drop>(alloc: Global, first: T, second: T) -> Result<Seq<T>, AllocError>
    ensures { IfOk result (λ it. it ≡ first ∷ second ∷ []) }
{
    let mut out = Seq::with_capacity(alloc, 2)?;
    out.add(first)?;
    out.add(second)?;
    Ok(out)
}

/// The list of an item that was made. What it is is open here, so nothing has to be known of how it is dropped.
pub fn one_of<T: Drop>(alloc: Global, made: Result<T, AllocError>) -> Result<Seq<T>, AllocError>
    ensures { IfOk result (λ it. IsOkAnd made (λ t. it ≡ t ∷ [])) }
{
    match made {
        Ok(item) => one(alloc, item),
        Err(error) => Err(error),
    }
}

/// The list of two items that were made.
pub fn two_of<T: Drop>(
    alloc: Global,
    first: Result<T, AllocError>,
    second: Result<T, AllocError>,
) -> Result<Seq<T>, AllocError>
    ensures { IfOk result (λ it. IsOkAnd first (λ t. IsOkAnd second (λ u. it ≡ t ∷ u ∷ []))) }
{
    match both(first, second) {
        Ok((first, second)) => two(alloc, first, second),
        Err(error) => Err(error),
    }
}

/// The list with an item behind it.
pub fn appended<T: Drop>(list: Seq<T>, item: T) -> Result<Seq<T>, AllocError>
    ensures { IfOk result (λ it. it ≡ list ++ item ∷ []) }
{
    let mut list = list;
    list.add(item)?;
    Ok(list)
}

/// The list with the items of another behind it.
pub fn joined<T: Drop>(list: Seq<T>, other: Seq<T>) -> Result<Seq<T>, AllocError>
    ensures { IfOk result (λ it. it ≡ list ++ other) }
{
    let mut list = list;
    list.append(other)?;
    Ok(list)
}

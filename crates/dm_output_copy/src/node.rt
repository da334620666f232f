//! What copies of parts make. What the parts are is open here, so nothing has to be known of how they are dropped.

ghost use Rattle.std.specs.Prelude.{◌≡◌, [], ◌∷◌, ◌++◌, Ok, IfOk, IsOkAnd};

use dm_copy::both;
use dm_gather::{Gathers, Node};
use dm_stream::Made;
use std::alloc::Global;

/// What `make` makes of a part.
pub(crate) fn made<T: Drop, N: Drop, F: FnOnce(Global, T) -> Made<N>>(
    alloc: Global,
    part: Made<T>,
    make: F,
) -> Made<N>
    requires { F.IsAlwaysCallable make }
    ensures { IfOk result (λ r. IsOkAnd part (λ t. F.post make alloc t (Ok r))) }
{
    match part {
        Ok(part) => make(alloc, part),
        Err(error) => Err(error),
    }
}

/// What `make` makes of two parts.
pub(crate) fn made_of_two<T: Drop, U: Drop, N: Drop, F: FnOnce(Global, T, U) -> Made<N>>(
    alloc: Global,
    first: Made<T>,
    second: Made<U>,
    make: F,
) -> Made<N>
    requires { F.IsAlwaysCallable make }
    ensures { IfOk result (λ r. IsOkAnd first (λ t. IsOkAnd second (λ u. F.post make alloc t u (Ok r)))) }
{
    match both(first, second) {
        Ok((first, second)) => make(alloc, first, second),
        Err(error) => Err(error),
    }
}

/// What `make` makes of three parts.
pub(crate) fn made_of_three<
    T: Drop,
    U: Drop,
    V: Drop,
    N: Drop,
    F: FnOnce(Global, T, U, V) -> Made<N>,
>(alloc: Global, first: Made<T>, second: Made<U>, third: Made<V>, make: F) -> Made<N>
    requires { F.IsAlwaysCallable make }
    ensures { IfOk result (λ r. IsOkAnd first (λ t. IsOkAnd second (λ u. IsOkAnd third (λ v. F.post make alloc t u v (Ok r))))) }
{
    match both(both(first, second), third) {
        Ok(((first, second), third)) => make(alloc, first, second, third),
        Err(error) => Err(error),
    }
}

/// The parts with this one behind them.
pub(crate) fn with_part<T: Drop, L: Gathers<T>>(parts: L, part: Made<T>) -> Made<L>
    ensures { IfOk result (λ r. IsOkAnd part (λ t. L.parts r ≡ L.parts parts ++ t ∷ [])) }
{
    let mut parts = parts;
    match part {
        Ok(part) => {
            parts.gather(part)?;
            Ok(parts)
        }
        Err(error) => Err(error),
    }
}

/// The tree of a node.
pub(crate) fn tree_of<T: Drop>(node: Made<Node<T>>) -> Made<T>
    ensures { IfOk result (λ t. node ≡ Ok t) }
{
    match node {
        Ok(node) => Ok(node.into_tree()),
        Err(error) => Err(error),
    }
}

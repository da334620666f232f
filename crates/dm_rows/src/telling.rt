//! What is told of what was read.
//!
//! No other function owns a tree: its type is open in these, so that dropping it is cheap to prove.

ghost use Rattle.std.specs.Prelude.{IfOk};
ghost use Rattle.dm_stream.specs.Cursors.{sound, SharesEnd};

use dm_layout::print;
use dm_quote::ToTokens;
use dm_stream::{Cursor, Error, Read, TokenStream};
use std::alloc::{AllocError, Global};

/// A way to tell of a value.
pub trait Tells<T> {
    fn tell(value: &T, alloc: Global, way: &Self) -> Result<String, Error>;
}

/// The layout of a value's tokens.
pub fn printed<'a, T: ToTokens<'a>>(value: &T, alloc: Global) -> Read<String>
    requires { T.stands value.now }
{
    let mut out = TokenStream::new(alloc);
    value.to_tokens(&mut out)?;
    Ok(print(alloc, &out)?)
}

/// What is told of what was read, or its refusal.
pub fn told<T: Drop, W: Tells<T>>(read: Result<T, Error>, alloc: Global, way: &W) -> Read<String> {
    match read {
        Ok(value) => W::tell(&value, alloc, way),
        Err(error) => Err(error),
    }
}

/// What is told of what was made.
pub fn made<T: Drop, W: Tells<T>>(
    made: Result<T, AllocError>,
    alloc: Global,
    way: &W,
) -> Read<String> {
    match made {
        Ok(value) => W::tell(&value, alloc, way),
        Err(AllocError) => Err(Error::NoMemory),
    }
}

/// What is told of what was read. What is left behind it isn't told.
pub fn told_alone<T: Drop, U: Drop, W: Tells<T>>(
    read: Result<(T, U), Error>,
    alloc: Global,
    way: &W,
) -> Read<String> {
    match read {
        Ok((value, _)) => W::tell(&value, alloc, way),
        Err(error) => Err(error),
    }
}

/// What is told of what was read, and what is left behind it.
pub fn told_front<'t, 'a, T: Drop, W: Tells<T>>(
    c: Cursor<'t, 'a>,
    read: Result<(T, Cursor<'t, 'a>), Error>,
    alloc: Global,
    way: &W,
) -> Read<String>
    requires { IfOk read (λ r. SharesEnd c r.1) }
{
    match read {
        Ok((value, rest)) => with_left(W::tell(&value, alloc, way), rest, alloc),
        Err(error) => Err(error),
    }
}

/// With a line of what is left, where that is something.
fn with_left(told: Result<String, Error>, rest: Cursor<'_, '_>, alloc: Global) -> Read<String>
    requires { sound rest }
{
    let text = told?;
    let left = TokenStream::from_cursor(alloc, rest)?;
    let left = print(alloc, &left)?;
    if left.as_str().is_empty() {
        return Ok(text);
    }
    let text = text.as_str();
    let left = left.as_str();
    Ok(format!(in alloc; "{text}\nleaves {left}")?)
}

/// Nothing but that it was read, or its refusal.
pub fn only_read<T: Drop>(read: Result<T, Error>) -> Read<()> {
    match read {
        Ok(_) => Ok(()),
        Err(error) => Err(error),
    }
}

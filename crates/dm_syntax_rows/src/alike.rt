//! Whether two types are spelled alike.

use dm_syntax::{Ty, parse_type, type_eq};
use dm_tokens::{Error, TokenStream, lex};
use std::alloc::Global;

/// A way to compare two values.
trait Compares<T> {
    /// Whether the one is as the other, and the other as the one.
    fn compare(one: &T, other: &T, way: &Self) -> (bool, bool);
}

/// Whether types are spelled alike.
struct Spelling;

impl<'a> Compares<Ty<'a>> for Spelling {
    fn compare(one: &Ty<'a>, other: &Ty<'a>, _way: &Self) -> (bool, bool) {
        (type_eq(one, other), type_eq(other, one))
    }
}

/// How two values that were read compare. They are owned here alone, where their types are open.
fn compared<T: Drop, U: Drop, V: Drop, C: Compares<T>>(
    one: Result<(T, U), Error>,
    other: Result<(T, V), Error>,
    way: &C,
) -> Result<(bool, bool), Error> {
    match one {
        Ok((one, _)) => match other {
            Ok((other, _)) => Ok(C::compare(&one, &other, way)),
            Err(error) => Err(error),
        },
        Err(error) => Err(error),
    }
}

fn compared_types<'t, 'a>(
    one: &'t TokenStream<'a>,
    other: &'t TokenStream<'a>,
    alloc: Global,
) -> Result<(bool, bool), Error> {
    let one = parse_type(alloc, one.cursor());
    compared(one, parse_type(alloc, other.cursor()), &Spelling)
}

fn compared_texts<'a>(alloc: Global, one: &'a str, other: &'a str) -> Result<(bool, bool), Error> {
    let one = lex(alloc, one)?;
    let other = lex(alloc, other)?;
    compared_types(&one, &other, alloc)
}

fn told(ways: (bool, bool)) -> &'static str {
    match ways {
        (true, true) => "alike",
        (false, false) => "not alike",
        _ => "alike from one side",
    }
}

/// Whether the types of two texts, with `~` between them, are spelled alike.
pub(crate) fn are_alike(alloc: Global, text: &str) -> Result<String, Error> {
    match text.split_once(" ~ ") {
        Some((one, other)) => {
            let ways = compared_texts(alloc, one, other)?;
            Ok(String::from_str(alloc, told(ways))?)
        }
        None => Ok(String::from_str(alloc, "only one text")?),
    }
}

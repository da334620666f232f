//! One of two sides.

ghost use Rattle.dm_stream.specs.Cursors.{sound};

use crate::words::line;
use dm_attr::Either;
use dm_rows::printed;
use dm_stream::{Cursor, Ident, Made, Punct, Read, TokenStream};
use std::alloc::Global;
use std::{ops, option};

/// A number, or the numbers of a range `FROM..UPTO`.
type Numbers = Either<option::IntoIter<u8>, ops::Range<u8>>;

/// The numbers of a range.
fn range(from: &str, upto: &str) -> Option<Numbers> {
    let from = from.parse::<u8>().ok()?;
    let upto = upto.parse::<u8>().ok()?;
    Some(Either::Right(from..upto))
}

/// The numbers of a text. One that is no number has none, and one that is no range gives nothing.
fn numbers(text: &str) -> Option<Numbers> {
    match text.split_once("..") {
        Some((from, upto)) => range(from, upto),
        None => Some(Either::Left(text.parse::<u8>().ok().into_iter())),
    }
}

/// Adds each of them behind a blank.
fn add_items(out: &mut String, numbers: Numbers) -> Made<()> {
    for number in numbers {
        write!(out, " {number}")?;
    }
    Ok(())
}

/// The items of the side that a text is.
pub(crate) fn items(alloc: Global, text: &str) -> Read<String> {
    let mut out = String::from_str(alloc, "items")?;
    match numbers(text) {
        Some(numbers) => {
            add_items(&mut out, numbers)?;
            Ok(out)
        }
        None => line(alloc, "no numbers"),
    }
}

/// The tokens of the side that stands at a place: a punct, or an identifier.
fn side_at<'a>(c: Cursor<'_, 'a>, alloc: Global) -> Read<String>
    requires { sound c }
{
    if let Some((ident, _)) = c.ident() {
        let right: Either<Punct, Ident<'a>> = Either::Right(ident.clone_in(alloc)?);
        return printed(&right, alloc);
    }
    match c.punct() {
        Some((punct, _)) => {
            let left: Either<Punct, Ident<'a>> = Either::Left(*punct);
            printed(&left, alloc)
        }
        None => line(alloc, "no side"),
    }
}

/// The tokens of the side that tokens begin with.
pub(crate) fn side(stream: &TokenStream<'_>, alloc: Global) -> Read<String> {
    side_at(stream.cursor(), alloc)
}

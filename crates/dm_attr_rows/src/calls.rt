//! What the heads of rows ask for.

use crate::contents::{Kind, of_contents};
use crate::numbers::of_number;
use crate::reading::{Asked, of_attributes};
use crate::sides::{items, side};
use dm_lexer::lex;
use dm_rows::{Answers, named, unknown};
use dm_stream::{Error, Read};
use std::alloc::Global;

/// What a row asks for.
#[derive(Clone, Copy)]
enum Call {
    /// This of the attributes that a text begins with, and what is left.
    Attributes(Asked),
    /// What a text is as contents of this kind.
    Contents(Kind),
    /// One more than a number, and a hundred times that with its range.
    Number,
    /// The items of a number or of a range, as of one of two iterators.
    Items,
    /// The tokens of a punct or of an identifier, as of one of two kinds of tokens.
    Side,
}

/// The heads.
const CALLS: &[(&str, Call)] = &[
    ("skip", Call::Attributes(Asked::Skip)),
    ("forward", Call::Attributes(Asked::Forward)),
    ("either", Call::Attributes(Asked::Either)),
    ("merged", Call::Attributes(Asked::Merged)),
    ("skipped", Call::Attributes(Asked::Skipped)),
    ("forwarded", Call::Attributes(Asked::Forwarded)),
    ("unskipped", Call::Attributes(Asked::Unskipped)),
    ("left out", Call::Attributes(Asked::LeftOut)),
    ("skip contents", Call::Contents(Kind::Skip)),
    ("forward contents", Call::Contents(Kind::Forward)),
    ("either contents", Call::Contents(Kind::Either)),
    ("number", Call::Number),
    ("items", Call::Items),
    ("side", Call::Side),
];

/// What is told of the attributes that a text begins with.
fn attributes(alloc: Global, text: &str, asked: Asked) -> Read<String> {
    let stream = lex(alloc, text)?;
    of_attributes(&stream, alloc, asked)
}

/// What is told of a text as contents.
fn contents(alloc: Global, text: &str, kind: Kind) -> Read<String> {
    let stream = lex(alloc, text)?;
    of_contents(&stream, alloc, kind)
}

/// The tokens of the side that a text begins with.
fn side_of(alloc: Global, text: &str) -> Read<String> {
    let stream = lex(alloc, text)?;
    side(&stream, alloc)
}

/// The rows of this program.
pub(crate) struct AttrRows;

impl Answers for AttrRows {
    fn answer(alloc: Global, head: &str, text: &str) -> Result<String, Error> {
        match named(CALLS, head) {
            None => unknown(alloc),
            Some(Call::Attributes(asked)) => attributes(alloc, text, asked),
            Some(Call::Contents(kind)) => contents(alloc, text, kind),
            Some(Call::Number) => of_number(alloc, text),
            Some(Call::Items) => items(alloc, text),
            Some(Call::Side) => side_of(alloc, text),
        }
    }
}

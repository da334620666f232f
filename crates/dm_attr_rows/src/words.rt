//! The words that attributes are read as.

use dm_attr::{Either, Forward, Skip, Spanning};
use dm_stream::{Error, Read, Span};
use std::alloc::Global;

/// A kind of attributes whose values are words.
pub(crate) trait Word {
    /// The word.
    fn word(&self) -> &'static str;
}

impl Word for Skip {
    fn word(&self) -> &'static str {
        self.name()
    }
}

impl Word for Forward {
    fn word(&self) -> &'static str {
        "forward"
    }
}

impl<L: Word, R: Word> Word for Either<L, R> {
    fn word(&self) -> &'static str {
        match self {
            Either::Left(left) => left.word(),
            Either::Right(right) => right.word(),
        }
    }
}

/// This text as an answer.
pub(crate) fn line(alloc: Global, text: &str) -> Read<String> {
    Ok(String::from_str(alloc, text)?)
}

/// A word and the range of its attribute.
fn placed_word(alloc: Global, word: Spanning<&'static str>) -> Read<String> {
    let Span { start, end } = word.span();
    let word = word.into_inner();
    Ok(format!(in alloc; "{word} at {start}..{end}")?)
}

/// The word that was found and its attribute's range, or `none`.
pub(crate) fn found_word<K: Word + Drop>(
    alloc: Global,
    found: Result<Option<Spanning<K>>, Error>,
) -> Read<String> {
    match found? {
        Some(found) => placed_word(alloc, found.as_ref().map(|kind| kind.word())),
        None => line(alloc, "none"),
    }
}

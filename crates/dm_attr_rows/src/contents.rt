//! What the contents of attributes are read as.

ghost use Rattle.dm_stream.specs.Cursors.{sound};

use crate::words::{Word, line};
use dm_attr::{Either, Forward, Parse, Skip};
use dm_rows::{Tells, told_front};
use dm_stream::{Cursor, Error, Read, TokenStream};
use std::alloc::Global;

/// A kind of contents.
#[derive(Clone, Copy)]
pub(crate) enum Kind {
    /// `skip` or `ignore`.
    Skip,
    /// `forward`.
    Forward,
    /// One of the two kinds.
    Either,
}

/// Tells a word.
struct ItsWord;

impl<K: Word> Tells<K> for ItsWord {
    fn tell(value: &K, alloc: Global, _way: &ItsWord) -> Result<String, Error> {
        line(alloc, value.word())
    }
}

/// The word that the trees at a place are, and what is left.
fn word_at<'a, K: Parse<'a> + Word + Drop>(c: Cursor<'_, 'a>, alloc: Global) -> Read<String>
    requires { sound c }
{
    told_front(c, K::parse(alloc, c), alloc, &ItsWord)
}

/// The word that tokens are as the contents of an attribute, and what is left.
pub(crate) fn of_contents(stream: &TokenStream<'_>, alloc: Global, kind: Kind) -> Read<String> {
    let c = stream.cursor();
    match kind {
        Kind::Skip => word_at::<Skip>(c, alloc),
        Kind::Forward => word_at::<Forward>(c, alloc),
        Kind::Either => word_at::<Either<Skip, Forward>>(c, alloc),
    }
}

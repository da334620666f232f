//! What the heads of rows ask for.

use crate::formats::{Asked, of_placeholders};
use crate::lexing::{comes_back, layout_of, only_read};
use crate::outlines::{outline, places};
use crate::units::{Taker, first_unit, takes, takes_opened};
use crate::values::{integer, string};
use dm_rows::{Answers, add_shown, named, unknown};
use dm_tokens::{Error, LitKind, Spacing};
use std::alloc::Global;

/// What a row asks for.
#[derive(Clone, Copy)]
enum Call {
    /// The outline of a text.
    Tokens,
    /// The entries of a text, with the places of delimiters.
    Places,
    /// Nothing but whether it is read.
    Reads,
    /// The layout of its trees.
    Layout,
    /// Whether its layout has its trees.
    ComesBack,
    /// The value of an integer.
    Integer,
    /// The value of a string, as a literal of this kind.
    Value(LitKind),
    /// The front that this takes.
    Takes(Taker),
    /// The first unit.
    Unit,
    /// Whether something is taken of so many `<` before a text.
    Opened(usize),
}

const CALLS: &[(&str, Call)] = &[
    ("tokens", Call::Tokens),
    ("places", Call::Places),
    ("reads", Call::Reads),
    ("layout", Call::Layout),
    ("back", Call::ComesBack),
    ("integer", Call::Integer),
    ("string", Call::Value(LitKind::Str)),
    ("raw string", Call::Value(LitKind::RawStr)),
    ("bytes", Call::Value(LitKind::ByteStr)),
    ("raw bytes", Call::Value(LitKind::RawByteStr)),
    ("c string", Call::Value(LitKind::CStr)),
    ("raw c string", Call::Value(LitKind::RawCStr)),
    ("char", Call::Value(LitKind::Char)),
    ("byte", Call::Value(LitKind::Byte)),
    ("integer as string", Call::Value(LitKind::Int)),
    ("run", Call::Takes(Taker::Run)),
    ("discriminant", Call::Takes(Taker::Discriminant)),
    ("angles", Call::Takes(Taker::Pair('<', '>'))),
    ("bars", Call::Takes(Taker::Pair('|', '|'))),
    ("angles inside out", Call::Takes(Taker::Pair('>', '<'))),
    ("path sep", Call::Takes(Taker::PathSep)),
    ("colon", Call::Takes(Taker::Punct(':'))),
    (
        "joint equals",
        Call::Takes(Taker::Spaced('=', Spacing::Joint)),
    ),
    (
        "lone equals",
        Call::Takes(Taker::Spaced('=', Spacing::Alone)),
    ),
    ("tree", Call::Takes(Taker::Tree)),
    ("unit", Call::Unit),
    ("run behind 200000 <", Call::Opened(200_000)),
];

/// Of these each answer is told line by line.
const FORMATS: &[(&str, Asked)] = &[
    ("format", Asked::Front),
    ("trait", Asked::Trait),
    ("format string", Asked::All),
    ("placeholders", Asked::Values),
];

fn answer_to(alloc: Global, call: Call, text: &str) -> Result<String, Error> {
    match call {
        Call::Tokens => outline(alloc, text),
        Call::Places => places(alloc, text),
        Call::Reads => only_read(alloc, text),
        Call::Layout => layout_of(alloc, text),
        Call::ComesBack => comes_back(alloc, text),
        Call::Integer => integer(alloc, text),
        Call::Value(kind) => string(alloc, kind, text),
        Call::Takes(taker) => takes(alloc, taker, text),
        Call::Unit => first_unit(alloc, text),
        Call::Opened(count) => takes_opened(alloc, count, text),
    }
}

/// With its control characters as rows spell them.
fn shown(alloc: Global, answer: &str) -> Result<String, Error> {
    let mut out = String::new(alloc);
    add_shown(&mut out, answer)?;
    Ok(out)
}

/// The rows of this program.
pub(crate) struct TokenRows;

impl Answers for TokenRows {
    fn answer(alloc: Global, head: &str, text: &str) -> Result<String, Error> {
        match named(CALLS, head) {
            Some(call) => {
                let answer = answer_to(alloc, call, text)?;
                shown(alloc, answer.as_str())
            }
            None => match named(FORMATS, head) {
                Some(asked) => of_placeholders(alloc, asked, text),
                None => unknown(alloc),
            },
        }
    }
}

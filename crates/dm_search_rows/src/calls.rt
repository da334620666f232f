//! What the heads of rows ask for.

use crate::generics::{Addition, added, numbered, taken_over};
use crate::parameters::{Search, counts};
use crate::patterns::patterns;
use crate::replaced::replaced;
use crate::texts::{of_type, word};
use crate::types::OfType;
use dm_rows::{Answers, named, unknown};
use dm_stream::{Error, Read};
use std::alloc::Global;

/// What a row asks for.
#[derive(Clone, Copy)]
enum Call {
    /// How many parameters of each kind a declaration has.
    Parameters,
    /// Of a declaration and a type, with `~` between them: whether this search for the one's parameters finds any in the other.
    Finds(Search),
    /// Of two types, with `~` between them: whether the first stands in the second.
    Holds,
    /// The type without one outer reference where `T` is used in it.
    Uses,
    /// What an `Option` wraps, and what any name does.
    Wraps,
    /// Whether a type fits so many fields.
    Fits(usize),
    /// A declaration with its own type in place of `Self`.
    Replaced,
    /// The patterns of a struct's fields: of all, and where these are skipped.
    Patterns(&'static [usize]),
    /// The generics of a declaration, with the addition behind the `~`.
    Adds(Addition),
    /// Which parameters an implementation takes over, and the type that it is for.
    TakenOver,
    /// So many names that begin so.
    Numbered(usize),
}

const CALLS: &[(&str, Call)] = &[
    ("parameters", Call::Parameters),
    ("mentions", Call::Finds(Search::Mentioned)),
    ("contains", Call::Finds(Search::Contained)),
    ("path contains", Call::Finds(Search::ContainedInPath)),
    ("stands in", Call::Holds),
    ("uses", Call::Uses),
    ("wraps", Call::Wraps),
    ("fits 0", Call::Fits(0)),
    ("fits 1", Call::Fits(1)),
    ("fits 2", Call::Fits(2)),
    ("replaced", Call::Replaced),
    ("patterns", Call::Patterns(&[])),
    ("patterns without 1", Call::Patterns(&[1])),
    ("patterns without 0 and 1", Call::Patterns(&[0, 1])),
    ("patterns without 2 and 0", Call::Patterns(&[2, 0])),
    ("with op output", Call::Adds(Addition::OpOutput)),
    ("with bound", Call::Adds(Addition::BoundOf)),
    ("with parameter", Call::Adds(Addition::Param)),
    ("with type parameter", Call::Adds(Addition::TypeParam)),
    ("with predicates", Call::Adds(Addition::Predicates)),
    ("taken over", Call::TakenOver),
    ("numbered 2", Call::Numbered(2)),
];

/// What is asked for of the text in front of the `~`, by the text behind it.
fn by_another<'a>(alloc: Global, call: Call, text: &'a str, other: &'a str) -> Read<String> {
    match call {
        Call::Finds(search) => of_type(alloc, other, &OfType::Finds(search, text)),
        Call::Holds => of_type(alloc, other, &OfType::Holds(text)),
        Call::Adds(addition) => added(alloc, text, addition, other),
        _ => unknown(alloc),
    }
}

fn of_two(alloc: Global, call: Call, text: &str) -> Read<String> {
    match text.split_once(" ~ ") {
        Some((text, other)) => by_another(alloc, call, text, other),
        None => word(alloc, "only one text"),
    }
}

fn answer_to(alloc: Global, call: Call, text: &str) -> Read<String> {
    match call {
        Call::Parameters => counts(alloc, text),
        Call::Finds(_) | Call::Holds | Call::Adds(_) => of_two(alloc, call, text),
        Call::Uses => of_type(alloc, text, &OfType::Uses),
        Call::Wraps => of_type(alloc, text, &OfType::Wraps),
        Call::Fits(count) => of_type(alloc, text, &OfType::Fits(count)),
        Call::Replaced => replaced(alloc, text),
        Call::Patterns(skipped) => patterns(alloc, text, skipped),
        Call::TakenOver => taken_over(alloc, text),
        Call::Numbered(count) => numbered(alloc, count, text),
    }
}

/// The rows of this program.
pub(crate) struct SearchRows;

impl Answers for SearchRows {
    fn answer(alloc: Global, head: &str, text: &str) -> Result<String, Error> {
        match named(CALLS, head) {
            Some(call) => answer_to(alloc, call, text),
            None => unknown(alloc),
        }
    }
}

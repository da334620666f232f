//! Whether texts are read whole as parts of the output language.

use dm_lexer::lex;
use dm_read_arguments::sort::{Sort, Wanted};
use dm_read_exprs::nested::{block, expr};
use dm_read_formats::opaque::run;
use dm_read_heads::assoc::assocs;
use dm_read_heads::attr::attrs;
use dm_read_heads::head::printed_head;
use dm_read_heads::signature::named_signature;
use dm_read_leaves::qualified::qualified;
use dm_read_leaves::ty::ty;
use dm_read_patterns::nested::pattern;
use dm_read_places::path::path;
use dm_read_places::place::Place;
use dm_rows::named;
use dm_stream::{Error, Read};
use std::alloc::Global;

/// What a text is read as.
#[derive(Clone, Copy)]
pub enum Part {
    Expression,
    /// The inside of a block.
    Block,
    Pattern,
    Path,
    Type,
    Qualified,
    /// The value of a format's argument.
    Value,
    /// Attributes in front.
    Attrs,
    /// What stands between `impl` and the brace.
    Head,
    /// Associated types.
    Assocs,
    /// A method's name, and what it takes and gives.
    Signature,
}

/// More than the length of any list in a text, and than its depth.
const FUEL: usize = 1_000;

/// How deep texts may nest.
const ROOM: usize = 100;

/// A whole expression.
const WANTED: Wanted = Wanted {
    fuel: FUEL,
    room: ROOM,
    sort: Sort::Whole(true),
};

const PARTS: &[(&str, Part)] = &[
    ("expression", Part::Expression),
    ("block", Part::Block),
    ("pattern", Part::Pattern),
    ("path", Part::Path),
    ("type", Part::Type),
    ("qualified", Part::Qualified),
    ("value", Part::Value),
    ("attributes", Part::Attrs),
    ("head", Part::Head),
    ("associated", Part::Assocs),
    ("signature", Part::Signature),
];

/// Whether it was read, and nothing is left. What was read is owned here alone, where its type is open, so that dropping it is cheap to
/// prove.
fn is_whole<T: Drop>(read: Result<T, Error>, at_end: bool) -> Read<bool> {
    match read {
        Ok(_) => Ok(at_end),
        Err(Error::Refused(_)) => Ok(false),
        Err(Error::NoMemory) => Err(Error::NoMemory),
    }
}

/// Whether what stands at a place is read whole.
fn reads_whole(part: Part, place: &mut Place<'_, '_>) -> Read<bool> {
    match part {
        Part::Expression => is_whole(expr(place, WANTED), place.at_end()),
        // A block's reader promises no place: it reads to the end.
        Part::Block => is_whole(block(place, FUEL, ROOM), true),
        Part::Pattern => is_whole(pattern(place, FUEL, ROOM), place.at_end()),
        Part::Path => is_whole(path(FUEL, place), place.at_end()),
        Part::Type => is_whole(ty(place), place.at_end()),
        Part::Qualified => is_whole(qualified(place), place.at_end()),
        Part::Value => is_whole(run(place), place.at_end()),
        Part::Attrs => is_whole(attrs(place), place.at_end()),
        Part::Head => is_whole(printed_head(place), place.at_end()),
        Part::Assocs => is_whole(assocs(place, FUEL), place.at_end()),
        Part::Signature => is_whole(named_signature(place), place.at_end()),
    }
}

/// The part of this name.
pub fn part_named(head: &str) -> Option<Part> {
    named(PARTS, head)
}

/// Whether a text that is made of tokens is read whole, in words.
pub fn read_whole(alloc: Global, part: Part, text: &str) -> Read<String> {
    let stream = lex(alloc, text)?;
    let is_whole = reads_whole(part, &mut Place::new(alloc, stream.cursor()))?;
    let told = if is_whole { "whole" } else { "not whole" };
    Ok(String::from_str(alloc, told)?)
}

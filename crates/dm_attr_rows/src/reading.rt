//! What attributes are read as.

use crate::words::{found_word, line};
use dm_ast::Attribute;
use dm_attr::skips::{is_forwarded_under, is_left_out, is_skipped_under, refuse_skip};
use dm_attr::{Either, Forward, Skip, Spanning, merge_opt_attrs, parse_attrs, parse_attrs_with};
use dm_read::parts::attributes;
use dm_rows::{Tells, told_front};
use dm_stream::{Error, Read, Seq, TokenStream};
use std::alloc::Global;

/// The name of the attributes that are read.
const NAME: &str = "partial_eq";

/// What is asked of attributes.
#[derive(Clone, Copy)]
pub(crate) enum Asked {
    /// What those of the name are as `Skip`.
    Skip,
    /// What they are as `Forward`.
    Forward,
    /// What they are as one of the two.
    Either,
    /// What those of the name `eq` and then those of the name are as `Forward`, merged.
    Merged,
    /// Whether those of the name skip the place.
    Skipped,
    /// Whether they forward the type.
    Forwarded,
    /// Nothing, but they are refused where they skip the place.
    Unskipped,
    /// Whether `PartialEq` leaves the place out.
    LeftOut,
}

impl<'a> Tells<Seq<Attribute<'a>>> for Asked {
    fn tell(value: &Seq<Attribute<'a>>, alloc: Global, way: &Asked) -> Result<String, Error> {
        let attrs = value.as_slice();
        match way {
            Asked::Skip => as_skip(attrs, alloc),
            Asked::Forward => as_forward(attrs, alloc),
            Asked::Either => as_either(attrs, alloc),
            Asked::Merged => found_word(alloc, merged(attrs, alloc)),
            Asked::Skipped => yes(alloc, is_skipped_under(alloc, attrs, NAME)),
            Asked::Forwarded => yes(alloc, is_forwarded_under(alloc, attrs, NAME)),
            Asked::Unskipped => fine(alloc, refuse_skip(alloc, attrs, NAME)),
            Asked::LeftOut => yes(alloc, is_left_out(alloc, attrs)),
        }
    }
}

/// What they are as `Skip`.
fn as_skip(attrs: &[Attribute<'_>], alloc: Global) -> Read<String> {
    let found: Result<Option<Spanning<Skip>>, Error> = parse_attrs(alloc, attrs, NAME);
    found_word(alloc, found)
}

/// What they are as `Forward`, where no legacy form is known.
fn as_forward(attrs: &[Attribute<'_>], alloc: Global) -> Read<String> {
    let found: Result<Option<Spanning<Forward>>, Error> = parse_attrs_with(alloc, attrs, NAME, &());
    found_word(alloc, found)
}

/// What they are as one of the two.
fn as_either(attrs: &[Attribute<'_>], alloc: Global) -> Read<String> {
    let found: Result<Option<Spanning<Either<Skip, Forward>>>, Error> = parse_attrs(
        alloc, attrs, NAME,
    );
    found_word(alloc, found)
}

/// What those of the name `eq` and those of the name are, merged.
fn merged(attrs: &[Attribute<'_>], alloc: Global) -> Read<Option<Spanning<Forward>>> {
    let before = parse_attrs(alloc, attrs, "eq")?;
    let behind = parse_attrs(alloc, attrs, NAME)?;
    merge_opt_attrs(before, behind)
}

/// `yes` or `no`, or the refusal.
fn yes(alloc: Global, answer: Result<bool, Error>) -> Read<String> {
    line(alloc, if answer? { "yes" } else { "no" })
}

/// `fine`, or the refusal.
fn fine(alloc: Global, answer: Result<(), Error>) -> Read<String> {
    answer?;
    line(alloc, "fine")
}

/// What is told of the attributes that a text begins with, and what is left.
pub(crate) fn of_attributes(stream: &TokenStream<'_>, alloc: Global, asked: Asked) -> Read<String> {
    let c = stream.cursor();
    told_front(c, attributes(alloc, 0, c), alloc, &asked)
}

//! What may stand at the front of a text.

use crate::metas::{begins_with_meta, begins_with_nested, begins_with_word, list_types};
use crate::tokens::Tokens;
use dm_rows::{Tells, only_read, printed, told, told_front};
use dm_syntax::{
    Meta, MetaList, NestedMeta, Path, PathOrKeyword, Ty, WherePredicate, parse_decl, parse_path,
    parse_predicates, parse_type,
};
use dm_tokens::{Error, Punctuated, TokenStream};
use std::alloc::Global;

/// What may stand at the front of a text, or be a text as a whole.
#[derive(Clone, Copy)]
pub(crate) enum Front {
    Type,
    Path,
    Predicates,
    Word,
    List,
    Meta,
    Nested,
    Declaration,
}

fn only_read_at(stream: &TokenStream<'_>, alloc: Global, front: Front) -> Result<(), Error> {
    let c = stream.cursor();
    match front {
        Front::Type => only_read(parse_type(alloc, c)),
        Front::Path => only_read(parse_path(alloc, c)),
        Front::Predicates => only_read(parse_predicates(alloc, c)),
        Front::Word => only_read(PathOrKeyword::parse(alloc, c)),
        Front::List => only_read(MetaList::parse(alloc, c)),
        Front::Meta => only_read(Meta::parse(alloc, c)),
        Front::Nested => only_read(NestedMeta::parse(alloc, c)),
        Front::Declaration => only_read(parse_decl(alloc, stream)),
    }
}

/// `read`, or the refusal.
pub(crate) fn is_read(
    stream: &TokenStream<'_>,
    alloc: Global,
    front: Front,
) -> Result<String, Error> {
    only_read_at(stream, alloc, front)?;
    Ok(String::from_str(alloc, "read")?)
}

/// The longest type that a text begins with, and what is left.
pub(crate) fn begins_with_type(stream: &TokenStream<'_>, alloc: Global) -> Result<String, Error> {
    let c = stream.cursor();
    told_front(c, parse_type(alloc, c), alloc, &Tokens)
}

/// A path's tokens, and how many segments it has.
#[derive(Clone, Copy)]
pub(crate) struct Segments;

impl<'a> Tells<Path<'a>> for Segments {
    fn tell(value: &Path<'a>, alloc: Global, _way: &Segments) -> Result<String, Error> {
        let text = printed(value, alloc)?;
        let text = text.as_str();
        let count = value.segments.len();
        Ok(format!(in alloc; "{text}\nsegments {count}")?)
    }
}

/// The longest path that a text begins with, its segments, and what is left.
pub(crate) fn begins_with_path(stream: &TokenStream<'_>, alloc: Global) -> Result<String, Error> {
    let c = stream.cursor();
    told_front(c, parse_path(alloc, c), alloc, &Segments)
}

/// How many there are.
#[derive(Clone, Copy)]
struct Count;

impl<'a> Tells<Punctuated<WherePredicate<'a>>> for Count {
    fn tell(
        value: &Punctuated<WherePredicate<'a>>,
        alloc: Global,
        _way: &Count,
    ) -> Result<String, Error> {
        let count = value.items.len();
        Ok(format!(in alloc; "{count}")?)
    }
}

/// How many predicates a text has.
pub(crate) fn counts_predicates(stream: &TokenStream<'_>, alloc: Global) -> Result<String, Error> {
    told(parse_predicates(alloc, stream.cursor()), alloc, &Count)
}

/// What is told of what stands at the front of a text, and what is left of it.
pub(crate) fn begins_with(
    stream: &TokenStream<'_>,
    alloc: Global,
    front: Front,
) -> Result<String, Error> {
    match front {
        Front::Type => begins_with_type(stream, alloc),
        Front::Path => begins_with_path(stream, alloc),
        Front::Predicates => counts_predicates(stream, alloc),
        Front::Word => begins_with_word(stream, alloc),
        Front::List => list_types(stream, alloc),
        Front::Meta => begins_with_meta(stream, alloc),
        Front::Nested => begins_with_nested(stream, alloc),
        Front::Declaration => is_read(stream, alloc, front),
    }
}

//! Metas at the front of a text.

ghost use Rattle.dm_stream.specs.Cursors.{sound};

use crate::fronts::Segments;
use crate::tokens::Tokens;
use dm_input::join::joined;
use dm_rows::{Tells, made, printed, told, told_alone, told_front};
use dm_syntax::{ArgReader, Meta, MetaList, NestedMeta, Path, PathOrKeyword, parse_path};
use dm_tokens::{Cursor, Error, Kind, Refusal, TokenStream};
use std::alloc::Global;

fn kind_of(word: &PathOrKeyword<'_>) -> &'static str {
    match word {
        PathOrKeyword::Path(_) => "path",
        PathOrKeyword::Keyword(_) => "keyword",
    }
}

/// Whether it is this one name, and no other.
fn is_only(word: &PathOrKeyword<'_>, name: &str) -> bool {
    word.is_ident(name) && !word.is_ident("other")
}

/// The line of the one name that a path or keyword is, or of none.
fn name_line(word: &PathOrKeyword<'_>, alloc: Global) -> Result<String, Error> {
    match word.get_ident() {
        Some(ident) if is_only(word, ident.name.as_str()) => {
            let name = ident.name.as_str();
            Ok(format!(in alloc; "name {name}")?)
        }
        Some(_) => Ok(String::from_str(alloc, "another name")?),
        None => Ok(String::from_str(alloc, "no name")?),
    }
}

/// Which it is, the tokens of a copy, and the one name that it is.
#[derive(Clone, Copy)]
struct Word;

impl<'a> Tells<PathOrKeyword<'a>> for Word {
    fn tell(value: &PathOrKeyword<'a>, alloc: Global, _way: &Word) -> Result<String, Error> {
        let copy = made(value.clone_in(alloc), alloc, &Tokens)?;
        let name = name_line(value, alloc)?;
        let kind = kind_of(value);
        let copy = copy.as_str();
        let name = name.as_str();
        Ok(format!(in alloc; "{kind} {copy}\n{name}")?)
    }
}

/// The path or keyword that a text begins with, and what is left.
pub(crate) fn begins_with_word(stream: &TokenStream<'_>, alloc: Global) -> Result<String, Error> {
    let c = stream.cursor();
    told_front(c, PathOrKeyword::parse(alloc, c), alloc, &Word)
}

/// The path that a path or keyword is.
pub(crate) fn word_as_path(stream: &TokenStream<'_>, alloc: Global) -> Result<String, Error> {
    match PathOrKeyword::parse(alloc, stream.cursor()) {
        Ok((word, _)) => made(word.into_path(alloc), alloc, &Segments),
        Err(error) => Err(error),
    }
}

fn shape_of(meta: &Meta<'_>) -> &'static str {
    match meta {
        Meta::Path(_) => "path",
        Meta::List(_) => "list",
    }
}

/// Whether it is a list, and the tokens of a copy.
#[derive(Clone, Copy)]
struct Shape;

impl<'a> Tells<Meta<'a>> for Shape {
    fn tell(value: &Meta<'a>, alloc: Global, _way: &Shape) -> Result<String, Error> {
        let copy = made(value.clone_in(alloc), alloc, &Tokens)?;
        let shape = shape_of(value);
        let copy = copy.as_str();
        Ok(format!(in alloc; "{shape} {copy}")?)
    }
}

/// The meta that a text begins with, and what is left.
pub(crate) fn begins_with_meta(stream: &TokenStream<'_>, alloc: Global) -> Result<String, Error> {
    let c = stream.cursor();
    told_front(c, Meta::parse(alloc, c), alloc, &Shape)
}

/// Whether it is a literal.
#[derive(Clone, Copy)]
struct Literally;

impl<'a> Tells<NestedMeta<'a>> for Literally {
    fn tell(value: &NestedMeta<'a>, alloc: Global, _way: &Literally) -> Result<String, Error> {
        let told = match value {
            NestedMeta::Meta(_) => "meta",
            NestedMeta::Lit(_) => "literal",
        };
        Ok(String::from_str(alloc, told)?)
    }
}

/// Whether a copy of it is a literal.
#[derive(Clone, Copy)]
struct CopyLiterally;

impl<'a> Tells<NestedMeta<'a>> for CopyLiterally {
    fn tell(value: &NestedMeta<'a>, alloc: Global, _way: &CopyLiterally) -> Result<String, Error> {
        made(value.clone_in(alloc), alloc, &Literally)
    }
}

/// Whether a text begins with a literal or a meta, and what is left.
pub(crate) fn begins_with_nested(stream: &TokenStream<'_>, alloc: Global) -> Result<String, Error> {
    let c = stream.cursor();
    told_front(c, NestedMeta::parse(alloc, c), alloc, &CopyLiterally)
}

/// Reads two paths with a comma between.
struct TwoPaths;

/// What was read, without what is left.
fn front_of<T: Drop, U: Drop>(read: Result<(T, U), Error>) -> Result<T, Error> {
    match read {
        Ok((front, _)) => Ok(front),
        Err(error) => Err(error),
    }
}

fn path_behind_comma<'a>(alloc: Global, c: Cursor<'_, 'a>) -> Result<Path<'a>, Error>
    requires { sound c }
{
    match c.punct() {
        None => Err(Error::Refused(Refusal {
            kind: Kind::Syntax,
            span: c.span(),
        })),
        Some((_, behind)) => front_of(parse_path(alloc, behind)),
    }
}

impl<'a> ArgReader<'a> for TwoPaths {
    type Output = (Path<'a>, Path<'a>);

    ghost answers = { λ reader ts limit r. Unit {0} };

    fn read(&self, alloc: Global, c: Cursor<'_, 'a>) -> Result<(Path<'a>, Path<'a>), Error> {
        let (first, rest) = parse_path(alloc, c)?;
        joined(first, path_behind_comma(alloc, rest))
    }
}

/// The two paths of a list that is called `types`.
#[derive(Clone, Copy)]
struct Types;

impl<'a> Tells<MetaList<'a>> for Types {
    fn tell(value: &MetaList<'a>, alloc: Global, _way: &Types) -> Result<String, Error> {
        if !value.path.is_ident("types") {
            return Ok(String::from_str(alloc, "another name")?);
        }
        told(value.parse_args_with(alloc, &TwoPaths), alloc, &Tokens)
    }
}

/// The two paths of the list that a text begins with.
pub(crate) fn list_types(stream: &TokenStream<'_>, alloc: Global) -> Result<String, Error> {
    told_alone(MetaList::parse(alloc, stream.cursor()), alloc, &Types)
}

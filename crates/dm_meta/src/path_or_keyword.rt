//! Paths and keywords.
#![tactic(auto)]

ghost use Rattle.std.specs.Prelude.{◌≡◌, ◌<◌, IfOk, IfErr};
ghost use Rattle.std.specs.Option.{option_copied};
ghost use Rattle.dm_stream.specs.Cursors.{left, end_of, sound, first_span, SharesEnd};
ghost use Rattle.dm_ast.specs.Tree.{path_view};
ghost use Rattle.dm_ast.specs.Readers.{place, Reads};
ghost use Rattle.dm_meta.specs.Fronts.{IsFront};
ghost use Rattle.dm_meta.specs.Metas as metas;
ghost use Rattle.dm_meta.specs.Metas.{NoMeta};
ghost use Rattle.dm_meta.specs.MetaReaders as spec;

use dm_ast::{Path, PathArguments, PathSegment};
use dm_copy::CloneIn;
use dm_quote::ToTokens;
use dm_read::token::ident;
use dm_read_paths::path::{no_arguments, path_of, segment_of};
use dm_read_types::bare::bare_path;
use dm_stream::{Cursor, Error, Ident, Kind, Read, Refusal, Seq, TokenStream};
use std::alloc::{AllocError, Global};

/// A path none of whose own segments has a list in parentheses; or any identifier where no such path stands, as a keyword.
#[derive(Drop)]
pub enum PathOrKeyword<'a> {
    Path(Path<'a>),
    Keyword(Ident<'a>),
}

fn is_syntax(kind: Kind) -> bool
    ensures { result ≡ spec.is_syntax kind }
{
    matches!(kind, Kind::Syntax)
}

/// Puts the refusal of what doesn't begin here at the next tree. Other errors stay.
pub fn at_front(c: Cursor<'_, '_>, error: Error) -> Error
    requires { sound c }
    ensures { result ≡ spec.error_at (first_span (left c.entry) (end_of c.entry)) error }
{
    match error {
        Error::NoMemory => Error::NoMemory,
        Error::Refused(refusal) => {
            if is_syntax(refusal.kind) {
                Error::Refused(Refusal {
                    kind: Kind::Syntax,
                    span: c.span(),
                })
            } else {
                Error::Refused(refusal)
            }
        }
    }
}

/// Any identifier.
fn keyword<'t, 'a>(
    alloc: Global,
    level: usize,
    c: Cursor<'t, 'a>,
) -> Read<(PathOrKeyword<'a>, Cursor<'t, 'a>)>
    requires { sound c }
    ensures reads { Reads metas.path_or_keyword_view (spec.read_keyword (place level c.entry) (left c.entry)) result }
    ensures place { IfOk result (λ r. SharesEnd c.entry r.1) }
{
    let (found, rest) = ident(level, c)?;
    let own = found.clone_in(alloc)?;
    Ok((PathOrKeyword::Keyword(own), rest))
}

/// A path, or else any identifier.
pub fn path_or_keyword<'t, 'a>(
    alloc: Global,
    level: usize,
    c: Cursor<'t, 'a>,
) -> Result<(PathOrKeyword<'a>, Cursor<'t, 'a>), Error>
    requires here { sound c }
    requires fits { level < 130 }
    ensures reads { Reads metas.path_or_keyword_view (spec.read_path_or_keyword (place level c.entry) (left c.entry)) result }
    ensures place { IfOk result (λ r. SharesEnd c.entry r.1) }
{
    match bare_path(alloc, level, c) {
        Ok((found, rest)) => Ok((PathOrKeyword::Path(found), rest)),
        Err(Error::NoMemory) => Err(Error::NoMemory),
        Err(Error::Refused(refusal)) => {
            if is_syntax(refusal.kind) {
                keyword(alloc, level, c)
            } else {
                Err(Error::Refused(refusal))
            }
        }
    }
}

impl<'a> PathOrKeyword<'a> {
    /// The one that the trees begin with, and the place behind it.
    ///
    /// The refusal is `Kind::Syntax` at the first tree, or where the list ends, where none begins there, or `Kind::TooDeep` at the
    /// first token of a path that stands deeper than level 128, both in bytes of the text that the trees were read from.
    pub fn parse<'t>(
        alloc: Global,
        c: Cursor<'t, 'a>,
    ) -> Result<(PathOrKeyword<'a>, Cursor<'t, 'a>), Error>
        requires { sound c }
        ensures found { IfOk result (λ r. IsFront (λ p. metas.path_or_keyword p (place 0 c.entry)) (left c.entry) (metas.path_or_keyword_view r.0) (left r.1)) }
        ensures refused { IfErr result (λ e. NoMeta (λ p. metas.path_or_keyword p (place 0 c.entry)) metas.begins_path e (end_of c.entry) (left c.entry)) }
        ensures place { IfOk result (λ r. SharesEnd c.entry r.1) }
    {
        match path_or_keyword(alloc, 0, c) {
            Ok(read) => Ok(read),
            Err(error) => Err(at_front(c, error)),
        }
    }

    /// The keyword, or the name of a path that is one segment without arguments.
    pub fn get_ident(&self) -> Option<&Ident<'a>>
        ensures { option_copied result ≡ metas.ident_of (metas.path_or_keyword_view self.now) }
    {
        match self {
            PathOrKeyword::Path(path) => path.get_ident(),
            PathOrKeyword::Keyword(ident) => Some(ident),
        }
    }

    /// Whether this is one identifier of this name alone, with `r#` or without.
    pub fn is_ident(&self, name: &str) -> bool
        ensures { result ≡ metas.is_named (metas.ident_of (metas.path_or_keyword_view self.now)) name.now }
    {
        match self.get_ident() {
            Some(ident) => ident.name.as_str() == name,
            None => false,
        }
    }

    /// The path, or a path whose one segment is the keyword.
    pub fn into_path(self, alloc: Global) -> Result<Path<'a>, AllocError>
        ensures { IfOk result (λ p. path_view p ≡ metas.as_path (metas.path_or_keyword_view self.entry)) }
    {
        match self {
            PathOrKeyword::Path(path) => Ok(path),
            PathOrKeyword::Keyword(ident) => {
                let mut segments = Seq::new(alloc);
                segments.add(segment_of(ident, no_arguments()))?;
                Ok(path_of(false, segments))
            }
        }
    }

    /// An equal value.
    pub fn clone_in(&self, alloc: Global) -> Result<PathOrKeyword<'a>, AllocError>
        ensures { IfOk result (λ r. metas.path_or_keyword_view r ≡ metas.path_or_keyword_view self.now) }
    {
        match self {
            PathOrKeyword::Path(path) => Ok(PathOrKeyword::Path(path.clone_in(alloc)?)),
            PathOrKeyword::Keyword(ident) => Ok(PathOrKeyword::Keyword(ident.clone_in(alloc)?)),
        }
    }
}

impl<'a> ToTokens<'a> for PathOrKeyword<'a> {
    ghost use Rattle.dm_meta.specs.Metas.{path_or_keyword_view, path_or_keyword_trees};

    ghost trees_of = { λ x. path_or_keyword_trees (path_or_keyword_view x) };

    ghost stands = { λ x. Unit {0} };

    fn to_tokens(&self, out: &mut TokenStream<'a>) -> Result<(), AllocError> {
        match self {
            PathOrKeyword::Path(path) => path.to_tokens(out),
            PathOrKeyword::Keyword(ident) => ident.to_tokens(out),
        }
    }
}

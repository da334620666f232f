//! Names at the places of a path where a parameter may stand.
#![tactic(auto, using(dm_ast::proofs::View::view_steps))]

ghost use Rattle.std.specs.Prelude.{◌≡◌, map};
ghost use Rattle.std.specs.Option.{option_copied};
ghost use Rattle.dm_ast.specs.Tree.{segment_view, segments_of};
ghost use Rattle.dm_searches.specs.Parameters as spec;

use dm_ast::{Path, PathArguments, PathSegment};
use dm_stream::Ident;

/// A sort of parameters.
#[derive(Clone, Copy)]
pub enum Sort {
    Ty,
    Lifetime,
    Const,
}

/// A parameter that is looked for.
#[derive(Clone, Copy)]
pub struct Parameter<'n> {
    /// Its name without `r#`.
    pub name: &'n str,
    pub sort: Sort,
}

/// Whether there is an identifier, and this is its name.
pub fn some_named(ident: Option<&Ident<'_>>, name: &str) -> bool
    ensures { result ≡ spec.some_named name.now (option_copied ident.entry) }
{
    match ident {
        None => false,
        Some(ident) => ident.name.as_str() == name,
    }
}

/// The first name, where it has no arguments.
pub fn bare_first<'x, 'a>(all: &'x [PathSegment<'a>]) -> Option<&'x Ident<'a>>
    ensures { option_copied result ≡ spec.bare_first (segments_of (map segment_view all.now)) }
{
    match all {
        [] => None,
        [first, ..] => first.get_ident(),
    }
}

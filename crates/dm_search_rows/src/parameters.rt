//! The parameters of declarations, and searches for them.

use crate::texts::{of_declaration, yes};
use dm_ast::{DeriveInput, Ty, TyNode};
use dm_rows::Tells;
use dm_searches::{GenericsSearch, contains_any, path_contains_any};
use dm_stream::{Error, Read};
use std::alloc::Global;

/// A search for parameters.
#[derive(Clone, Copy)]
pub(crate) enum Search {
    /// For all parameters, wherever the type mentions one.
    Mentioned,
    /// For type parameters.
    Contained,
    /// For type parameters in the type's path.
    ContainedInPath,
}

fn is_found(ty: &Ty<'_>, all: &GenericsSearch<'_, '_>, search: Search) -> bool {
    match search {
        Search::Mentioned => all.any_in(ty),
        Search::Contained => contains_any(&all.types, ty),
        Search::ContainedInPath => match &ty.node {
            TyNode::Path(None, path) => path_contains_any(&all.types, path),
            _ => false,
        },
    }
}

/// What is told of a declaration's parameters.
#[derive(Clone, Copy)]
enum OfParameters<'x, 't> {
    /// Whether a search finds one in this type.
    Finds(&'x Ty<'t>, Search),
    /// How many types, lifetimes and constants they are.
    Counts,
}

fn tell_of(
    all: &GenericsSearch<'_, '_>,
    alloc: Global,
    way: &OfParameters<'_, '_>,
) -> Read<String> {
    match way {
        OfParameters::Finds(ty, search) => yes(alloc, is_found(ty, all, *search)),
        OfParameters::Counts => {
            let types = all.types.len();
            let lifetimes = all.lifetimes.len();
            let consts = all.consts.len();
            Ok(format!(in alloc; "types {types}, lifetimes {lifetimes}, constants {consts}")?)
        }
    }
}

impl<'x, 't, 'a> Tells<DeriveInput<'a>> for OfParameters<'x, 't> {
    fn tell(
        input: &DeriveInput<'a>,
        alloc: Global,
        way: &OfParameters<'x, 't>,
    ) -> Result<String, Error> {
        let all = GenericsSearch::from_generics(alloc, &input.generics)?;
        tell_of(&all, alloc, way)
    }
}

/// Whether a search for the parameters of a declaration finds one in a type.
pub(crate) fn finds(ty: &Ty<'_>, alloc: Global, search: Search, declaration: &str) -> Read<String> {
    of_declaration(alloc, declaration, &OfParameters::Finds(ty, search))
}

/// How many parameters of each kind a declaration has.
pub(crate) fn counts(alloc: Global, declaration: &str) -> Read<String> {
    of_declaration(alloc, declaration, &OfParameters::Counts)
}

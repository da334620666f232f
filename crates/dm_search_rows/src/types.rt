//! What is told of a type.

use crate::parameters::{Search, finds};
use crate::texts::{of_type, word, yes};
use dm_ast::Ty;
use dm_rows::{Tells, printed};
use dm_searches::{
    contains_type_structurally, get_if_type_parameter_used_in_type, get_inner, get_option_inner,
    is_option, is_type_parameter_used_in_type, validate_type,
};
use dm_stream::{Error, Read, Text};
use indexmap::IndexSet;
use std::alloc::Global;

/// What is told of a type.
#[derive(Clone, Copy)]
pub(crate) enum OfType<'t> {
    /// Whether this search for the parameters of this declaration finds one in it.
    Finds(Search, &'t str),
    /// Whether this type stands in it.
    Holds(&'t str),
    /// Whether `T` is used in it, and what it is then without one outer reference.
    Uses,
    /// What an `Option` wraps in it, and what any name does.
    Wraps,
    /// Whether it fits so many fields.
    Fits(usize),
}

impl<'a> Tells<Ty<'a>> for OfType<'a> {
    fn tell(ty: &Ty<'a>, alloc: Global, way: &OfType<'a>) -> Result<String, Error> {
        match *way {
            OfType::Finds(search, declaration) => finds(ty, alloc, search, declaration),
            OfType::Holds(needle) => holds(ty, alloc, needle),
            OfType::Uses => uses(ty, alloc),
            OfType::Wraps => wraps(ty, alloc),
            OfType::Fits(count) => fits(ty, alloc, count),
        }
    }
}

/// Whether it stands in this type.
#[derive(Clone, Copy)]
struct StandsIn<'x, 'a>(&'x Ty<'a>);

impl<'x, 'a> Tells<Ty<'a>> for StandsIn<'x, 'a> {
    fn tell(needle: &Ty<'a>, alloc: Global, way: &StandsIn<'x, 'a>) -> Result<String, Error> {
        yes(alloc, contains_type_structurally(way.0, needle))
    }
}

fn holds<'a>(ty: &Ty<'a>, alloc: Global, needle: &'a str) -> Read<String> {
    of_type(alloc, needle, &StandsIn(ty))
}

/// The layout of a type that was found, or `none`.
fn part(found: Option<&Ty<'_>>, alloc: Global) -> Read<String> {
    match found {
        Some(found) => printed(found, alloc),
        None => word(alloc, "none"),
    }
}

fn uses_one<'a>(ty: &Ty<'a>, params: &IndexSet<Text<'a>>, alloc: Global) -> Read<String> {
    let found = get_if_type_parameter_used_in_type(params, ty);
    if is_type_parameter_used_in_type(params, ty) == found.is_some() {
        part(found, alloc)
    } else {
        word(alloc, "answers differ")
    }
}

fn uses(ty: &Ty<'_>, alloc: Global) -> Read<String> {
    let mut params = IndexSet::new(alloc);
    match params.insert(Text::borrowed("T")) {
        Ok(_) => uses_one(ty, &params, alloc),
        Err(_) => Err(Error::NoMemory),
    }
}

fn wraps(ty: &Ty<'_>, alloc: Global) -> Read<String> {
    let wrapped = get_option_inner(ty);
    if is_option(ty) != wrapped.is_some() {
        return word(alloc, "answers differ");
    }
    let wrapped = part(wrapped, alloc)?;
    let any = part(get_inner(ty), alloc)?;
    let wrapped = wrapped.as_str();
    let any = any.as_str();
    Ok(format!(in alloc; "of an Option {wrapped}\nof any name {any}")?)
}

fn fits(ty: &Ty<'_>, alloc: Global, count: usize) -> Read<String> {
    match validate_type(count, ty) {
        Ok(()) => word(alloc, "fits"),
        Err(refusal) => Err(Error::Refused(refusal)),
    }
}

//! `Self` in declarations, and what takes its place.

use crate::texts::of_declaration;
use dm_ast::DeriveInput;
use dm_replace::replace_self_type;
use dm_rows::{Tells, made, printed};
use dm_stream::{Error, Read};
use std::alloc::Global;

/// How it is laid out.
#[derive(Clone, Copy)]
struct Tokens;

/// How it is laid out with its own type in place of `Self`.
#[derive(Clone, Copy)]
struct OwnType;

impl<'a> Tells<DeriveInput<'a>> for Tokens {
    fn tell(value: &DeriveInput<'a>, alloc: Global, _way: &Tokens) -> Result<String, Error> {
        printed(value, alloc)
    }
}

impl<'a> Tells<DeriveInput<'a>> for OwnType {
    fn tell(value: &DeriveInput<'a>, alloc: Global, _way: &OwnType) -> Result<String, Error> {
        made(replace_self_type(alloc, value), alloc, &Tokens)
    }
}

/// A declaration with its own type in place of `Self`.
pub(crate) fn replaced(alloc: Global, text: &str) -> Read<String> {
    of_declaration(alloc, text, &OwnType)
}

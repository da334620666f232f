//! The tokens of what was read.

use dm_rows::{Tells, printed};
use dm_syntax::{DeriveInput, Meta, Path, PathOrKeyword, Ty};
use dm_tokens::Error;
use std::alloc::Global;

/// A value's tokens, as they are laid out.
#[derive(Clone, Copy)]
pub(crate) struct Tokens;

impl<'a> Tells<Ty<'a>> for Tokens {
    fn tell(value: &Ty<'a>, alloc: Global, _way: &Tokens) -> Result<String, Error> {
        printed(value, alloc)
    }
}

impl<'a> Tells<DeriveInput<'a>> for Tokens {
    fn tell(value: &DeriveInput<'a>, alloc: Global, _way: &Tokens) -> Result<String, Error> {
        printed(value, alloc)
    }
}

impl<'a> Tells<PathOrKeyword<'a>> for Tokens {
    fn tell(value: &PathOrKeyword<'a>, alloc: Global, _way: &Tokens) -> Result<String, Error> {
        printed(value, alloc)
    }
}

impl<'a> Tells<Meta<'a>> for Tokens {
    fn tell(value: &Meta<'a>, alloc: Global, _way: &Tokens) -> Result<String, Error> {
        printed(value, alloc)
    }
}

impl<'a> Tells<(Path<'a>, Path<'a>)> for Tokens {
    fn tell(value: &(Path<'a>, Path<'a>), alloc: Global, _way: &Tokens) -> Result<String, Error> {
        let one = printed(&value.0, alloc)?;
        let other = printed(&value.1, alloc)?;
        let one = one.as_str();
        let other = other.as_str();
        Ok(format!(in alloc; "types\n{one}\n{other}")?)
    }
}

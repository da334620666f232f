//! The check of a declaration's names.

use dm_syntax::{DeriveInput, check_names, check_names_in};
use dm_tokens::Error;
use std::alloc::Global;

fn is_same(one: Result<(), Error>, other: Result<(), Error>) -> bool {
    match (one, other) {
        (Ok(()), Ok(())) => true,
        (Err(one), Err(other)) => one == other,
        _ => false,
    }
}

/// `fine`, or the refusal: that of both ways to check the names.
pub(crate) fn checked(input: &DeriveInput<'_>, alloc: Global) -> Result<String, Error> {
    let answer = check_names(input).map_err(Error::Refused);
    if !is_same(answer, check_names_in(alloc, input)) {
        return Ok(String::from_str(alloc, "answers differ")?);
    }
    answer?;
    Ok(String::from_str(alloc, "fine")?)
}

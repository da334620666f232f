//! The values of literals.

use dm_tokens::{Error, LitKind, Literal, Span, Text, int_value, str_value};
use std::alloc::Global;

/// A literal of this kind, spelled by this text.
fn literal<'a>(kind: LitKind, text: &'a str) -> Literal<'a> {
    Literal {
        kind,
        text: Text::borrowed(text),
        span: Span {
            start: 0,
            end: text.len(),
        },
    }
}

/// The value of an integer, or `none`.
pub(crate) fn integer(alloc: Global, text: &str) -> Result<String, Error> {
    match int_value(&literal(LitKind::Int, text)) {
        Some(value) => Ok(format!(in alloc; "{value}")?),
        None => Ok(String::from_str(alloc, "none")?),
    }
}

/// The value of a string in brackets, or `none`.
pub(crate) fn string(alloc: Global, kind: LitKind, text: &str) -> Result<String, Error> {
    match str_value(alloc, &literal(kind, text))? {
        Some(value) => {
            let value = value.as_str();
            Ok(format!(in alloc; "[{value}]")?)
        }
        None => Ok(String::from_str(alloc, "none")?),
    }
}

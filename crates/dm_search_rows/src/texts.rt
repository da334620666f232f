//! Texts as declarations and types, and what is told of them. What was read is owned by generic functions alone.

use dm_ast::{DeriveInput, Ty};
use dm_layout::print;
use dm_lexer::lex;
use dm_meta::parse_type;
use dm_read_decl::parse_decl;
use dm_rows::{Tells, told, told_alone};
use dm_stream::{Read, TokenStream};
use std::alloc::{AllocError, Global};

/// What is told of the declaration that a text is.
pub(crate) fn of_declaration<'a, W: Tells<DeriveInput<'a>>>(
    alloc: Global,
    text: &'a str,
    way: &W,
) -> Read<String> {
    let stream = lex(alloc, text)?;
    told(parse_decl(alloc, &stream), alloc, way)
}

/// What is told of the type that a text begins with.
pub(crate) fn of_type<'a, W: Tells<Ty<'a>>>(alloc: Global, text: &'a str, way: &W) -> Read<String> {
    let stream = lex(alloc, text)?;
    told_alone(parse_type(alloc, stream.cursor()), alloc, way)
}

/// The layout of these tokens, where they could be written.
pub(crate) fn laid_out(
    stream: &TokenStream<'_>,
    alloc: Global,
    written: Result<(), AllocError>,
) -> Read<String> {
    written?;
    Ok(print(alloc, stream)?)
}

/// This text as an answer.
pub(crate) fn word(alloc: Global, text: &str) -> Read<String> {
    Ok(String::from_str(alloc, text)?)
}

/// `yes` or `no`.
pub(crate) fn yes(alloc: Global, is_so: bool) -> Read<String> {
    word(alloc, if is_so { "yes" } else { "no" })
}

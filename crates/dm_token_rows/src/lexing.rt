//! Texts and their layouts.

use crate::outlines::outline;
use dm_tokens::{Error, TokenStream, lex, lex_owned, print};
use std::alloc::Global;

/// `read`, or the refusal.
pub(crate) fn only_read(alloc: Global, text: &str) -> Result<String, Error> {
    let _stream = lex(alloc, text)?;
    Ok(String::from_str(alloc, "read")?)
}

/// The layout of a text's trees.
pub(crate) fn layout_of(alloc: Global, text: &str) -> Result<String, Error> {
    let stream = lex(alloc, text)?;
    Ok(print(alloc, &stream)?)
}

/// The layout of an owned copy of these trees.
fn owned_layout(alloc: Global, stream: TokenStream<'_>) -> Result<String, Error> {
    let owned = stream.into_owned(alloc)?;
    Ok(print(alloc, &owned)?)
}

/// The layout of an owned copy of a text's trees.
fn owned_layout_of(alloc: Global, text: &str) -> Result<String, Error> {
    let stream = lex(alloc, text)?;
    owned_layout(alloc, stream)
}

/// The layout of a text's trees, which borrow nothing of it.
fn layout_of_owned(alloc: Global, text: &str) -> Result<String, Error> {
    let stream = lex_owned(alloc, text)?;
    Ok(print(alloc, &stream)?)
}

/// Whether an owned copy of a text's trees, and the trees that are read as owned, have this layout.
fn keeps_layout(alloc: Global, text: &str, layout: &str) -> Result<bool, Error> {
    let copied = owned_layout_of(alloc, text)?;
    let read = layout_of_owned(alloc, text)?;
    Ok(copied.as_str() == layout && read.as_str() == layout)
}

/// Whether the trees of two texts are alike, spacing included.
fn are_alike(alloc: Global, text: &str, other: &str) -> Result<bool, Error> {
    let one = outline(alloc, text)?;
    let other = outline(alloc, other)?;
    Ok(one.as_str() == other.as_str())
}

/// Whether the layout of a text's trees has these trees, spacing included, and those that are owned have the same layout.
pub(crate) fn comes_back(alloc: Global, text: &str) -> Result<String, Error> {
    let layout = layout_of(alloc, text)?;
    let is_kept = keeps_layout(alloc, text, layout.as_str())?;
    let is_back = are_alike(alloc, text, layout.as_str())? && is_kept;
    let told = if is_back { "comes back" } else { "is lost" };
    Ok(String::from_str(alloc, told)?)
}

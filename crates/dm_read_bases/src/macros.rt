//! Calls of macros.
#![tactic(auto, using(crate::proofs::MacroSteps::macro_steps))]

ghost use Rattle.std.specs.Prelude.{◌≡◌};
ghost use Rattle.dm_reread.specs.Reading as plain;
ghost use Rattle.dm_read_places.specs.Prelude.{path_view, segment_view, expr_view, fmt_view, ReadsWhole, rows};
ghost use Rattle.dm_read_bases.specs.Macros.{segment_is, fmt_behind_comma, named_write, format_args_from};

use dm_ast::{Path, PathSegment};
use dm_input::join::joined;
use dm_nodes::expr::ExprNode;
use dm_nodes::make_expr::{format_args_of, write_of};
use dm_output::FmtArgs;
use dm_read::token::is_word;
use dm_read_formats::format::format;
use dm_read_places::place::Place;
use dm_stream::Read;

/// Whether a segment is this word, without arguments.
fn is_segment(word: &str, segment: &PathSegment<'_>) -> bool
    ensures { result ≡ segment_is word.now (segment_view segment.now) }
{
    match segment.get_ident() {
        Some(ident) => is_word(word, ident),
        None => false,
    }
}

/// Whether three segments are `derive_more::core::` and this word.
#[tactic(auto, using(crate::proofs::MacroSteps::three_steps))]
fn is_core_macro(called: &str, path: &Path<'_>) -> bool
    ensures { result ≡ plain.is_macro_path called.now (path_view path.now) }
{
    let all = path.segments.as_slice();
    if path.leading_colon || all.len() != 3 {
        return false;
    }
    if !is_segment("derive_more", &all[0]) {
        return false;
    }
    if !is_segment("core", &all[1]) {
        return false;
    }
    is_segment(called, &all[2])
}

/// A comma and a format, to the end.
fn behind_comma<'a>(fuel: usize, place: &mut Place<'_, 'a>) -> Read<FmtArgs<'a>>
    ensures { ReadsWhole fmt_view (fmt_behind_comma fuel) place.old result }
{
    place.comma()?;
    format(fuel, place)
}

/// What stands in the parentheses of `write!`.
fn write_call<'a>(fuel: usize, place: &mut Place<'_, 'a>) -> Read<ExprNode<'a>>
    ensures { ReadsWhole expr_view (named_write fuel) place.old result }
{
    let name = place.declared()?;
    let (name, format) = joined(name, behind_comma(fuel, place))?;
    Ok(write_of(place.alloc(), name, format)?)
}

/// What stands in the parentheses of `format_args!`.
fn format_args_call<'a>(fuel: usize, place: &mut Place<'_, 'a>) -> Read<ExprNode<'a>>
    ensures { ReadsWhole expr_view (format_args_from fuel) place.old result }
{
    let format = format(fuel, place)?;
    Ok(format_args_of(place.alloc(), format)?)
}

/// The call of the macro with this path, by what stands in its parentheses: `derive_more::core::write`, or `format_args`. `fuel` is more
/// than the number of its arguments. Refuses where its arguments aren't such a macro's.
pub(crate) fn macro_call<'a>(
    path: &Path<'_>,
    fuel: usize,
    place: &mut Place<'_, 'a>,
) -> Read<ExprNode<'a>>
    ensures { ReadsWhole expr_view (plain.macro_of (rows fuel) (path_view path.now)) place.old result }
{
    if is_core_macro("write", path) {
        return write_call(fuel, place);
    }
    if !is_core_macro("format_args", path) {
        return Err(place.refused());
    }
    format_args_call(fuel, place)
}

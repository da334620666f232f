//! Formats, and the calls of macros that take them.
#![tactic(auto, using(crate::proofs::Following::level_steps))]

ghost use Rattle.std.specs.Prelude.{◌≡◌, ◌+◌, ◌∷◌, ◌≤◌, [], map, OnOk, false};
ghost use Rattle.dm_ast.specs.Spelling.{deepest};
ghost use Rattle.dm_output.specs.Output as output;
ghost use Rattle.dm_output.specs.Views.{fmt_view, fmt_arg_view};
ghost use Rattle.dm_levels.specs.Behind.{seen};
ghost use Rattle.dm_levels.specs.Levels as spec;
ghost use Rattle.dm_type_levels.specs.Passing.{Passes, pass_then};
ghost use Rattle.dm_type_levels.specs.TypeLevels.{grouped_levels, spaced_levels};

use crate::parts::three;
use dm_output::{FmtArg, FmtArgs};
use dm_stream::{Entry, Ident};
use dm_type_levels::parts::stream;
use dm_type_levels::pass::{Behind, pair, token};

/// The path of a macro of `derive_more::core`, and `!`.
fn called<'t, 'a>(level: usize, rest: &'t [Entry<'a>]) -> Behind<'t, 'a>
    ensures gives { Passes (level ∷ level ∷ level ∷ level ∷ level ∷ level ∷ level ∷ level ∷ []) rest.now result }
    ensures within { OnOk result (level ≤ deepest) }
{
    let rest = three(level, rest)?;
    let rest = three(level, rest)?;
    pair(level, rest)
}

/// `derive_more::core::write!(formatter, format)`
pub(crate) fn write_call<'t, 'a>(
    format: &FmtArgs<'_>,
    formatter: &Ident<'_>,
    level: usize,
    rest: &'t [Entry<'a>],
) -> Behind<'t, 'a>
    ensures { Passes (spec.expr_levels level (output.write_expr formatter.now (fmt_view format.now))) rest.now result }
{
    let rest = called(level, rest)?;
    written_in_parens(format, level, rest)
}

fn written_in_parens<'t, 'a>(
    format: &FmtArgs<'_>,
    level: usize,
    rest: &'t [Entry<'a>],
) -> Behind<'t, 'a>
    ensures { Passes (grouped_levels level ((level + 1) ∷ (level + 1) ∷ spec.fmt_levels (level + 1) (fmt_view format.now))) rest.now result }
{
    let rest = token(level, rest)?;
    let rest = written(format, level + 1, rest)?;
    token(level, rest)
}

/// The formatter, a comma and a format.
fn written<'t, 'a>(format: &FmtArgs<'_>, level: usize, rest: &'t [Entry<'a>]) -> Behind<'t, 'a>
    ensures { Passes (level ∷ level ∷ spec.fmt_levels level (fmt_view format.now)) rest.now result }
{
    let rest = pair(level, rest)?;
    formatted(format, level, rest)
}

/// `derive_more::core::format_args!(format)`
pub(crate) fn format_call<'t, 'a>(
    format: &FmtArgs<'_>,
    level: usize,
    rest: &'t [Entry<'a>],
) -> Behind<'t, 'a>
    ensures { Passes (spec.expr_levels level (output.format_args (fmt_view format.now))) rest.now result }
{
    let rest = called(level, rest)?;
    formatted_in_parens(format, level, rest)
}

fn formatted_in_parens<'t, 'a>(
    format: &FmtArgs<'_>,
    level: usize,
    rest: &'t [Entry<'a>],
) -> Behind<'t, 'a>
    ensures { Passes (grouped_levels level (spec.fmt_levels (level + 1) (fmt_view format.now))) rest.now result }
{
    let rest = token(level, rest)?;
    let rest = formatted(format, level + 1, rest)?;
    token(level, rest)
}

/// The literal, and the arguments behind it.
fn formatted<'t, 'a>(format: &FmtArgs<'_>, level: usize, rest: &'t [Entry<'a>]) -> Behind<'t, 'a>
    ensures { Passes (spec.fmt_levels level (fmt_view format.now)) rest.now result }
{
    let rest = token(level, rest)?;
    arguments(format.args.as_slice(), level, rest)
}

/// Arguments, each behind a comma.
fn arguments<'t, 'a>(all: &[FmtArg<'_>], level: usize, rest: &'t [Entry<'a>]) -> Behind<'t, 'a>
    ensures { Passes (spaced_levels (level ∷ []) false (map (spec.fmt_arg_levels level) (map fmt_arg_view all.now))) rest.now result }
{
    let mut at = Ok(rest);
    for one in all {
        at = argument(one, level, at);
    }
    at
}

fn argument<'t, 'a>(one: &FmtArg<'_>, level: usize, at: Behind<'t, 'a>) -> Behind<'t, 'a>
    ensures { seen result ≡ pass_then (level ∷ spec.fmt_arg_levels level (fmt_arg_view one.now)) (seen at.entry) }
{
    let rest = token(level, at?)?;
    let rest = alias(&one.alias, level, rest)?;
    stream(&one.value.tokens, level, rest)
}

fn alias<'t, 'a>(alias: &Option<Ident<'_>>, level: usize, rest: &'t [Entry<'a>]) -> Behind<'t, 'a>
    ensures { Passes (spec.alias_levels level alias.now) rest.now result }
{
    match alias {
        None => Ok(rest),
        Some(_) => pair(level, rest),
    }
}

//! Patterns.
#![tactic(auto, using(crate::proofs::Following::pattern_steps))]

ghost use Rattle.std.specs.Prelude.{◌≡◌, ◌+◌, ◌∷◌, ◌++◌, [], cond, map, true};
ghost use Rattle.dm_output.specs.Output.{patterns_of, named_of};
ghost use Rattle.dm_output.specs.Views.{pattern_view, named_view};
ghost use Rattle.dm_levels.specs.Behind.{seen};
ghost use Rattle.dm_levels.specs.Levels as spec;
ghost use Rattle.dm_type_levels.specs.Passing.{Passes, given, pass_then};
ghost use Rattle.dm_type_levels.specs.TypeLevels.{grouped_levels, spaced_levels};

use dm_output::{Binding, NamedPattern, Pattern};
use dm_stream::{Entry, Seq};
use dm_type_levels::parts::{pair_if, separator};
use dm_type_levels::pass::{Behind, pair, token};
use dm_type_levels::ty::path;

fn binding<'t, 'a>(how: Binding, level: usize, rest: &'t [Entry<'a>]) -> Behind<'t, 'a>
    ensures { Passes (spec.binding_levels level how) rest.now result }
{
    match how {
        Binding::Plain => Ok(rest),
        Binding::Ref => token(level, rest),
        Binding::RefMut => pair(level, rest),
    }
}

#[cycle(pattern)]
fn pattern<'t, 'a>(tree: &Pattern<'_>, level: usize, rest: &'t [Entry<'a>]) -> Behind<'t, 'a>
    ensures { Passes (spec.pattern_levels level (pattern_view tree.now)) rest.now result }
{
    match tree {
        Pattern::Wild => token(level, rest),
        Pattern::Bind(how, _) => {
            let rest = binding(*how, level, rest)?;
            token(level, rest)
        }
        Pattern::Str(_) => token(level, rest),
        Pattern::Path(of) => path(of, level, rest),
        Pattern::Tuple(of, fields) => {
            let rest = path(of, level, rest)?;
            fields_in_parens(fields, level, rest)
        }
        Pattern::Named(of, fields, dots) => {
            let rest = path(of, level, rest)?;
            fields_in_braces(fields, *dots, level, rest)
        }
        Pattern::Pair(first, other) => {
            let rest = token(level, rest)?;
            let rest = pattern(first, level + 1, rest)?;
            let rest = second(other, level + 1, rest)?;
            token(level, rest)
        }
    }
}

/// The second pattern of a pair, with a comma before it.
#[cycle(pattern)]
fn second<'t, 'a>(tree: &Box<Pattern<'_>>, level: usize, rest: &'t [Entry<'a>]) -> Behind<'t, 'a>
    ensures { Passes (level ∷ spec.pattern_levels level (pattern_view tree.now.value)) rest.now result }
{
    let rest = token(level, rest)?;
    pattern(tree, level, rest)
}

#[cycle(pattern)]
fn fields_in_parens<'t, 'a>(
    all: &Seq<Pattern<'_>>,
    level: usize,
    rest: &'t [Entry<'a>],
) -> Behind<'t, 'a>
    ensures { Passes (grouped_levels level (spec.ended_levels (level + 1) (spec.each_pattern (level + 1) (patterns_of (map pattern_view all.now))))) rest.now result }
{
    let rest = token(level, rest)?;
    let rest = ended(all.as_slice(), level + 1, rest)?;
    token(level, rest)
}

#[cycle(pattern)]
fn fields_in_braces<'t, 'a>(
    all: &Seq<NamedPattern<'_>>,
    more: bool,
    level: usize,
    rest: &'t [Entry<'a>],
) -> Behind<'t, 'a>
    ensures { Passes (grouped_levels level (spec.ended_levels (level + 1) (spec.each_named (level + 1) (named_of (map named_view all.now))) ++ given more ((level + 1) ∷ (level + 1) ∷ []))) rest.now result }
{
    let rest = token(level, rest)?;
    let rest = fields(all.as_slice(), more, level + 1, rest)?;
    token(level, rest)
}

/// Fields, and `..` where there are more.
#[cycle(pattern)]
fn fields<'t, 'a>(
    all: &[NamedPattern<'_>],
    more: bool,
    level: usize,
    rest: &'t [Entry<'a>],
) -> Behind<'t, 'a>
    ensures { Passes (spec.ended_levels level (spec.each_named level (named_of (map named_view all.now))) ++ given more (level ∷ level ∷ [])) rest.now result }
{
    let rest = named(all, level, rest)?;
    pair_if(more, level, rest)
}

/// Patterns, each with a comma behind it.
#[cycle(pattern)]
fn ended<'t, 'a>(all: &[Pattern<'_>], level: usize, rest: &'t [Entry<'a>]) -> Behind<'t, 'a>
    ensures { Passes (spec.ended_levels level (spec.each_pattern level (patterns_of (map pattern_view all.now)))) rest.now result }
{
    let mut at = Ok(rest);
    for one in all {
        at = ended_one(one, level, at);
    }
    at
}

#[cycle(pattern)]
fn ended_one<'t, 'a>(one: &Pattern<'_>, level: usize, at: Behind<'t, 'a>) -> Behind<'t, 'a>
    ensures { seen result ≡ pass_then (spec.pattern_levels level (pattern_view one.now) ++ level ∷ []) (seen at.entry) }
{
    let rest = pattern(one, level, at?)?;
    token(level, rest)
}

/// Fields, each with a comma behind it.
#[cycle(pattern)]
fn named<'t, 'a>(all: &[NamedPattern<'_>], level: usize, rest: &'t [Entry<'a>]) -> Behind<'t, 'a>
    ensures { Passes (spec.ended_levels level (spec.each_named level (named_of (map named_view all.now)))) rest.now result }
{
    let mut at = Ok(rest);
    for one in all {
        at = named_one(one, level, at);
    }
    at
}

#[cycle(pattern)]
fn named_one<'t, 'a>(one: &NamedPattern<'_>, level: usize, at: Behind<'t, 'a>) -> Behind<'t, 'a>
    ensures { seen result ≡ pass_then ((level ∷ level ∷ spec.pattern_levels level (named_view one.now).1) ++ level ∷ []) (seen at.entry) }
{
    let rest = pair(level, at?)?;
    let rest = pattern(&one.pattern, level, rest)?;
    token(level, rest)
}

/// Patterns with `|` between them.
pub(crate) fn patterns<'t, 'a>(
    all: &[Pattern<'_>],
    level: usize,
    rest: &'t [Entry<'a>],
) -> Behind<'t, 'a>
    ensures { Passes (spaced_levels (level ∷ []) true (spec.each_pattern level (patterns_of (map pattern_view all.now)))) rest.now result }
{
    let mut at = Ok(rest);
    for (i, one) in all.iter().enumerate() {
        at = other(one, i == 0, level, at);
    }
    at
}

/// A pattern with `|` before it, but not before the first.
fn other<'t, 'a>(one: &Pattern<'_>, first: bool, level: usize, at: Behind<'t, 'a>) -> Behind<'t, 'a>
    ensures { seen result ≡ pass_then (cond first [] (level ∷ []) ++ spec.pattern_levels level (pattern_view one.now)) (seen at.entry) }
{
    let rest = separator(first, level, at?)?;
    pattern(one, level, rest)
}

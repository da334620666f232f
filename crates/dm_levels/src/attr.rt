//! Attributes of implementations and methods.
#![tactic(auto, using(crate::proofs::Following::level_steps))]

ghost use Rattle.std.specs.Prelude.{◌≡◌, ◌+◌, ◌∷◌, [], map};
ghost use Rattle.dm_levels.specs.Behind.{seen};
ghost use Rattle.dm_levels.specs.Levels as spec;
ghost use Rattle.dm_type_levels.specs.Passing.{Passes, pass_then};

use crate::parts::three;
use dm_output::ItemAttr;
use dm_stream::Entry;
use dm_type_levels::pass::{Behind, pair, token};

/// `allow` or `doc`, and a word in parentheses.
fn one_lint<'t, 'a>(level: usize, rest: &'t [Entry<'a>]) -> Behind<'t, 'a>
    ensures { Passes (spec.allowing level ((level + 1) ∷ [])) rest.now result }
{
    let rest = pair(level, rest)?;
    let rest = token(level + 1, rest)?;
    token(level, rest)
}

/// `allow(a, b)`
fn two_lints<'t, 'a>(level: usize, rest: &'t [Entry<'a>]) -> Behind<'t, 'a>
    ensures { Passes (spec.allowing level ((level + 1) ∷ (level + 1) ∷ (level + 1) ∷ [])) rest.now result }
{
    let rest = pair(level, rest)?;
    let rest = three(level + 1, rest)?;
    token(level, rest)
}

/// `allow(a::b)`
fn tool_lint<'t, 'a>(level: usize, rest: &'t [Entry<'a>]) -> Behind<'t, 'a>
    ensures { Passes (spec.allowing level ((level + 1) ∷ (level + 1) ∷ (level + 1) ∷ (level + 1) ∷ [])) rest.now result }
{
    let rest = pair(level, rest)?;
    let rest = four(level + 1, rest)?;
    token(level, rest)
}

fn four<'t, 'a>(level: usize, rest: &'t [Entry<'a>]) -> Behind<'t, 'a>
    ensures { Passes (level ∷ level ∷ level ∷ level ∷ []) rest.now result }
{
    let rest = pair(level, rest)?;
    pair(level, rest)
}

/// What stands between `[` and `]`.
fn inside<'t, 'a>(attr: ItemAttr, level: usize, rest: &'t [Entry<'a>]) -> Behind<'t, 'a>
    ensures { Passes (spec.attr_inside level attr) rest.now result }
{
    match attr {
        ItemAttr::AllowPrivateBounds
        | ItemAttr::AllowDeprecated
        | ItemAttr::AllowUnreachableCode
        | ItemAttr::AllowNonUpperCaseGlobals
        | ItemAttr::DocHidden => one_lint(level, rest),
        ItemAttr::AllowDeadCodePrivateBounds => two_lints(level, rest),
        ItemAttr::AllowUnusedUnit => tool_lint(level, rest),
        ItemAttr::AutomaticallyDerived | ItemAttr::Inline | ItemAttr::TrackCaller => {
            token(level, rest)
        }
    }
}

fn attr<'t, 'a>(attr: ItemAttr, level: usize, at: Behind<'t, 'a>) -> Behind<'t, 'a>
    ensures { seen result ≡ pass_then (spec.attr_levels level attr) (seen at.entry) }
{
    let rest = pair(level, at?)?;
    let rest = inside(attr, level + 1, rest)?;
    token(level, rest)
}

/// Attributes one behind the other.
pub(crate) fn attrs<'t, 'a>(all: &[ItemAttr], level: usize, rest: &'t [Entry<'a>]) -> Behind<'t, 'a>
    ensures { Passes (spec.in_turn (map (spec.attr_levels level) all.now)) rest.now result }
{
    let mut at = Ok(rest);
    for one in all {
        at = attr(*one, level, at);
    }
    at
}

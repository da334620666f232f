//! Lists of lifetimes.
#![tactic(auto)]

ghost use Rattle.std.specs.Prelude.{◌<◌, IfOk};
ghost use Rattle.dm_stream.specs.Cursors.{left, sound, SharesEnd};
ghost use Rattle.dm_ast.specs.Readers as spec;
ghost use Rattle.dm_ast.specs.PlainReaders as plain;
ghost use Rattle.dm_read.specs.DeclarationReaders.{read_lifetime_bounds};
ghost use Rattle.dm_ast.specs.Readers.{place, Reads};

use crate::list::{Rule, Stop, listed};
use crate::token::{Found, lifetime, punct, sees_word, word};
use dm_stream::{Cursor, Lifetime, Punctuated};
use std::alloc::Global;

/// A lifetime.
#[derive(Clone, Copy)]
struct LifetimeRule {
    alloc: Global,
}

impl<'a> Rule<'a> for LifetimeRule {
    ghost use Rattle.dm_stream.specs.declared.tokens.Lifetime as tokens;

    type Part = Lifetime<'a>;

    ghost Tree = { tokens.Lifetime };

    ghost view = { λ l. l };

    ghost usable = { λ _ _. Unit {0} };

    ghost reader = { λ _ w. spec.read_lifetime w };

    fn read<'t>(&self, level: usize, c: Cursor<'t, 'a>) -> Found<'t, 'a, Lifetime<'a>> {
        let (found, rest) = lifetime(level, c)?;
        let own = found.clone_in(self.alloc)?;
        Ok((own, rest))
    }
}

/// Lifetimes with commas between, up to `>`.
#[tactic(auto, using(crate::proofs::Mapped::mapped_steps))]
fn lifetimes<'t, 'a>(
    alloc: Global,
    level: usize,
    c: Cursor<'t, 'a>,
) -> Found<'t, 'a, Punctuated<Lifetime<'a>>>
    requires { sound c }
    ensures reads { Reads (λ l. l) (plain.read_lifetimes (place level c.entry) (left c.entry)) result }
    ensures place { IfOk result (λ r. SharesEnd c.entry r.1) }
{
    listed(alloc, &LifetimeRule { alloc }, ',', Stop::Angle, level, c)
}

/// `for<..>`.
fn some_for<'t, 'a>(
    alloc: Global,
    level: usize,
    c: Cursor<'t, 'a>,
) -> Found<'t, 'a, Punctuated<Lifetime<'a>>>
    requires here { sound c }
    requires fits { level < 1000 }
    ensures reads { Reads (λ l. l) (plain.read_some_for (place level c.entry) (left c.entry)) result }
    ensures place { IfOk result (λ r. SharesEnd c.entry r.1) }
{
    let behind = word("for", level, c)?;
    let begun = punct('<', level, behind)?;
    let (found, left) = lifetimes(alloc, level + 1, begun)?;
    let rest = punct('>', level, left)?;
    Ok((found, rest))
}

/// `for<..>` where it comes next.
pub fn for_lifetimes<'t, 'a>(
    alloc: Global,
    level: usize,
    c: Cursor<'t, 'a>,
) -> Found<'t, 'a, Option<Punctuated<Lifetime<'a>>>>
    requires here { sound c }
    requires fits { level < 1000 }
    ensures reads { Reads (λ l. l) (plain.read_for (place level c.entry) (left c.entry)) result }
    ensures place { IfOk result (λ r. SharesEnd c.entry r.1) }
{
    if !sees_word("for", c) {
        return Ok((None, c));
    }
    let (found, rest) = some_for(alloc, level, c)?;
    Ok((Some(found), rest))
}

/// Lifetimes with `+` between.
#[tactic(auto, using(crate::proofs::Mapped::mapped_steps))]
pub fn lifetime_bounds<'t, 'a>(
    alloc: Global,
    level: usize,
    c: Cursor<'t, 'a>,
) -> Found<'t, 'a, Punctuated<Lifetime<'a>>>
    requires { sound c }
    ensures reads { Reads (λ ls. ls) (read_lifetime_bounds (place level c.entry) (left c.entry)) result }
    ensures place { IfOk result (λ r. SharesEnd c.entry r.1) }
{
    listed(
        alloc,
        &LifetimeRule { alloc },
        '+',
        Stop::Lifetimes,
        level,
        c,
    )
}

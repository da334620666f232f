//! Visibilities.
#![tactic(auto)]

ghost use Rattle.std.specs.Prelude.{◌≡◌, ◌<◌, IfOk, codes};
ghost use Rattle.dm_stream.specs.Cursors.{left, sound, SharesEnd};
ghost use Rattle.dm_ast.specs.TypeGrammar as grammar;
ghost use Rattle.dm_ast.specs.DeclarationGrammar as declarations;
ghost use Rattle.dm_ast.specs.Readers as spec;
ghost use Rattle.dm_ast.specs.Readers.{place, Reads, ◌next◌};
ghost use Rattle.dm_ast.specs.PlainReaders as plain;

use crate::group::{close, open};
use crate::macro_call::{behind_colons, behind_idents};
use crate::parts::plain_path;
use crate::token::{Found, at_end, is_word, sees_word, word};
use dm_ast::{PlainPath, Vis};
use dm_stream::{Cursor, Delim};
use std::alloc::Global;

/// Whether a path of identifiers is all that is left.
#[tactic(auto, using(crate::proofs::Restrictions::whole_steps))]
fn is_whole(c: Cursor<'_, '_>) -> bool
    requires { sound c }
    ensures { result ≡ declarations.is_whole (grammar.behind_plain (left c.entry)) }
{
    match behind_colons(c).ident() {
        Some((_, rest)) => at_end(behind_idents(rest)),
        None => false,
    }
}

/// Whether what is left is `crate`, `self`, `super` or `in` and a path.
#[tactic(auto, using(crate::proofs::Restrictions::restriction_steps))]
fn is_restriction(c: Cursor<'_, '_>) -> bool
    requires { sound c }
    ensures { result ≡ declarations.is_restriction (left c.entry) }
{
    match c.ident() {
        Some((ident, rest)) => {
            if at_end(rest) {
                (is_word("crate", ident) || is_word("self", ident)) || is_word("super", ident)
            } else {
                is_word("in", ident) && is_whole(rest)
            }
        }
        None => false,
    }
}

/// Whether a restriction in parentheses comes next.
#[tactic(auto, using(crate::proofs::Restrictions::inside_steps))]
fn sees_restriction(c: Cursor<'_, '_>) -> bool
    requires { sound c }
    ensures { result ≡ declarations.sees_restriction (left c.entry) }
{
    match c.group(Delim::Paren) {
        Some((inside, _)) => is_restriction(inside),
        None => false,
    }
}

/// `in` and a path.
fn in_path<'t, 'a>(alloc: Global, level: usize, c: Cursor<'t, 'a>) -> Found<'t, 'a, PlainPath<'a>>
    requires { sound c }
    ensures reads { Reads (λ p. p) ((spec.read_word (codes "in") (place level c.entry) next plain.read_plain (place level c.entry)) (left c.entry)) result }
    ensures place { IfOk result (λ r. SharesEnd c.entry r.1) }
{
    let behind = word("in", level, c)?;
    plain_path(alloc, level, behind)
}

/// The inside of a restriction.
fn within<'t, 'a>(alloc: Global, level: usize, c: Cursor<'t, 'a>) -> Found<'t, 'a, Vis<'a>>
    requires { sound c }
    ensures reads { Reads (λ v. v) (plain.read_within (place level c.entry) (left c.entry)) result }
    ensures place { IfOk result (λ r. SharesEnd c.entry r.1) }
{
    if sees_word("crate", c) {
        let rest = word("crate", level, c)?;
        return Ok((Vis::Crate, rest));
    }
    if sees_word("self", c) {
        let rest = word("self", level, c)?;
        return Ok((Vis::SelfOnly, rest));
    }
    if sees_word("super", c) {
        let rest = word("super", level, c)?;
        return Ok((Vis::Super, rest));
    }
    let (found, rest) = in_path(alloc, level, c)?;
    Ok((Vis::In(found), rest))
}

/// What follows `pub`.
fn restriction<'t, 'a>(alloc: Global, level: usize, c: Cursor<'t, 'a>) -> Found<'t, 'a, Vis<'a>>
    requires here { sound c }
    requires fits { level < 1000 }
    ensures reads { Reads (λ v. v) (plain.read_restriction (place level c.entry) (left c.entry)) result }
    ensures place { IfOk result (λ r. SharesEnd c.entry r.1) }
{
    if !sees_restriction(c) {
        return Ok((Vis::Public, c));
    }
    let (inside, rest) = open(Delim::Paren, level, c)?;
    let (found, left) = within(alloc, level + 1, inside)?;
    close(left)?;
    Ok((found, rest))
}

/// `pub` and what follows.
fn some_visibility<'t, 'a>(alloc: Global, level: usize, c: Cursor<'t, 'a>) -> Found<'t, 'a, Vis<'a>>
    requires here { sound c }
    requires fits { level < 1000 }
    ensures reads { Reads (λ v. v) ((spec.read_word (codes "pub") (place level c.entry) next plain.read_restriction (place level c.entry)) (left c.entry)) result }
    ensures place { IfOk result (λ r. SharesEnd c.entry r.1) }
{
    let behind = word("pub", level, c)?;
    restriction(alloc, level, behind)
}

/// A visibility where one comes next.
pub fn visibility<'t, 'a>(
    alloc: Global,
    level: usize,
    c: Cursor<'t, 'a>,
) -> Found<'t, 'a, Option<Vis<'a>>>
    requires here { sound c }
    requires fits { level < 1000 }
    ensures reads { Reads (λ v. v) (plain.read_visibility (place level c.entry) (left c.entry)) result }
    ensures place { IfOk result (λ r. SharesEnd c.entry r.1) }
{
    if !sees_word("pub", c) {
        return Ok((None, c));
    }
    let (found, rest) = some_visibility(alloc, level, c)?;
    Ok((Some(found), rest))
}

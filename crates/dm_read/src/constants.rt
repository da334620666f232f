//! Constants and visibilities.
#![tactic(auto)]

ghost use Rattle.std.specs.Prelude.{◌≡◌, ◌<◌, IfOk};
ghost use Rattle.dm_stream.specs.Cursors.{left, sound, SharesEnd};
ghost use Rattle.dm_ast.specs.PlainReaders as plain;
ghost use Rattle.dm_ast.specs.Readers.{place, Reads};

use crate::parts::kept_in;
use crate::token::{Found, literal, punct, sees, sees_group, sees_literal};
use crate::words::{is_truth, name, truth};
use dm_ast::ConstArg;
use dm_stream::{Cursor, Delim, Literal};
use std::alloc::Global;

/// `-` where it comes next.
fn minus<'t, 'a>(level: usize, c: Cursor<'t, 'a>) -> Found<'t, 'a, bool>
    requires { sound c }
    ensures reads { Reads (λ b. b) (plain.read_minus (place level c.entry) (left c.entry)) result }
    ensures place { IfOk result (λ r. SharesEnd c.entry r.1) }
{
    if !sees('-', c) {
        return Ok((false, c));
    }
    let rest = punct('-', level, c)?;
    Ok((true, rest))
}

/// A literal, perhaps behind `-`.
fn signed<'t, 'a>(
    alloc: Global,
    level: usize,
    c: Cursor<'t, 'a>,
) -> Found<'t, 'a, (bool, Literal<'a>)>
    requires { sound c }
    ensures reads { Reads (λ v. v) (plain.read_signed (place level c.entry) (left c.entry)) result }
    ensures place { IfOk result (λ r. SharesEnd c.entry r.1) }
{
    let (negative, behind) = minus(level, c)?;
    let (found, rest) = literal(level, behind)?;
    let own = found.clone_in(alloc)?;
    Ok(((negative, own), rest))
}

/// Whether `true` or `false` comes next.
#[tactic(auto, using(crate::proofs::Seeing::truth_steps))]
pub fn sees_truth(c: Cursor<'_, '_>) -> bool
    requires { sound c }
    ensures { result ≡ plain.sees_truth (left c.entry) }
{
    match c.ident() {
        Some((ident, _)) => is_truth(ident),
        None => false,
    }
}

/// A constant: a literal, `true` or `false`, a block or a name.
pub fn constant<'t, 'a>(
    alloc: Global,
    level: usize,
    c: Cursor<'t, 'a>,
) -> Found<'t, 'a, ConstArg<'a>>
    requires here { sound c }
    requires fits { level < 1000 }
    ensures reads { Reads (λ v. v) (plain.read_constant (place level c.entry) (left c.entry)) result }
    ensures place { IfOk result (λ r. SharesEnd c.entry r.1) }
{
    if sees('-', c) || sees_literal(c) {
        let ((negative, found), rest) = signed(alloc, level, c)?;
        return Ok((ConstArg::Literal(negative, found), rest));
    }
    if sees_group(Delim::Brace, c) {
        let (found, rest) = kept_in(alloc, Delim::Brace, level, c)?;
        return Ok((ConstArg::Block(found), rest));
    }
    if sees_truth(c) {
        let (found, rest) = truth(level, c)?;
        let own = found.clone_in(alloc)?;
        return Ok((ConstArg::Bool(own), rest));
    }
    let (found, rest) = name(level, c)?;
    let own = found.clone_in(alloc)?;
    Ok((ConstArg::Name(own), rest))
}

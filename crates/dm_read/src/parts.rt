//! The parts that hold no types.
#![tactic(auto)]

ghost use Rattle.std.specs.Prelude.{◌<◌, IfOk};
ghost use Rattle.dm_stream.specs.Cursors.{left, sound, SharesEnd};
ghost use Rattle.dm_ast.specs.Readers as spec;
ghost use Rattle.dm_ast.specs.PlainReaders as plain;
ghost use Rattle.dm_ast.specs.Readers.{place, Reads};

use crate::group::{close, delim, open};
use crate::list::{Link, Rule, chained};
use crate::range::range_between;
use crate::rest::rest_of;
use crate::token::{
    Found, at_end, colons, equals, ident, punct, refused, sees, sees_colons, sees_equals,
};
use dm_ast::{AttrArgs, Attribute, Opaque, PlainPath};
use dm_stream::{Cursor, Delim, Ident, Seq, TokenStream};
use std::alloc::Global;

/// Identifiers of any kind.
#[derive(Clone, Copy)]
pub struct IdentRule {
    alloc: Global,
}

impl<'a> Rule<'a> for IdentRule {
    ghost use Rattle.dm_stream.specs.declared.tokens.Ident as tokens;

    type Part = Ident<'a>;

    ghost Tree = { tokens.Ident };

    ghost view = { λ i. i };

    ghost usable = { λ _ _. Unit {0} };

    ghost reader = { λ _ w. spec.read_any w };

    fn read<'t>(&self, level: usize, c: Cursor<'t, 'a>) -> Found<'t, 'a, Ident<'a>> {
        let (found, rest) = ident(level, c)?;
        let own = found.clone_in(self.alloc)?;
        Ok((own, rest))
    }
}

/// `::` where it comes next.
pub fn leading<'t, 'a>(level: usize, c: Cursor<'t, 'a>) -> Found<'t, 'a, bool>
    requires { sound c }
    ensures reads { Reads (λ b. b) (plain.read_leading (place level c.entry) (left c.entry)) result }
    ensures place { IfOk result (λ r. SharesEnd c.entry r.1) }
{
    if !sees_colons(c) {
        return Ok((false, c));
    }
    let rest = colons(level, c)?;
    Ok((true, rest))
}

/// Identifiers with `::` between.
#[tactic(auto, using(crate::proofs::Mapped::mapped_steps))]
fn idents<'t, 'a>(alloc: Global, level: usize, c: Cursor<'t, 'a>) -> Found<'t, 'a, Seq<Ident<'a>>>
    requires { sound c }
    ensures reads { Reads (λ l. l) (plain.read_idents (place level c.entry) (left c.entry)) result }
    ensures place { IfOk result (λ r. SharesEnd c.entry r.1) }
{
    chained(alloc, &IdentRule { alloc }, Link::Colons, level, c)
}

/// A path of identifiers.
pub fn plain_path<'t, 'a>(
    alloc: Global,
    level: usize,
    c: Cursor<'t, 'a>,
) -> Found<'t, 'a, PlainPath<'a>>
    requires { sound c }
    ensures reads { Reads (λ p. p) (plain.read_plain (place level c.entry) (left c.entry)) result }
    ensures place { IfOk result (λ r. SharesEnd c.entry r.1) }
{
    let (leading_colon, rest) = leading(level, c)?;
    let (segments, rest) = idents(alloc, level, rest)?;
    Ok((
        PlainPath {
            leading_colon,
            segments,
        },
        rest,
    ))
}

/// The inside of a group with this delimiter, as it is.
pub fn kept_in<'t, 'a>(
    alloc: Global,
    delim: Delim,
    level: usize,
    c: Cursor<'t, 'a>,
) -> Found<'t, 'a, TokenStream<'a>>
    requires here { sound c }
    requires fits { level < 1000 }
    ensures reads { Reads (λ s. s) (spec.read_group delim spec.read_rest (place level c.entry) (left c.entry)) result }
    ensures place { IfOk result (λ r. SharesEnd c.entry r.1) }
{
    let (inside, rest) = open(delim, level, c)?;
    let (kept, left) = rest_of(alloc, level + 1, inside)?;
    close(left)?;
    Ok((kept, rest))
}

/// A group with any delimiter, and its inside as it is.
pub fn kept<'t, 'a>(
    alloc: Global,
    level: usize,
    c: Cursor<'t, 'a>,
) -> Found<'t, 'a, (Delim, TokenStream<'a>)>
    requires here { sound c }
    requires fits { level < 1000 }
    ensures reads { Reads (λ v. v) (plain.read_kept (place level c.entry) (left c.entry)) result }
    ensures place { IfOk result (λ r. SharesEnd c.entry r.1) }
{
    let Some(found) = delim(c) else {
        return Err(refused(c));
    };
    let (stream, rest) = kept_in(alloc, found, level, c)?;
    Ok(((found, stream), rest))
}

/// All that is left, one tree at least.
pub fn opaque<'t, 'a>(alloc: Global, level: usize, c: Cursor<'t, 'a>) -> Found<'t, 'a, Opaque<'a>>
    requires { sound c }
    ensures reads { Reads (λ o. o) (plain.read_opaque (place level c.entry) (left c.entry)) result }
    ensures place { IfOk result (λ r. SharesEnd c.entry r.1) }
{
    if at_end(c) {
        return Err(refused(c));
    }
    let (tokens, rest) = rest_of(alloc, level, c)?;
    Ok((Opaque { tokens }, rest))
}

/// `= TOKENS`.
fn value<'t, 'a>(alloc: Global, level: usize, c: Cursor<'t, 'a>) -> Found<'t, 'a, Opaque<'a>>
    requires { sound c }
    ensures reads { Reads (λ o. o) (plain.read_value (place level c.entry) (left c.entry)) result }
    ensures place { IfOk result (λ r. SharesEnd c.entry r.1) }
{
    let rest = equals(level, c)?;
    opaque(alloc, level, rest)
}

/// What follows the path of an attribute.
fn arguments<'t, 'a>(alloc: Global, level: usize, c: Cursor<'t, 'a>) -> Found<'t, 'a, AttrArgs<'a>>
    requires here { sound c }
    requires fits { level < 1000 }
    ensures reads { Reads (λ a. a) (plain.read_args (place level c.entry) (left c.entry)) result }
    ensures place { IfOk result (λ r. SharesEnd c.entry r.1) }
{
    if at_end(c) {
        return Ok((AttrArgs::Absent, c));
    }
    if sees_equals(c) {
        let (found, rest) = value(alloc, level, c)?;
        return Ok((AttrArgs::Value(found), rest));
    }
    let ((delim, stream), rest) = kept(alloc, level, c)?;
    Ok((AttrArgs::List(delim, stream), rest))
}

/// The inside of an attribute's brackets.
fn inside<'t, 'a>(
    alloc: Global,
    level: usize,
    c: Cursor<'t, 'a>,
) -> Found<'t, 'a, (PlainPath<'a>, AttrArgs<'a>)>
    requires here { sound c }
    requires fits { level < 1000 }
    ensures reads { Reads (λ v. v) (plain.read_inside (place level c.entry) (left c.entry)) result }
    ensures place { IfOk result (λ r. SharesEnd c.entry r.1) }
{
    let (path, rest) = plain_path(alloc, level, c)?;
    let (args, rest) = arguments(alloc, level, rest)?;
    Ok(((path, args), rest))
}

/// `#[..]` without its range.
fn bracketed<'t, 'a>(
    alloc: Global,
    level: usize,
    c: Cursor<'t, 'a>,
) -> Found<'t, 'a, (PlainPath<'a>, AttrArgs<'a>)>
    requires here { sound c }
    requires fits { level < 999 }
    ensures reads { Reads (λ v. v) (plain.read_bracketed (place level c.entry) (left c.entry)) result }
    ensures place { IfOk result (λ r. SharesEnd c.entry r.1) }
{
    let behind = punct('#', level, c)?;
    let (within, rest) = open(Delim::Bracket, level, behind)?;
    let (found, left) = inside(alloc, level + 1, within)?;
    close(left)?;
    Ok((found, rest))
}

/// An attribute.
pub fn attribute<'t, 'a>(
    alloc: Global,
    level: usize,
    c: Cursor<'t, 'a>,
) -> Found<'t, 'a, Attribute<'a>>
    requires here { sound c }
    requires fits { level < 999 }
    ensures reads { Reads (λ a. a) (plain.read_attribute (place level c.entry) (left c.entry)) result }
    ensures place { IfOk result (λ r. SharesEnd c.entry r.1) }
{
    let ((path, args), rest) = bracketed(alloc, level, c)?;
    let span = range_between(c, rest);
    Ok((Attribute { path, args, span }, rest))
}

/// The attributes that come next.
pub fn attributes<'t, 'a>(
    alloc: Global,
    level: usize,
    c: Cursor<'t, 'a>,
) -> Found<'t, 'a, Seq<Attribute<'a>>>
    requires here { sound c }
    requires fits { level < 999 }
    ensures reads { Reads (λ l. l) (plain.read_attributes (place level c.entry) (left c.entry)) result }
    ensures place { IfOk result (λ r. SharesEnd c.entry r.1) }
{
    let mut items = Seq::new(alloc);
    let mut rest = c;
    for _turn in 0..c.len() + 1 {
        if !sees('#', rest) {
            return Ok((items, rest));
        }
        let (item, next) = attribute(alloc, level, rest)?;
        items.add(item)?;
        rest = next;
    }
    Err(refused(rest))
}

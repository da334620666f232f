//! Lists of parts, whatever the parts are.

ghost use Rattle.std.specs.Prelude.{◌≡◌, ℕ, Result, IfOk, map};
ghost use Rattle.dm_stream.specs.Trees.{Trees};
ghost use Rattle.dm_stream.specs.Cursors.{left, sound, SharesEnd};
ghost use Rattle.dm_stream.specs.declared.error.Refusal.{Refusal};
ghost use Rattle.dm_ast.specs.Spelling.{Where};
ghost use Rattle.dm_ast.specs.Readers as spec;
ghost use Rattle.dm_ast.specs.Readers.{place, Reads};
ghost use Rattle.dm_ast.specs.Readers.{Passes, ◌next◌};
ghost use Rattle.dm_read.specs.Stops.{stops, list_view, begins_link, reads_link};

use crate::token::{
    Found, at_end, colons, punct, refused, sees, sees_colons, sees_group, sees_lifetime,
};
use crate::words::sees_bound;
use dm_stream::{Cursor, Delim, Punctuated, Read, Seq};
use std::alloc::Global;

/// Reads one part.
pub trait Rule<'a> {
    /// What the program holds of a part.
    type Part: Drop;

    /// What a part is as plain data.
    ghost Tree: { Type 0 };

    ghost view: { Self.Part → Tree };

    /// What the rule itself has to meet at a level.
    ghost usable: { Self → ℕ → Type 0 };

    ghost reader: { Self → Where → Trees → Result (Tree × Trees) Refusal };

    fn read<'t>(&self, level: usize, c: Cursor<'t, 'a>) -> Found<'t, 'a, Self::Part>
        requires here { sound c }
        requires can { usable self.now level }
        ensures reads { Reads view (reader self.now (place level c.entry) (left c.entry)) result }
        ensures place { IfOk result (λ r. SharesEnd c.entry r.1) };
}

/// Where a list ends.
#[derive(Clone, Copy)]
pub enum Stop {
    /// At the end of the trees.
    End,
    /// At `>`.
    Angle,
    /// Where no bound comes next.
    Bounds,
    /// Where no lifetime comes next.
    Lifetimes,
    /// Where predicates end: at the end, at `{..}` and at `;`.
    Where,
}

fn ends(stop: Stop, c: Cursor<'_, '_>) -> bool
    requires { sound c }
    ensures { result ≡ stops stop (left c.entry) }
{
    match stop {
        Stop::End => at_end(c),
        Stop::Angle => sees('>', c),
        Stop::Bounds => !sees_bound(c),
        Stop::Lifetimes => !sees_lifetime(c),
        Stop::Where => (at_end(c) || sees_group(Delim::Brace, c)) || sees(';', c),
    }
}

/// Parts with a separator between, and perhaps one behind the last, up to where the list ends.
pub fn listed<'t, 'a, R: Rule<'a>>(
    alloc: Global,
    rule: &R,
    separator: char,
    stop: Stop,
    level: usize,
    c: Cursor<'t, 'a>,
) -> Found<'t, 'a, Punctuated<R::Part>>
    requires here { sound c }
    requires can { R.usable rule.now level }
    ensures reads { Reads (list_view R.view) (spec.read_list (place level c.entry) separator (stops stop) (R.reader rule.now (place level c.entry)) (left c.entry)) result }
    ensures place { IfOk result (λ r. SharesEnd c.entry r.1) }
{
    let mut items = Seq::new(alloc);
    let mut rest = c;
    let mut trailing = false;
    for _turn in 0..c.len() + 1 {
        if ends(stop, rest) {
            return Ok((Punctuated { items, trailing }, rest));
        }
        let (item, next) = rule.read(level, rest)?;
        items.add(item)?;
        if !sees(separator, next) {
            return Ok((
                Punctuated {
                    items,
                    trailing: false,
                },
                next,
            ));
        }
        rest = punct(separator, level, next)?;
        trailing = true;
    }
    Err(refused(rest))
}

/// What stands between the parts of a chain.
#[derive(Clone, Copy)]
pub enum Link {
    /// `::`.
    Colons,
    /// `+`.
    Plus,
}

fn begins(link: Link, c: Cursor<'_, '_>) -> bool
    requires { sound c }
    ensures { result ≡ begins_link link (left c.entry) }
{
    match link {
        Link::Colons => sees_colons(c),
        Link::Plus => sees('+', c),
    }
}

fn past<'t, 'a>(link: Link, level: usize, c: Cursor<'t, 'a>) -> Read<Cursor<'t, 'a>>
    requires { sound c }
    ensures reads { Passes (reads_link link (place level c.entry) (left c.entry)) result }
    ensures place { IfOk result (λ r. SharesEnd c.entry r) }
{
    match link {
        Link::Colons => colons(level, c),
        Link::Plus => punct('+', level, c),
    }
}

/// A link and the part behind it.
fn linked<'t, 'a, R: Rule<'a>>(
    rule: &R,
    link: Link,
    level: usize,
    c: Cursor<'t, 'a>,
) -> Found<'t, 'a, R::Part>
    requires here { sound c }
    requires can { R.usable rule.now level }
    ensures reads { Reads R.view ((reads_link link (place level c.entry) next R.reader rule.now (place level c.entry)) (left c.entry)) result }
    ensures place { IfOk result (λ r. SharesEnd c.entry r.1) }
{
    let rest = past(link, level, c)?;
    rule.read(level, rest)
}

/// Goes on with a chain, as long as links come.
fn continued<'t, 'a, R: Rule<'a>>(
    rule: &R,
    link: Link,
    level: usize,
    begun: Seq<R::Part>,
    c: Cursor<'t, 'a>,
) -> Found<'t, 'a, Seq<R::Part>>
    requires here { sound c }
    requires can { R.usable rule.now level }
    ensures reads { Reads (map R.view) (spec.read_repeated (place level c.entry) (begins_link link) (reads_link link (place level c.entry) next R.reader rule.now (place level c.entry)) (map R.view begun) (left c.entry)) result }
    ensures place { IfOk result (λ r. SharesEnd c.entry r.1) }
{
    let mut items = begun;
    let mut rest = c;
    for _turn in 0..c.len() + 1 {
        if !begins(link, rest) {
            return Ok((items, rest));
        }
        let (item, next) = linked(rule, link, level, rest)?;
        items.add(item)?;
        rest = next;
    }
    Err(refused(rest))
}

/// One part at least, and a link before each other.
pub fn chained<'t, 'a, R: Rule<'a>>(
    alloc: Global,
    rule: &R,
    link: Link,
    level: usize,
    c: Cursor<'t, 'a>,
) -> Found<'t, 'a, Seq<R::Part>>
    requires here { sound c }
    requires can { R.usable rule.now level }
    ensures reads { Reads (map R.view) (spec.read_chain (place level c.entry) (reads_link link (place level c.entry)) (begins_link link) (R.reader rule.now (place level c.entry)) (left c.entry)) result }
    ensures place { IfOk result (λ r. SharesEnd c.entry r.1) }
{
    let (first, rest) = rule.read(level, c)?;
    let mut begun = Seq::new(alloc);
    begun.add(first)?;
    continued(rule, link, level, begun, rest)
}

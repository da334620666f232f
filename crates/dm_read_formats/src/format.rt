//! Formats and their arguments.
#![tactic(auto, using(crate::proofs::FormatSteps::format_steps))]

ghost use Rattle.std.specs.Prelude.{◌≡◌, None, Some, MatchOption, IfSome, map};
ghost use Rattle.dm_stream.specs.Cursors.{left, sound};
ghost use Rattle.dm_reread.specs.Reading as plain;
ghost use Rattle.dm_reread.specs.ReadBack.{leaves};
ghost use Rattle.dm_read_places.specs.Prelude.{fmt_arg_view, fmt_view, next, Reads, ReadsWhole, rows};
ghost use Rattle.dm_read_formats.specs.Values.{is_alias, Aliased};

use crate::opaque::run;
use dm_input::join::joined;
use dm_output::{FmtArg, FmtArgs};
use dm_read::words::is_name;
use dm_read_places::list::{Rule, Turn, repeated};
use dm_read_places::place::Place;
use dm_stream::{Cursor, Ident, Made, Punct, Read, Seq, Spacing};

fn is_alone(spacing: Spacing) -> bool
    ensures { result ≡ plain.is_alone spacing }
{
    match spacing {
        Spacing::Alone => true,
        Spacing::Joint => false,
    }
}

/// Whether a name and a punct are `name =`.
fn is_named(ident: &Ident<'_>, punct: Punct) -> bool
    ensures { result ≡ is_alias ident.now punct }
{
    (is_alone(punct.spacing) && punct.ch == '=') && is_name(ident)
}

/// The name in front of a `=` that stands alone, and the place behind that.
fn front_alias<'t, 'a>(c: Cursor<'t, 'a>) -> Option<(&'t Ident<'a>, Cursor<'t, 'a>)>
    requires { sound c }
    ensures gives { MatchOption result (plain.alias_of (left c.entry) ≡ None) (λ r. plain.alias_of (left c.entry) ≡ Some (r.0.now, left r.1)) }
    ensures place { IfSome result (λ r. sound r.1) }
{
    let (ident, rest) = c.ident()?;
    let (punct, rest) = rest.punct()?;
    if !is_named(ident, *punct) {
        return None;
    }
    Some((ident, rest))
}

/// Passes a name in front of a `=` that stands alone where both come next, and gives the name.
fn alias<'a>(place: &mut Place<'_, 'a>) -> Made<Option<Ident<'a>>>
    ensures { Aliased place.old result place.new }
{
    let Some((ident, rest)) = front_alias(place.cursor()) else {
        return Ok(None);
    };
    let own = ident.clone_in(place.alloc())?;
    place.go(rest);
    Ok(Some(own))
}

/// An argument of a format.
fn argument<'a>(place: &mut Place<'_, 'a>) -> Read<FmtArg<'a>>
    ensures { Reads fmt_arg_view (plain.read_fmt_arg leaves) place.old result place.new }
{
    let alias = alias(place)?;
    let (alias, value) = joined(alias, run(place))?;
    Ok(FmtArg { alias, value })
}

/// Arguments of a format, with a comma before each.
#[derive(Drop)]
struct ArgumentRule {}

impl<'a> Rule<'a> for ArgumentRule {
    ghost use Rattle.dm_output.specs.Output.{FmtArgTree};
    ghost use Rattle.dm_output.specs.Views.{fmt_arg_view};
    ghost use Rattle.dm_read_formats.specs.Formats.{fmt_turn};

    type Part = FmtArg<'a>;

    type Last = ();

    ghost Tree = { FmtArgTree };

    ghost view = { fmt_arg_view };

    ghost usable = { λ r. Unit {0} };

    ghost reader = { λ r. fmt_turn };

    fn turn(&self, _fuel: usize, place: &mut Place<'_, 'a>) -> Read<Turn<FmtArg<'a>, ()>> {
        if place.at_end() {
            return Ok(Turn::End(()));
        }
        place.comma()?;
        Ok(Turn::One(argument(place)?))
    }
}

/// Arguments of a format, to the end.
fn arguments<'a>(fuel: usize, place: &mut Place<'_, 'a>) -> Read<Seq<FmtArg<'a>>>
    ensures { ReadsWhole (map fmt_arg_view) (rows fuel).fmt_args place.old result }
{
    let (found, _) = repeated(&ArgumentRule {}, fuel, place)?;
    Ok(found)
}

/// A format and its arguments, to the end.
pub fn format<'a>(fuel: usize, place: &mut Place<'_, 'a>) -> Read<FmtArgs<'a>>
    ensures { ReadsWhole fmt_view (λ ts. plain.read_fmt (rows fuel) (next ts)) place.old result }
{
    let Some(found) = place.literal() else {
        return Err(place.refused());
    };
    let lit = found.clone_in(place.alloc())?;
    let (lit, args) = joined(lit, arguments(fuel, place))?;
    Ok(FmtArgs { lit, args })
}

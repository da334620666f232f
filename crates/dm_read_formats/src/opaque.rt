//! What isn't read: all that is left at a place, or the value of a format's argument.
#![tactic(auto, using(crate::proofs::RunSteps::run_steps))]

ghost use Rattle.std.specs.Prelude.{◌≡◌, IfOk};
ghost use Rattle.dm_stream.specs.Cursors.{left, sound};
ghost use Rattle.dm_reread.specs.RunLeaves as plain;
ghost use Rattle.dm_reread.specs.ExactLeaves.{closed_run};
ghost use Rattle.dm_read_places.specs.Prelude.{opaque_view, Reads};
ghost use Rattle.dm_read_formats.specs.Values.{closes};

use dm_ast::Opaque;
use dm_expr::{pair_size, take_until1};
use dm_read_places::place::Place;
use dm_stream::{Cursor, Made, Read, TokenStream};

/// All that is left, as it stands.
pub fn kept<'a>(place: &Place<'_, 'a>) -> Made<Opaque<'a>>
    ensures { IfOk result (λ o. opaque_view o ≡ place.now) }
{
    Ok(Opaque {
        tokens: TokenStream::from_cursor(place.alloc(), place.cursor())?,
    })
}

/// Whether the next tree leaves nothing open that what follows could close: no `|`, and no `<` without its `>`.
fn front_closes(c: Cursor<'_, '_>) -> bool
    requires { sound c }
    ensures { result ≡ closes (left c.entry) }
{
    match c.punct() {
        Some((punct, _)) => {
            (punct.ch != '<' || pair_size('<', '>', c).is_some()) && punct.ch != '|'
        }
        None => true,
    }
}

/// Whether the trees that are left leave nothing open.
fn is_closed(c: Cursor<'_, '_>) -> bool
    requires { sound c }
    ensures { result ≡ plain.is_closed (left c.entry) }
{
    let mut at = c;
    while let Some((_, rest)) = at.token_tree() {
        if !front_closes(at) {
            return false;
        }
        at = rest;
    }
    true
}

/// The value of a format's argument, up to a comma or the end. Refuses where none stands there, or one leaves a `<` or a `|` open.
pub fn run<'a>(place: &mut Place<'_, 'a>) -> Read<Opaque<'a>>
    ensures { Reads opaque_view closed_run place.old result place.new }
{
    let Some((piece, rest)) = take_until1(place.cursor()) else {
        return Err(place.refused());
    };
    if !is_closed(piece.cursor()) {
        return Err(place.refused());
    }
    let found = kept(&Place::new(place.alloc(), piece.cursor()))?;
    place.go(rest);
    Ok(found)
}

//! What is read has just the tokens that were passed.
#![tactic(auto)]

ghost use Rattle.std.specs.Prelude.{◌≡◌, IfOk};
ghost use Rattle.dm_stream.specs.Cursors.{left, sound};
ghost use Rattle.dm_reread.specs.ExactLeaves.{passed, has_entries};
ghost use Rattle.dm_read_places.specs.Reads.{ReadsWhole};
ghost use Rattle.dm_read_exact.specs.Exact.{only};

use dm_quote::ToTokens;
use dm_read_places::place::Place;
use dm_same::all_alike;
use dm_stream::{Cursor, Entry, Made, Read, TokenStream};
use std::alloc::Global;

/// The tokens and delimiters from one place to another.
fn passed_entries<'t, 'a>(from: Cursor<'t, 'a>, to: Cursor<'_, 'a>) -> &'t [Entry<'a>]
    requires from { sound from }
    requires to { sound to }
    ensures { result.now ≡ passed (left from.entry) (left to.entry) }
{
    let all = from.entries();
    &all[..all.len().saturating_sub(to.entries().len())]
}

/// Whether a value has these tokens and delimiters, wherever they stand.
fn has_tokens<'a, T: ToTokens<'a>>(value: &T, alloc: Global, wanted: &[Entry<'_>]) -> Made<bool>
    requires { T.stands value.now }
    ensures { IfOk result (λ b. b ≡ has_entries (T.trees_of value.now) wanted.now) }
{
    let mut tokens = TokenStream::new(alloc);
    value.to_tokens(&mut tokens)?;
    Ok(all_alike(tokens.entries(), wanted))
}

/// A value that was read from a place on, where it has just the tokens that were passed, ranges aside.
pub fn exact<'a, T: ToTokens<'a> + Drop>(
    value: T,
    begun: Cursor<'_, 'a>,
    place: &Place<'_, 'a>,
) -> Read<T>
    requires begun { sound begun }
    requires stands { T.stands value }
    ensures { ReadsWhole (λ x. x) (only T.trees_of (passed (left begun.entry) place.now)) value result }
{
    let wanted = passed_entries(begun, place.cursor());
    if !has_tokens(&value, place.alloc(), wanted)? {
        return Err(place.refused());
    }
    Ok(value)
}

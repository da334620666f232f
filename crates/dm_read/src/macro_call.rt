//! Whether a macro call comes next.
#![tactic(auto)]

ghost use Rattle.std.specs.Prelude.{◌≡◌, Some};
ghost use Rattle.dm_stream.specs.Cursors.{left, sound, SharesEnd};
ghost use Rattle.dm_read.specs.Links as links;
ghost use Rattle.dm_ast.specs.TypeGrammar as grammar;

use crate::group::delim;
use crate::token::{behind, behind_two, sees_colons};
use dm_stream::Cursor;

#[tactic(auto, using(crate::proofs::MacroSeeing::ident_steps))]
fn sees_ident(c: Cursor<'_, '_>) -> bool
    requires { sound c }
    ensures { result ≡ links.sees_ident (left c.entry) }
{
    match c.ident() {
        Some(_) => true,
        None => false,
    }
}

/// Whether `::` and an identifier come next.
fn sees_link(c: Cursor<'_, '_>) -> bool
    requires { sound c }
    ensures { result ≡ links.sees_link (left c.entry) }
{
    sees_colons(c) && sees_ident(behind_two(c))
}

/// What follows `::` with an identifier, as often as that stands there.
#[tactic(auto, using(crate::proofs::MacroSeeing::link_steps))]
pub fn behind_idents<'t, 'a>(c: Cursor<'t, 'a>) -> Cursor<'t, 'a>
    requires { sound c }
    ensures left { left result ≡ grammar.behind_idents (left c.entry) }
    ensures place { SharesEnd c.entry result }
{
    let mut rest = c;
    for _turn in 0..c.len() {
        if !sees_link(rest) {
            return rest;
        }
        rest = behind(behind_two(rest));
    }
    rest
}

/// What follows `::` where that comes next.
#[tactic(auto, using(crate::proofs::MacroSeeing::colons_steps))]
pub fn behind_colons<'t, 'a>(c: Cursor<'t, 'a>) -> Cursor<'t, 'a>
    requires { sound c }
    ensures left { left result ≡ grammar.behind_colons (left c.entry) }
    ensures place { SharesEnd c.entry result }
{
    if sees_colons(c) { behind_two(c) } else { c }
}

/// Whether `!` and a group come next.
#[tactic(auto, using(crate::proofs::MacroSeeing::call_steps))]
fn is_call(c: Cursor<'_, '_>) -> bool
    requires { sound c }
    ensures { result ≡ grammar.is_call (Some (left c.entry)) }
{
    match c.punct() {
        Some((punct, rest)) => match delim(rest) {
            Some(_) => punct.ch == '!',
            None => false,
        },
        None => false,
    }
}

/// Whether a macro's name, `!` and a group come next.
#[tactic(auto, using(crate::proofs::MacroSeeing::macro_steps))]
pub fn sees_macro(c: Cursor<'_, '_>) -> bool
    requires { sound c }
    ensures { result ≡ grammar.sees_macro (left c.entry) }
{
    match behind_colons(c).ident() {
        Some((_, rest)) => is_call(behind_idents(rest)),
        None => false,
    }
}

//! The units of runs, and the calls that take them.

ghost use Rattle.std.specs.Prelude.{IfSome};
ghost use Rattle.dm_stream.specs.Cursors.{sound, sound_piece};

use crate::lexing::layout_of;
use dm_expr::{
    Unit, balanced_pair, discriminant_end, next_unit, path_sep, punct, punct_with_spacing,
    take_until1, token_tree,
};
use dm_tokens::{Cursor, Error, Piece, Punct, Spacing, Span, Token, TokenStream, lex, print_piece};
use std::alloc::{AllocError, Global};

/// A call that takes a front, without its list.
#[derive(Clone, Copy)]
pub(crate) enum Taker {
    PathSep,
    Punct(char),
    Spaced(char, Spacing),
    Tree,
    Pair(char, char),
    Run,
    Discriminant,
}

fn taken<'t, 'a>(taker: Taker, c: Cursor<'t, 'a>) -> Option<(Piece<'t, 'a>, Cursor<'t, 'a>)>
    requires { sound c }
    ensures piece { IfSome result (λ r. sound_piece r.0) }
    ensures rest { IfSome result (λ r. sound r.1) }
{
    match taker {
        Taker::PathSep => path_sep(c),
        Taker::Punct(p) => punct(p, c),
        Taker::Spaced(p, spacing) => punct_with_spacing(p, spacing, c),
        Taker::Tree => token_tree(c),
        Taker::Pair(opener, closer) => balanced_pair(opener, closer, c),
        Taker::Run => take_until1(c),
        Taker::Discriminant => discriminant_end(c),
    }
}

/// The front of its text that a run is, where the run has that front's trees, and what it leaves begins right behind.
fn front<'s>(
    alloc: Global,
    piece: Piece<'_, '_>,
    rest: Cursor<'_, '_>,
    text: &'s str,
) -> Result<&'s str, Error>
    requires piece { sound_piece piece }
    requires rest { sound rest }
{
    let found = print_piece(alloc, piece)?;
    match text.get(..rest.span().start) {
        Some(front) => {
            let layout = layout_of(alloc, front)?;
            Ok(if found.as_str() == layout.as_str() {
                front
            } else {
                "other trees"
            })
        }
        None => Ok("no front"),
    }
}

/// What a call takes of what a cursor has left.
fn taken_at(c: Cursor<'_, '_>, alloc: Global, taker: Taker, text: &str) -> Result<String, Error>
    requires { sound c }
{
    match taken(taker, c) {
        Some((piece, rest)) => {
            let front = front(alloc, piece, rest, text)?;
            Ok(format!(in alloc; "takes {front}")?)
        }
        None => Ok(String::from_str(alloc, "takes nothing")?),
    }
}

/// The front of a text that a call takes.
pub(crate) fn takes(alloc: Global, taker: Taker, text: &str) -> Result<String, Error> {
    let list = lex(alloc, text)?;
    taken_at(list.cursor(), alloc, taker, text)
}

fn unit_name(unit: Unit) -> &'static str {
    match unit {
        Unit::SepArgs => "::<..>",
        Unit::ArgsSep => "<..>::",
        Unit::Bars => "|..|",
        Unit::Tree => "tree",
    }
}

/// The first unit of what a cursor has left.
fn unit_at(c: Cursor<'_, '_>, alloc: Global, text: &str) -> Result<String, Error>
    requires { sound c }
{
    match next_unit(c) {
        Some((unit, piece, rest)) => {
            let front = front(alloc, piece, rest, text)?;
            let name = unit_name(unit);
            Ok(format!(in alloc; "{name} that is {front}")?)
        }
        None => Ok(String::from_str(alloc, "no unit")?),
    }
}

/// The unit that a text begins with.
pub(crate) fn first_unit(alloc: Global, text: &str) -> Result<String, Error> {
    let list = lex(alloc, text)?;
    unit_at(list.cursor(), alloc, text)
}

/// So many `<`, and then a run.
fn opened<'a>(
    alloc: Global,
    count: usize,
    run: Piece<'_, 'a>,
) -> Result<TokenStream<'a>, AllocError>
    requires { sound_piece run }
{
    let mut list = TokenStream::new(alloc);
    for _ in 0..count {
        list.add(Token::Punct(Punct {
            ch: '<',
            spacing: Spacing::Joint,
            span: Span::nowhere(),
        }))?;
    }
    list.extend(run)?;
    Ok(list)
}

fn has_front(list: &TokenStream<'_>) -> bool {
    take_until1(list.cursor()).is_some()
}

/// Whether something is taken of so many `<` before a text.
pub(crate) fn takes_opened(alloc: Global, count: usize, text: &str) -> Result<String, Error> {
    let run = lex(alloc, text)?;
    let list = opened(alloc, count, run.piece())?;
    let told = if has_front(&list) {
        "takes a front"
    } else {
        "takes nothing"
    };
    Ok(String::from_str(alloc, told)?)
}

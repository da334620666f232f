ghost use Rattle.std.specs.Prelude.{◌≡◌, ◌+◌, true, false, None, Some, MatchOption, IfSome};
ghost use Rattle.dm_stream.specs.Cursors.{left, end_of, sound, trees_in, piece_end, sound_piece, SharesEnd};
ghost use Rattle.dm_stream.specs.Sizes.{size};
ghost use Rattle.dm_expr.specs.Cuts.{sep_args_at, args_sep_at, bars_at, unit_at, split_unit};
ghost use Rattle.dm_expr.specs.Reach.{reach};
ghost use Rattle.std.specs.Bool.{OnFalse};

use super::fronts::{pair_size, path_sep_size, punct_size};
use dm_stream::{Cursor, Piece};

/// What an expression is made of.
#[derive(Clone, Copy, Debug, PartialEq, Eq)]
pub enum Unit {
    /// `::` and then a balanced `<..>`.
    SepArgs,
    /// A balanced `<..>` and then `::`.
    ArgsSep,
    /// A balanced `|..|`.
    Bars,
    /// One tree.
    Tree,
}

/// The first of the four kinds of unit that begins here, with its trees and the place behind them. None begins at a comma or
/// at the end of the list.
pub fn next_unit<'t, 'a>(c: Cursor<'t, 'a>) -> Option<(Unit, Piece<'t, 'a>, Cursor<'t, 'a>)>
    requires { sound c }
    ensures gives { MatchOption result (split_unit (unit_at true (left c.entry)) (left c.entry) ≡ None) (λ r. split_unit (unit_at true (left c.entry)) (left c.entry) ≡ Some (r.0, trees_in r.1, left r.2)) }
    ensures sound { IfSome result (λ r. sound_piece r.1) }
    ensures piece_end { IfSome result (λ r. piece_end r.1 ≡ end_of c.entry) }
    ensures place { IfSome result (λ r. SharesEnd c.entry r.2) }
{
    let (unit, count, _) = unit_here(true, EVERY_PAIR, c)?;
    let (piece, rest) = c.take(count)?;
    Some((unit, piece, rest))
}

/// What is known of pairs `<..>` that are closed further on: whether a `>` is left, and whether one is left that `::`
/// follows. Where that is known to be false no search is needed, so that a run of `<` alone is read in linear time.
#[derive(Clone, Copy)]
pub(crate) struct Pairs {
    pub closed: bool,
    pub closed_before_sep: bool,
}

pub(crate) const EVERY_PAIR: Pairs = Pairs {
    closed: true,
    closed_before_sep: true,
};

/// The unit that begins here, its number of trees, and the place behind it.
pub(crate) fn unit_here<'t, 'a>(
    with_bars: bool,
    pairs: Pairs,
    c: Cursor<'t, 'a>,
) -> Option<(Unit, usize, Cursor<'t, 'a>)>
    requires sound { sound c }
    requires none { OnFalse pairs.closed (reach false (left c) ≡ 0) }
    requires none_before_sep { OnFalse pairs.closed_before_sep (reach true (left c) ≡ 0) }
    ensures gives { MatchOption result (unit_at with_bars (left c.entry) ≡ None) (λ r. unit_at with_bars (left c.entry) ≡ Some (r.0, r.1, left r.2)) }
    ensures counts { IfSome result (λ r. r.1 + size (left r.2) ≡ size (left c.entry)) }
    ensures place { IfSome result (λ r. SharesEnd c.entry r.2) }
{
    if punct_size(',', c).is_some() {
        return None;
    }
    if let Some((count, rest)) = sep_args_size(pairs.closed, c) {
        return Some((Unit::SepArgs, count, rest));
    }
    if let Some((count, rest)) = args_sep_size(pairs.closed_before_sep, c) {
        return Some((Unit::ArgsSep, count, rest));
    }
    if let Some((count, rest)) = bars_size(with_bars, c) {
        return Some((Unit::Bars, count, rest));
    }
    let (_, rest) = c.token_tree()?;
    Some((Unit::Tree, 1, rest))
}

/// `::` and then `<..>`.
#[tactic(auto, using(crate::proofs::Reaching::no_sep_args))]
fn sep_args_size<'t, 'a>(closed: bool, c: Cursor<'t, 'a>) -> Option<(usize, Cursor<'t, 'a>)>
    requires sound { sound c }
    requires none { OnFalse closed (reach false (left c) ≡ 0) }
    ensures gives { MatchOption result (sep_args_at (left c.entry) ≡ None) (λ r. sep_args_at (left c.entry) ≡ Some (r.0, left r.1)) }
    ensures counts { IfSome result (λ r. r.0 + size (left r.1) ≡ size (left c.entry)) }
    ensures place { IfSome result (λ r. SharesEnd c.entry r.1) }
{
    if !closed {
        return None;
    }
    let (front, rest) = path_sep_size(c)?;
    let (back, rest) = pair_size('<', '>', rest)?;
    Some((front + back, rest))
}

/// `<..>` and then `::`.
#[tactic(auto, using(crate::proofs::Reaching::no_args_sep))]
fn args_sep_size<'t, 'a>(
    closed_before_sep: bool,
    c: Cursor<'t, 'a>,
) -> Option<(usize, Cursor<'t, 'a>)>
    requires sound { sound c }
    requires none { OnFalse closed_before_sep (reach true (left c) ≡ 0) }
    ensures gives { MatchOption result (args_sep_at (left c.entry) ≡ None) (λ r. args_sep_at (left c.entry) ≡ Some (r.0, left r.1)) }
    ensures counts { IfSome result (λ r. r.0 + size (left r.1) ≡ size (left c.entry)) }
    ensures place { IfSome result (λ r. SharesEnd c.entry r.1) }
{
    if !closed_before_sep {
        return None;
    }
    let (front, rest) = pair_size('<', '>', c)?;
    let (back, rest) = path_sep_size(rest)?;
    Some((front + back, rest))
}

/// `|..|`, where it is a unit.
fn bars_size<'t, 'a>(with_bars: bool, c: Cursor<'t, 'a>) -> Option<(usize, Cursor<'t, 'a>)>
    requires { sound c }
    ensures gives { MatchOption result (bars_at with_bars (left c.entry) ≡ None) (λ r. bars_at with_bars (left c.entry) ≡ Some (r.0, left r.1)) }
    ensures counts { IfSome result (λ r. r.0 + size (left r.1) ≡ size (left c.entry)) }
    ensures place { IfSome result (λ r. SharesEnd c.entry r.1) }
{
    if !with_bars {
        return None;
    }
    pair_size('|', '|', c)
}

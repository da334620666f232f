ghost use Rattle.std.specs.Prelude.{◌≡◌, ◌+◌, ◌-◌, ◌^◌, ◌<◌, ◌≤◌, true, false, None, Some, MatchOption, IfSome};
ghost use Rattle.dm_stream.specs.Cursors.{left, end_of, sound, trees_in, piece_end, sound_piece, SharesEnd};
ghost use Rattle.dm_stream.specs.Sizes.{size};
ghost use Rattle.dm_expr.specs.Cuts.{run_at, split_at};
ghost use Rattle.dm_expr.specs.Reach.{reach, closes, pairs_behind};

use super::fronts::{path_sep_size, punct_size};
use super::units::{Pairs, Unit, unit_here};
use dm_stream::{Cursor, Piece};

/// An expression: one or more units, up to a comma or the end of the list. So none begins at a comma or at the end. The comma
/// is left.
///
/// It takes linear time, and besides a search up to the closing `>` or the list's end at each `<` that begins no unit while
/// a `>` with `::` behind it stands further on, and at each `::<` that is not closed while a `>` stands further on.
pub fn take_until1<'t, 'a>(c: Cursor<'t, 'a>) -> Option<(Piece<'t, 'a>, Cursor<'t, 'a>)>
    requires { sound c }
    ensures gives { MatchOption result (split_at (run_at true (left c.entry)) (left c.entry) ≡ None) (λ r. split_at (run_at true (left c.entry)) (left c.entry) ≡ Some (trees_in r.0, left r.1)) }
    ensures sound { IfSome result (λ r. sound_piece r.0) }
    ensures piece_end { IfSome result (λ r. piece_end r.0 ≡ end_of c.entry) }
    ensures place { IfSome result (λ r. SharesEnd c.entry r.1) }
{
    let (count, _) = run_size(true, c)?;
    c.take(count)
}

/// The discriminant of a variant: it begins and ends as an expression does, but `|..|` is no unit, so that a comma between
/// two `|` ends it.
pub fn discriminant_end<'t, 'a>(c: Cursor<'t, 'a>) -> Option<(Piece<'t, 'a>, Cursor<'t, 'a>)>
    requires { sound c }
    ensures gives { MatchOption result (split_at (run_at false (left c.entry)) (left c.entry) ≡ None) (λ r. split_at (run_at false (left c.entry)) (left c.entry) ≡ Some (trees_in r.0, left r.1)) }
    ensures sound { IfSome result (λ r. sound_piece r.0) }
    ensures piece_end { IfSome result (λ r. piece_end r.0 ≡ end_of c.entry) }
    ensures place { IfSome result (λ r. SharesEnd c.entry r.1) }
{
    let (count, _) = run_size(false, c)?;
    c.take(count)
}

/// The number of trees of a run, and the place behind it.
fn run_size<'t, 'a>(with_bars: bool, c: Cursor<'t, 'a>) -> Option<(usize, Cursor<'t, 'a>)>
    requires { sound c }
    ensures gives { MatchOption result (run_at with_bars (left c.entry) ≡ None) (λ r. run_at with_bars (left c.entry) ≡ Some (r.0, left r.1)) }
    ensures place { IfSome result (λ r. SharesEnd c.entry r.1) }
{
    let most = c.len();
    let mut ends = PairEnds {
        last: most,
        last_before_sep: most,
        are_known: false,
    };
    let mut at = c;
    let mut count = 0;
    while let Some((unit, more, rest)) = unit_here(with_bars, ends.behind(count), at) {
        ends = ends.after_unit(unit, count, at);
        at = rest;
        count += more;
    }
    if count == 0 {
        return None;
    }
    Some((count, at))
}

/// Up to where in a run pairs `<..>` can be closed, in trees from the run's start: no `>` stands behind `last`, and none
/// that `::` follows behind `last_before_sep`. Both are the list's end until a `<` has begun no pair, and are found then.
#[derive(Clone, Copy)]
struct PairEnds {
    last: usize,
    last_before_sep: usize,
    are_known: bool,
}

impl PairEnds {
    /// What is known behind the first `count` trees.
    fn behind(self, count: usize) -> Pairs
        ensures { result ≡ pairs_behind self.last self.last_before_sep count }
    {
        Pairs {
            closed: count < self.last,
            closed_before_sep: count < self.last_before_sep,
        }
    }

    /// The ends after a unit that begins at `at`, behind `count` trees.
    fn after_unit(self, unit: Unit, count: usize, at: Cursor<'_, '_>) -> PairEnds
        requires sound { sound at }
        requires fits { count + size (left at) < 2 ^ 64 }
        requires last { reach false (left at) ≤ self.last - count }
        requires last_before_sep { reach true (left at) ≤ self.last_before_sep - count }
        ensures last { reach false (left at.entry) ≤ result.last - count }
        ensures last_before_sep { reach true (left at.entry) ≤ result.last_before_sep - count }
    {
        if self.are_known || unit != Unit::Tree || punct_size('<', at).is_none() {
            return self;
        }
        PairEnds {
            last: count + last_close(false, at),
            last_before_sep: count + last_close(true, at),
            are_known: true,
        }
    }
}

/// The number of trees up to the last `>`, or to the last that `::` follows.
fn last_close(before_sep: bool, c: Cursor<'_, '_>) -> usize
    requires { sound c }
    ensures gives { result ≡ reach before_sep (left c.entry) }
    ensures fits { result ≤ size (left c.entry) }
{
    let mut at = c;
    let mut passed = 0;
    let mut last = 0;
    while let Some((_, rest)) = at.token_tree() {
        passed += 1;
        if is_close(before_sep, at) {
            last = passed;
        }
        at = rest;
    }
    last
}

/// Whether `>` stands here, with `::` behind it where that is asked.
fn is_close(before_sep: bool, c: Cursor<'_, '_>) -> bool
    requires { sound c }
    ensures { result ≡ closes before_sep (left c.entry) }
{
    match punct_size('>', c) {
        Some((_, rest)) => !before_sep || path_sep_size(rest).is_some(),
        None => false,
    }
}

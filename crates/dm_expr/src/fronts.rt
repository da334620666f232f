ghost use Rattle.std.specs.Prelude.{◌≡◌, ◌+◌, ◌<◌, ◌≤◌, ◌^◌, None, Some, MatchOption, IfSome};
ghost use Rattle.dm_stream.specs.Cursors.{left, end_of, sound, trees_in, piece_end, sound_piece, first_tree, SharesEnd};
ghost use Rattle.dm_stream.specs.Sizes.{size};
ghost use Rattle.dm_expr.specs.Cuts.{punct_at, spaced_at, path_sep_at, tree_at, pair_at, closed_at, after_tree, split_at};

use dm_stream::{Cursor, Piece, Spacing};

/// `::`, where the list begins with a `:` that touches the `:` behind it.
pub fn path_sep<'t, 'a>(c: Cursor<'t, 'a>) -> Option<(Piece<'t, 'a>, Cursor<'t, 'a>)>
    requires { sound c }
    ensures gives { MatchOption result (split_at (path_sep_at (left c.entry)) (left c.entry) ≡ None) (λ r. split_at (path_sep_at (left c.entry)) (left c.entry) ≡ Some (trees_in r.0, left r.1)) }
    ensures sound { IfSome result (λ r. sound_piece r.0) }
    ensures piece_end { IfSome result (λ r. piece_end r.0 ≡ end_of c.entry) }
    ensures place { IfSome result (λ r. SharesEnd c.entry r.1) }
{
    let (count, _) = path_sep_size(c)?;
    c.take(count)
}

/// The punct `p`, where the list begins with it and it has this spacing.
pub fn punct_with_spacing<'t, 'a>(
    p: char,
    spacing: Spacing,
    c: Cursor<'t, 'a>,
) -> Option<(Piece<'t, 'a>, Cursor<'t, 'a>)>
    requires { sound c }
    ensures gives { MatchOption result (split_at (spaced_at p spacing (left c.entry)) (left c.entry) ≡ None) (λ r. split_at (spaced_at p spacing (left c.entry)) (left c.entry) ≡ Some (trees_in r.0, left r.1)) }
    ensures sound { IfSome result (λ r. sound_piece r.0) }
    ensures piece_end { IfSome result (λ r. piece_end r.0 ≡ end_of c.entry) }
    ensures place { IfSome result (λ r. SharesEnd c.entry r.1) }
{
    let (count, _) = spaced_size(p, spacing, c)?;
    c.take(count)
}

/// The punct `p`, where the list begins with it, whatever its spacing.
pub fn punct<'t, 'a>(p: char, c: Cursor<'t, 'a>) -> Option<(Piece<'t, 'a>, Cursor<'t, 'a>)>
    requires { sound c }
    ensures gives { MatchOption result (split_at (punct_at p (left c.entry)) (left c.entry) ≡ None) (λ r. split_at (punct_at p (left c.entry)) (left c.entry) ≡ Some (trees_in r.0, left r.1)) }
    ensures sound { IfSome result (λ r. sound_piece r.0) }
    ensures piece_end { IfSome result (λ r. piece_end r.0 ≡ end_of c.entry) }
    ensures place { IfSome result (λ r. SharesEnd c.entry r.1) }
{
    let (count, _) = punct_size(p, c)?;
    c.take(count)
}

/// The first tree, whatever it is. There is none at the end of the list alone.
pub fn token_tree<'t, 'a>(c: Cursor<'t, 'a>) -> Option<(Piece<'t, 'a>, Cursor<'t, 'a>)>
    requires { sound c }
    ensures gives { MatchOption result (first_tree (left c.entry) ≡ None) (λ r. first_tree (left c.entry) ≡ Some (trees_in r.0, left r.1)) }
    ensures sound { IfSome result (λ r. sound_piece r.0) }
    ensures piece_end { IfSome result (λ r. piece_end r.0 ≡ end_of c.entry) }
    ensures place { IfSome result (λ r. SharesEnd c.entry r.1) }
{
    c.token_tree()
}

/// The shortest front that begins with the punct `opener` and has as many `closer` as `opener`. A punct that is both, as
/// `|`, opens at the front and closes behind it. The `>` of `->` is a `>`.
pub fn balanced_pair<'t, 'a>(
    opener: char,
    closer: char,
    c: Cursor<'t, 'a>,
) -> Option<(Piece<'t, 'a>, Cursor<'t, 'a>)>
    requires { sound c }
    ensures gives { MatchOption result (split_at (pair_at opener closer (left c.entry)) (left c.entry) ≡ None) (λ r. split_at (pair_at opener closer (left c.entry)) (left c.entry) ≡ Some (trees_in r.0, left r.1)) }
    ensures sound { IfSome result (λ r. sound_piece r.0) }
    ensures piece_end { IfSome result (λ r. piece_end r.0 ≡ end_of c.entry) }
    ensures place { IfSome result (λ r. SharesEnd c.entry r.1) }
{
    let (count, _) = pair_size(opener, closer, c)?;
    c.take(count)
}

pub(crate) fn path_sep_size<'t, 'a>(c: Cursor<'t, 'a>) -> Option<(usize, Cursor<'t, 'a>)>
    requires { sound c }
    ensures gives { MatchOption result (path_sep_at (left c.entry) ≡ None) (λ r. path_sep_at (left c.entry) ≡ Some (r.0, left r.1)) }
    ensures counts { IfSome result (λ r. r.0 + size (left r.1) ≡ size (left c.entry)) }
    ensures place { IfSome result (λ r. SharesEnd c.entry r.1) }
{
    let (_, rest) = spaced_size(':', Spacing::Joint, c)?;
    let (_, rest) = punct_size(':', rest)?;
    Some((2, rest))
}

fn spaced_size<'t, 'a>(
    p: char,
    spacing: Spacing,
    c: Cursor<'t, 'a>,
) -> Option<(usize, Cursor<'t, 'a>)>
    requires { sound c }
    ensures gives { MatchOption result (spaced_at p spacing (left c.entry) ≡ None) (λ r. spaced_at p spacing (left c.entry) ≡ Some (r.0, left r.1)) }
    ensures counts { IfSome result (λ r. r.0 + size (left r.1) ≡ size (left c.entry)) }
    ensures place { IfSome result (λ r. SharesEnd c.entry r.1) }
{
    let (found, rest) = c.punct()?;
    if found.ch == p && found.spacing == spacing {
        Some((1, rest))
    } else {
        None
    }
}

pub(crate) fn punct_size<'t, 'a>(p: char, c: Cursor<'t, 'a>) -> Option<(usize, Cursor<'t, 'a>)>
    requires { sound c }
    ensures gives { MatchOption result (punct_at p (left c.entry) ≡ None) (λ r. punct_at p (left c.entry) ≡ Some (r.0, left r.1)) }
    ensures counts { IfSome result (λ r. r.0 + size (left r.1) ≡ size (left c.entry)) }
    ensures place { IfSome result (λ r. SharesEnd c.entry r.1) }
{
    let (found, rest) = c.punct()?;
    if found.ch == p { Some((1, rest)) } else { None }
}

/// The number of trees of a [balanced_pair], and the place behind it.
pub fn pair_size<'t, 'a>(
    opener: char,
    closer: char,
    c: Cursor<'t, 'a>,
) -> Option<(usize, Cursor<'t, 'a>)>
    requires { sound c }
    ensures gives { MatchOption result (pair_at opener closer (left c.entry) ≡ None) (λ r. pair_at opener closer (left c.entry) ≡ Some (r.0, left r.1)) }
    ensures counts { IfSome result (λ r. r.0 + size (left r.1) ≡ size (left c.entry)) }
    ensures place { IfSome result (λ r. SharesEnd c.entry r.1) }
{
    let (mut count, mut at) = punct_size(opener, c)?;
    let mut depth = 1;
    while depth > 0 {
        let (next, rest) = open_after(opener, closer, depth, at)?;
        depth = next;
        at = rest;
        count += 1;
    }
    Some((count, at))
}

/// The number of openers to be closed after one tree more, of `depth` before it, and the place behind the tree.
#[tactic(auto, using(crate::proofs::Counting::size_punct))]
fn open_after<'t, 'a>(
    opener: char,
    closer: char,
    depth: usize,
    c: Cursor<'t, 'a>,
) -> Option<(usize, Cursor<'t, 'a>)>
    requires sound { sound c }
    requires some { 0 < depth }
    requires fits { depth + size (left c) < 2 ^ 64 }
    ensures gives { MatchOption result (after_tree opener closer depth (left c.entry) ≡ None) (λ r. after_tree opener closer depth (left c.entry) ≡ Some (r.0, left r.1)) }
    ensures place { IfSome result (λ r. SharesEnd c.entry r.1) }
{
    if let Some((found, rest)) = c.punct() {
        if found.ch == closer {
            return Some((depth - 1, rest));
        }
        if found.ch == opener {
            return Some((depth + 1, rest));
        }
        return Some((depth, rest));
    }
    let (_, rest) = c.token_tree()?;
    Some((depth, rest))
}

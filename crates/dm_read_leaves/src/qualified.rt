//! Qualified paths where an expression stands, as `<T as A>::b`: cut out of the trees and read as types, so that what stands in
//! parentheses behind them are the arguments of a call.
#![tactic(auto, using(crate::proofs::PathSteps::path_steps))]

ghost use Rattle.std.specs.Prelude.{◌≡◌, ◌+◌, None, Some, MatchOption, IfSome, option_map};
ghost use Rattle.dm_stream.specs.Cursors.{left, sound, trees_in, sound_piece, SharesEnd};
ghost use Rattle.dm_stream.specs.Sizes.{size};
ghost use Rattle.dm_expr.specs.Cuts.{after, split_at};
ghost use Rattle.dm_ast.specs.Spelling as spelling;
ghost use Rattle.dm_ast.specs.Tree.{no_self};
ghost use Rattle.dm_reread.specs.Reading.{whole};
ghost use Rattle.dm_reread.specs.TypeLeaves.{read_type};
ghost use Rattle.dm_reread.specs.PathLeaves.{names_at, path_at, qualified_in};
ghost use Rattle.dm_reread.specs.ExactLeaves.{exact_qualified};
ghost use Rattle.dm_read_places.specs.Prelude.{ty_view, path_view, Reads, ReadsWhole};
ghost use Rattle.dm_read_leaves.specs.Leaves.{is_separated, path_expr_view, unranged_type, cut_type, exact_cut};

use crate::ty::front_type;
use dm_ast::{Path, Ty, TyNode};
use dm_expr::pair_size;
use dm_input::join::ended;
use dm_output::PathExpr;
use dm_read_exact::exact::exact;
use dm_read_places::place::Place;
use dm_stream::{Cursor, Piece, Punct, Read, Spacing, Span};
use std::alloc::Global;

fn is_joint(spacing: Spacing) -> bool
    ensures { result ≡ spelling.is_joint spacing }
{
    match spacing {
        Spacing::Joint => true,
        Spacing::Alone => false,
    }
}

/// Whether two puncts are `::`.
fn is_separator(first: Punct, second: Punct) -> bool
    ensures { result ≡ is_separated first second }
{
    (first.ch == ':' && is_joint(first.spacing)) && second.ch == ':'
}

/// The place behind `::` and a name.
fn behind_name<'t, 'a>(c: Cursor<'t, 'a>) -> Option<Cursor<'t, 'a>>
    requires { sound c }
    ensures gives { MatchOption result (names_at (left c.entry) ≡ Some (0, left c.entry)) (λ r. names_at (left c.entry) ≡ after 3 (names_at (left r))) }
    ensures counts { IfSome result (λ r. size (left c.entry) ≡ size (left r) + 3) }
    ensures place { IfSome result (λ r. SharesEnd c.entry r) }
{
    let (first, rest) = c.punct()?;
    let (second, rest) = rest.punct()?;
    let (_, rest) = rest.ident()?;
    if !is_separator(*first, *second) {
        return None;
    }
    Some(rest)
}

/// The number of trees of `::` and a name as often as that stands there, and the place behind them.
fn names_size<'t, 'a>(c: Cursor<'t, 'a>) -> (usize, Cursor<'t, 'a>)
    requires { sound c }
    ensures gives { names_at (left c.entry) ≡ Some (result.0, left result.1) }
    ensures counts { result.0 + size (left result.1) ≡ size (left c.entry) }
    ensures place { SharesEnd c.entry result.1 }
{
    let mut count = 0;
    let mut at = c;
    while let Some(rest) = behind_name(at) {
        count += 3;
        at = rest;
    }
    (count, at)
}

/// The trees of `<..>` and of the names behind it, and the place behind them.
fn cut<'t, 'a>(c: Cursor<'t, 'a>) -> Option<(Piece<'t, 'a>, Cursor<'t, 'a>)>
    requires { sound c }
    ensures gives { MatchOption result (split_at (path_at (left c.entry)) (left c.entry) ≡ None) (λ r. split_at (path_at (left c.entry)) (left c.entry) ≡ Some (trees_in r.0, left r.1)) }
    ensures sound { IfSome result (λ r. sound_piece r.0) }
    ensures place { IfSome result (λ r. SharesEnd c.entry r.1) }
{
    let (pair, rest) = pair_size('<', '>', c)?;
    let (names, _) = names_size(rest);
    c.take(pair + names)
}

/// A type with no range of its own.
#[tactic(auto, using(dm_ast::proofs::View::view_steps))]
fn unranged<'a>(found: Ty<'a>) -> Ty<'a>
    ensures { ty_view result ≡ unranged_type (ty_view found.entry) }
{
    Ty {
        node: found.into_node(),
        span: Span::nowhere(),
    }
}

/// The type that a run of trees is.
fn cut_out<'a>(alloc: Global, piece: Piece<'_, 'a>) -> Read<Ty<'a>>
    requires { sound_piece piece }
    ensures { ReadsWhole ty_view (λ ts. whole (read_type ts)) (trees_in piece.entry) result }
{
    let mut inside = Place::new(alloc, piece.cursor());
    let found = front_type(&mut inside)?;
    ended(found, inside.close())
}

/// The type that a qualified path is, without its range, however it is spaced.
fn front_path<'a>(place: &mut Place<'_, 'a>) -> Read<Ty<'a>>
    ensures { Reads ty_view cut_type place.old result place.new }
{
    let Some((piece, rest)) = cut(place.cursor()) else {
        return Err(place.refused());
    };
    place.go(rest);
    Ok(unranged(cut_out(place.alloc(), piece)?))
}

/// The same, spaced as paths are printed.
fn exact_path<'a>(place: &mut Place<'_, 'a>) -> Read<Ty<'a>>
    ensures { Reads ty_view exact_cut place.old result place.new }
{
    let begun = place.cursor();
    let found = front_path(place)?;
    exact(found, begun, place)
}

/// The qualified path that a type is.
#[tactic(auto, using(dm_ast::proofs::View::view_steps))]
fn qualified_of<'a>(found: Ty<'a>) -> Option<PathExpr<'a>>
    ensures { option_map path_expr_view result ≡ qualified_in (ty_view found.entry) }
{
    match found.into_node() {
        TyNode::Path(qself, path) => match qself {
            Some(own) => Some(PathExpr {
                qself: Some(own),
                path,
            }),
            None => None,
        },
        TyNode::Paren(_) => None,
        TyNode::Tuple(_) => None,
        TyNode::Slice(_) => None,
        TyNode::Array(_, _) => None,
        TyNode::Reference(_, _, _) => None,
        TyNode::Pointer(_, _) => None,
        TyNode::BareFn(_) => None,
        TyNode::TraitObject(_) => None,
        TyNode::ImplTrait(_) => None,
        TyNode::Infer => None,
        TyNode::Never => None,
        TyNode::Macro(_, _, _) => None,
    }
}

/// A qualified path, spaced as types are printed. Refuses as [ty](crate::ty::ty).
pub fn qualified<'a>(place: &mut Place<'_, 'a>) -> Read<PathExpr<'a>>
    ensures { Reads path_expr_view exact_qualified place.old result place.new }
{
    let found = exact_path(place)?;
    match qualified_of(found) {
        Some(path) => Ok(path),
        None => Err(place.refused()),
    }
}

/// A path without a self type.
#[tactic(auto, using(dm_ast::proofs::View::view_steps))]
pub fn plain_path<'a>(path: Path<'a>) -> PathExpr<'a>
    ensures { path_expr_view result ≡ (no_self, path_view path.entry) }
{
    PathExpr { qself: None, path }
}

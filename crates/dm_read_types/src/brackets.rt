//! Types in parentheses and brackets.
#![tactic(auto)]

ghost use Rattle.std.specs.Prelude.{◌≡◌, IfOk, map};
ghost use Rattle.dm_ast.specs.Tree.{types_of, paren, tuple, slice, array};
ghost use Rattle.dm_read_paths.specs.TypeReaders as types;
ghost use Rattle.dm_read_paths.specs.Prelude.{ty_view, node_view, Reads, read_type, Nests};

use crate::rules::Types;
use dm_ast::{Opaque, Ty, TyNode};
use dm_input::Input;
use dm_input::join::{beside, boxed, ended, joined};
use dm_read_paths::kind::Mode;
use dm_stream::{Delim, Made, Punctuated, Read};
use std::alloc::Global;

/// `; LENGTH`.
fn some_length<'a>(input: &mut Input<'_, 'a>) -> Read<Opaque<'a>>
    ensures { Reads (λ o. o) types.read_some_length input.old result input.new }
{
    input.punct(';')?;
    input.opaque()
}

/// `; LENGTH` where it comes next.
fn maybe_length<'a>(input: &mut Input<'_, 'a>) -> Read<Option<Opaque<'a>>>
    ensures { Reads (λ o. o) types.read_maybe_length input.old result input.new }
{
    if !input.sees(';') {
        return Ok(None);
    }
    Ok(Some(some_length(input)?))
}

/// A slice.
#[tactic(auto, using(dm_ast::proofs::View::view_steps))]
fn slice_node<'a>(alloc: Global, found: Ty<'a>) -> Made<TyNode<'a>>
    ensures { IfOk result (λ n. node_view n ≡ slice (ty_view found.entry)) }
{
    let inner = boxed(alloc, found)?;
    Ok(TyNode::Slice(inner))
}

/// An array.
#[tactic(auto, using(dm_ast::proofs::View::view_steps))]
fn array_node<'a>(alloc: Global, found: Ty<'a>, length: Opaque<'a>) -> Made<TyNode<'a>>
    ensures { IfOk result (λ n. node_view n ≡ array (ty_view found.entry) length.entry) }
{
    let (inner, length) = beside(boxed(alloc, found), length)?;
    Ok(TyNode::Array(inner, length))
}

/// A slice, or an array where there is a length.
fn square_node<'a>(alloc: Global, found: Ty<'a>, length: Option<Opaque<'a>>) -> Made<TyNode<'a>>
    ensures { IfOk result (λ n. node_view n ≡ types.square_by (ty_view found.entry) length.entry) }
{
    match length {
        None => slice_node(alloc, found),
        Some(length) => array_node(alloc, found, length),
    }
}

/// A type in parentheses.
#[tactic(auto, using(dm_ast::proofs::View::view_steps))]
fn paren_node<'a>(alloc: Global, found: Ty<'a>) -> Made<TyNode<'a>>
    ensures { IfOk result (λ n. node_view n ≡ paren (ty_view found.entry)) }
{
    let inner = boxed(alloc, found)?;
    Ok(TyNode::Paren(inner))
}

/// A tuple.
#[tactic(auto, using(dm_ast::proofs::View::view_steps))]
fn tuple_node<'a>(found: Punctuated<Ty<'a>>) -> TyNode<'a>
    ensures { node_view result ≡ tuple (types_of (map ty_view found.entry.items)) found.entry.trailing }
{
    TyNode::Tuple(found)
}

/// One type without a comma in parentheses, or a tuple.
#[tactic(auto, using(crate::proofs::Rounds::round_steps))]
fn round_node<'a>(alloc: Global, found: Punctuated<Ty<'a>>) -> Made<TyNode<'a>>
    ensures { IfOk result (λ n. node_view n ≡ types.round_by (types_of (map ty_view found.entry.items)) found.entry.trailing) }
{
    if found.trailing || found.items.len() != 1 {
        return Ok(tuple_node(found));
    }
    let mut items = found.items;
    match items.pop() {
        Some(only) => paren_node(alloc, only),
        None => unreachable!(),
    }
}

impl<'a, F: for<'t> Fn(&mut Input<'t, 'a>, usize, Mode) -> Read<Ty<'a>>> Types<F> {
    /// The inside of the brackets of a slice or an array.
    fn square_inside(&self, input: &mut Input<'_, 'a>) -> Read<(Ty<'a>, Option<Opaque<'a>>)>
        requires { Nests self.now.grammar.depth (F.pre self.now.grammar.ty) (F.post self.now.grammar.ty) }
        ensures { Reads (λ v. (ty_view v.0, v.1)) (types.square_inside (read_type self.now.grammar.depth)) input.old result input.new }
    {
        let found = self.grammar.ty(Mode::Whole, input)?;
        joined(found, maybe_length(input))
    }

    /// Brackets and their inside.
    fn bracketed(&self, input: &mut Input<'_, 'a>) -> Read<(Ty<'a>, Option<Opaque<'a>>)>
        requires { Nests self.now.grammar.depth (F.pre self.now.grammar.ty) (F.post self.now.grammar.ty) }
        ensures { Reads (λ v. (ty_view v.0, v.1)) (types.read_bracketed (read_type self.now.grammar.depth)) input.old result input.new }
    {
        let mut inside = input.open(Delim::Bracket)?;
        let found = self.square_inside(&mut inside)?;
        ended(found, inside.close())
    }

    /// A slice or an array.
    pub fn square(&self, input: &mut Input<'_, 'a>) -> Read<TyNode<'a>>
        requires { Nests self.now.grammar.depth (F.pre self.now.grammar.ty) (F.post self.now.grammar.ty) }
        ensures { Reads node_view (types.read_square (read_type self.now.grammar.depth)) input.old result input.new }
    {
        let (found, length) = self.bracketed(input)?;
        Ok(square_node(input.alloc(), found, length)?)
    }

    /// A type in parentheses or a tuple.
    pub fn round(&self, input: &mut Input<'_, 'a>) -> Read<TyNode<'a>>
        requires { Nests self.now.grammar.depth (F.pre self.now.grammar.ty) (F.post self.now.grammar.ty) }
        ensures { Reads node_view (types.read_round (read_type self.now.grammar.depth)) input.old result input.new }
    {
        let found = self.grammar.enclosed_types(input)?;
        Ok(round_node(input.alloc(), found)?)
    }
}

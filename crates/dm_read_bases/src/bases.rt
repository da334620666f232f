//! Expressions that no operator stands in or behind: paths, calls, groups and others.
#![tactic(auto, using(crate::proofs::BaseSteps::base_steps))]

ghost use Rattle.std.specs.Prelude.{◌≡◌, IfOk, map};
ghost use Rattle.dm_ast.specs.Tree.{maybe_self_view};
ghost use Rattle.dm_output.specs.Output.{exprs_of};
ghost use Rattle.dm_reread.specs.Reading as plain;
ghost use Rattle.dm_read_places.specs.Prelude.{path_view, expr_view, next, Reads, ReadsWhole, rows};
ghost use Rattle.dm_read_arguments.specs.ExprNests.{ExprNests};
ghost use Rattle.dm_read_bases.specs.Rows as spec;

use crate::macros::macro_call;
use dm_ast::Path;
use dm_input::join::joined;
use dm_nodes::expr::{ExprNode, ExprNodes};
use dm_nodes::make_expr::{
    build_of, built, call_of, opaque_call, paren_of, path_expr, str_of, tuple_of, unsafe_of,
};
use dm_output::PathExpr;
use dm_read_arguments::rules::Exprs;
use dm_read_arguments::sort::Wanted;
use dm_read_formats::opaque::kept;
use dm_read_leaves::qualified::{plain_path, qualified};
use dm_read_places::expect::is_str;
use dm_read_places::front::Sign;
use dm_read_places::path::path;
use dm_read_places::place::Place;
use dm_stream::{Delim, Error, Literal, Made, Read};
use std::alloc::{AllocError, Global};

/// The rules of such expressions.
#[derive(Clone, Copy)]
pub struct Bases<F> {
    /// Those of the expressions in them.
    pub parts: Exprs<F>,
}

/// A string.
fn text<'a>(found: &Literal<'a>, place: &Place<'_, 'a>) -> Read<ExprNode<'a>>
    ensures { ReadsWhole expr_view spec.text found.now result }
{
    if !is_str(found.kind) {
        return Err(place.refused());
    }
    let found = found.clone_in(place.alloc())?;
    Ok(str_of(place.alloc(), found)?)
}

/// One part without a comma is in parentheses, others are a tuple. A comma behind the last of some is refused.
#[tactic(auto, using(crate::proofs::TupleSteps::tuple_steps))]
fn tuple_or_paren<'a>(parts: ExprNodes<'a>, last: bool, place: &Place<'_, 'a>) -> Read<ExprNode<'a>>
    ensures { ReadsWhole expr_view (spec.tuple_only last) (exprs_of (map expr_view parts.entry)) result }
{
    if parts.is_empty() {
        return Ok(tuple_of(place.alloc(), parts)?);
    }
    if last {
        return Err(place.refused());
    }
    if parts.len() != 1 {
        return Ok(tuple_of(place.alloc(), parts)?);
    }
    let mut parts = parts;
    match parts.pop(place.alloc()) {
        Ok(Some(only)) => Ok(paren_of(place.alloc(), only)?),
        Ok(None) => unreachable!(),
        Err(AllocError) => Err(Error::NoMemory),
    }
}

/// A path with arguments behind it. A comma behind the last of them says that it is built, and not called.
fn called<'a>(alloc: Global, path: PathExpr<'a>, args: (ExprNodes<'a>, bool)) -> Made<ExprNode<'a>>
    ensures { IfOk result (λ e. expr_view e ≡ plain.called (maybe_self_view path.entry.qself) (path_view path.entry.path) (exprs_of (map expr_view args.entry.0)) args.entry.1) }
{
    let (parts, is_built) = args;
    if is_built {
        Ok(build_of(alloc, path, parts)?)
    } else {
        Ok(call_of(alloc, path, parts)?)
    }
}

impl<F: Copy + for<'t, 'b> Fn(&mut Place<'t, 'b>, Wanted) -> Read<ExprNode<'b>>> Bases<F> {
    /// A path, or braces with fields behind it.
    fn braced<'a>(&self, path: PathExpr<'a>, place: &mut Place<'_, 'a>) -> Read<ExprNode<'a>>
        requires { ExprNests self.now.parts.room (F.pre self.now.parts.expr) (F.post self.now.parts.expr) }
        ensures { Reads expr_view (λ ts. spec.braced_path self.now.parts.fuel (maybe_self_view path.entry.qself) (path_view path.entry.path) ts (next ts)) place.old result place.new }
    {
        if let Some(mut inside) = place.group(Delim::Brace) {
            let (path, fields) = joined(path, self.parts.fields(&mut inside))?;
            return Ok(built(place.alloc(), path, fields)?);
        }
        Ok(path_expr(place.alloc(), path)?)
    }

    /// A path, or what it is called with.
    fn behind_path<'a>(
        &self,
        braces: bool,
        path: PathExpr<'a>,
        place: &mut Place<'_, 'a>,
    ) -> Read<ExprNode<'a>>
        requires { ExprNests self.now.parts.room (F.pre self.now.parts.expr) (F.post self.now.parts.expr) }
        ensures { Reads expr_view (λ ts. spec.behind_path self.now.parts.fuel braces (maybe_self_view path.entry.qself) (path_view path.entry.path) ts (next ts)) place.old result place.new }
    {
        if let Some(mut inside) = place.group(Delim::Paren) {
            let (path, args) = joined(path, self.parts.arguments(&mut inside))?;
            return Ok(called(place.alloc(), path, args)?);
        }
        if braces {
            return self.braced(path, place);
        }
        Ok(path_expr(place.alloc(), path)?)
    }

    /// The call of the macro with this path, behind `!`.
    fn macro_behind<'a>(&self, path: &Path<'a>, place: &mut Place<'_, 'a>) -> Read<ExprNode<'a>>
        requires { ExprNests self.now.parts.room (F.pre self.now.parts.expr) (F.post self.now.parts.expr) }
        ensures { Reads expr_view (λ ts. plain.macro_from (rows self.now.parts.fuel) (path_view path.now) (next ts)) place.old result place.new }
    {
        let Some(mut inside) = place.group(Delim::Paren) else {
            return Err(place.refused());
        };
        macro_call(path, self.parts.fuel, &mut inside)
    }

    /// What begins with this path.
    fn with_path<'a>(
        &self,
        braces: bool,
        path: Path<'a>,
        place: &mut Place<'_, 'a>,
    ) -> Read<ExprNode<'a>>
        requires { ExprNests self.now.parts.room (F.pre self.now.parts.expr) (F.post self.now.parts.expr) }
        ensures { Reads expr_view (spec.with_path self.now.parts.fuel braces (path_view path.entry)) place.old result place.new }
    {
        if place.take(Sign::Bangs) {
            return self.macro_behind(&path, place);
        }
        self.behind_path(braces, plain_path(path), place)
    }

    /// What begins with a path.
    fn path_base<'a>(&self, braces: bool, place: &mut Place<'_, 'a>) -> Read<ExprNode<'a>>
        requires { ExprNests self.now.parts.room (F.pre self.now.parts.expr) (F.post self.now.parts.expr) }
        ensures { Reads expr_view (λ ts. plain.path_base (rows self.now.parts.fuel) braces (next ts)) place.old result place.new }
    {
        let found = path(self.parts.fuel, place)?;
        self.with_path(braces, found, place)
    }

    /// What begins with a qualified path.
    fn qualified_base<'a>(&self, braces: bool, place: &mut Place<'_, 'a>) -> Read<ExprNode<'a>>
        requires { ExprNests self.now.parts.room (F.pre self.now.parts.expr) (F.post self.now.parts.expr) }
        ensures { Reads expr_view (plain.qualified_base (rows self.now.parts.fuel) braces) place.old result place.new }
    {
        let found = qualified(place)?;
        self.behind_path(braces, found, place)
    }

    /// A group that isn't read, called with one argument.
    fn opaque_called<'a>(
        &self,
        inside: &Place<'_, 'a>,
        second: &mut Place<'_, 'a>,
    ) -> Read<ExprNode<'a>>
        requires { ExprNests self.now.parts.room (F.pre self.now.parts.expr) (F.post self.now.parts.expr) }
        ensures { ReadsWhole expr_view (spec.opaque_called self.now.parts.fuel inside.now) second.old result }
    {
        if inside.at_end() {
            return Err(inside.refused());
        }
        let tokens = kept(inside)?;
        let (tokens, value) = joined(tokens, self.parts.alone(second))?;
        Ok(opaque_call(second.alloc(), tokens, value)?)
    }

    /// The inside of a group: an expression in parentheses, or a tuple.
    fn parts<'a>(&self, inside: &mut Place<'_, 'a>) -> Read<ExprNode<'a>>
        requires { ExprNests self.now.parts.room (F.pre self.now.parts.expr) (F.post self.now.parts.expr) }
        ensures { ReadsWhole expr_view (spec.parts self.now.parts.fuel) inside.old result }
    {
        let (found, last) = self.parts.arguments(inside)?;
        tuple_or_paren(found, last, inside)
    }

    /// A group, and perhaps a second one. Refused where an expression inside is, or at the first token that doesn't fit.
    pub fn grouped<'a>(
        &self,
        inside: &mut Place<'_, 'a>,
        place: &mut Place<'_, 'a>,
    ) -> Read<ExprNode<'a>>
        requires { ExprNests self.now.parts.room (F.pre self.now.parts.expr) (F.post self.now.parts.expr) }
        ensures { Reads expr_view (λ ts. plain.group_from (rows self.now.parts.fuel) inside.old ts (next ts)) place.old result place.new }
    {
        if let Some(mut second) = place.group(Delim::Paren) {
            return self.opaque_called(inside, &mut second);
        }
        self.parts(inside)
    }

    /// What stands behind `unsafe`: a block of one expression. Refused where an expression inside is, or at the first token that doesn't fit.
    pub fn unsafe_block<'a>(&self, place: &mut Place<'_, 'a>) -> Read<ExprNode<'a>>
        requires { ExprNests self.now.parts.room (F.pre self.now.parts.expr) (F.post self.now.parts.expr) }
        ensures { Reads expr_view (λ ts. plain.unsafe_of (rows self.now.parts.fuel) (next ts)) place.old result place.new }
    {
        let Some(mut inside) = place.group(Delim::Brace) else {
            return Err(place.refused());
        };
        let value = self.parts.alone(&mut inside)?;
        Ok(unsafe_of(place.alloc(), value)?)
    }

    /// A string, or what begins with a path. Refused where an expression inside is, or at the first token that doesn't fit.
    pub fn leaf<'a>(&self, braces: bool, place: &mut Place<'_, 'a>) -> Read<ExprNode<'a>>
        requires { ExprNests self.now.parts.room (F.pre self.now.parts.expr) (F.post self.now.parts.expr) }
        ensures { Reads expr_view (λ ts. spec.leaf self.now.parts.fuel braces ts (next ts)) place.old result place.new }
    {
        if let Some(found) = place.literal() {
            return text(found, place);
        }
        if place.sees(Sign::Less) {
            return self.qualified_base(braces, place);
        }
        self.path_base(braces, place)
    }
}

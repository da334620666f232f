//! Methods.
#![tactic(auto, using(crate::proofs::MethodSteps::method_steps))]

ghost use Rattle.std.specs.Prelude.{◌≡◌, IfOk, map};
ghost use Rattle.dm_reread.specs.Items as plain;
ghost use Rattle.dm_reread.specs.ReadBack.{leaves};
ghost use Rattle.dm_reread.specs.Whole.{read_inside};
ghost use Rattle.dm_read_places.specs.Prelude.{block_view, method_view, next, Reads, ReadsWhole, rows};
ghost use Rattle.dm_read_arguments.specs.ExprNests.{ExprNests};
ghost use Rattle.dm_read_members.specs.Rows as spec;
ghost use Rattle.dm_read_members.specs.Views.{behind_view, unnamed_view};

use crate::count::{fuel, turns};
use dm_input::join::joined;
use dm_nodes::block::BlockNode;
use dm_nodes::expr::ExprNode;
use dm_nodes::item::{MethodNode, MethodNodes};
use dm_output::ItemAttr;
use dm_read_arguments::rules::Exprs;
use dm_read_arguments::sort::Wanted;
use dm_read_blocks::blocks::Blocks;
use dm_read_heads::attr::attrs;
use dm_read_heads::signature::{Signature, named_signature};
use dm_read_places::front::Keyword;
use dm_read_places::list::{Rule, Turn, gathered};
use dm_read_places::place::Place;
use dm_stream::{Delim, Error, Ident, Made, Read, Seq};
use std::alloc::Global;

/// What methods and implementations are read by.
#[derive(Clone, Copy)]
pub struct Bodies<F> {
    /// How many expressions may stand in one another. Deeper ones want memory: that of the stack.
    pub room: usize,
    /// Reads an expression in a body.
    pub expr: F,
}

/// `const` perhaps, and `fn`: whether it is `const`.
fn const_fn(place: &mut Place<'_, '_>) -> Read<bool>
    ensures { Reads (λ b. b) (λ ts. spec.const_fn (next ts)) place.old result place.new }
{
    let is_const = place.take_keyword(Keyword::Const);
    if !place.take_keyword(Keyword::Fn) {
        return Err(place.refused());
    }
    Ok(is_const)
}

type Behind<'a> = ((Ident<'a>, Signature<'a>), BlockNode<'a>);

/// The parts as one.
fn method_of<'a>(
    alloc: Global,
    attrs: Seq<ItemAttr>,
    parts: (bool, Behind<'a>),
) -> Made<MethodNode<'a>>
    ensures { IfOk result (λ m. method_view m ≡ spec.made_method attrs (unnamed_view parts.entry)) }
{
    let (is_const, ((name, signature), body)) = parts;
    Ok(signature.into_method(alloc, attrs, is_const, name, body)?)
}

/// Methods, to the end.
#[derive(Drop)]
struct MethodRule<'g, F> {
    bodies: &'g Bodies<F>,
}

impl<'g, 'a, F: Copy + for<'t, 'b> Fn(&mut Place<'t, 'b>, Wanted) -> Read<ExprNode<'b>>> Rule<'a>
    for MethodRule<'g, F> {
    ghost use Rattle.dm_output.specs.Output.{MethodTree};
    ghost use Rattle.dm_output.specs.Views.{method_view};
    ghost use Rattle.dm_read_arguments.specs.ExprNests.{ExprNests};
    ghost use Rattle.dm_read_members.specs.Rows.{method_turn};

    type Part = MethodNode<'a>;

    type Last = ();

    ghost Tree = { MethodTree };

    ghost view = { method_view };

    ghost usable = { λ r. ExprNests r.bodies.now.room (F.pre r.bodies.now.expr) (F.post r.bodies.now.expr) };

    ghost reader = { λ _. method_turn };

    fn turn(&self, _fuel: usize, place: &mut Place<'_, 'a>) -> Read<Turn<MethodNode<'a>, ()>> {
        if place.at_end() {
            return Ok(Turn::End(()));
        }
        Ok(Turn::One(self.bodies.method(place)?))
    }
}

impl<F: Copy + for<'t, 'b> Fn(&mut Place<'t, 'b>, Wanted) -> Read<ExprNode<'b>>> Bodies<F> {
    /// The inside of a block, to the end.
    fn block<'a>(&self, place: &mut Place<'_, 'a>, fuel: usize) -> Read<BlockNode<'a>>
        requires { ExprNests self.now.room (F.pre self.now.expr) (F.post self.now.expr) }
        ensures { ReadsWhole block_view (rows fuel).block place.old result }
    {
        let rules = Blocks {
            parts: Exprs {
                fuel,
                room: self.room,
                expr: self.expr,
            },
        };
        rules.block(place)
    }

    /// The inside of a body, to the end.
    fn inside<'a>(&self, place: &mut Place<'_, 'a>) -> Read<BlockNode<'a>>
        requires { ExprNests self.now.room (F.pre self.now.expr) (F.post self.now.expr) }
        ensures { ReadsWhole block_view (read_inside leaves) place.old result }
    {
        match fuel(place.cursor()) {
            Some(found) => self.block(place, found),
            None => Err(Error::NoMemory),
        }
    }

    /// A body in braces.
    fn body<'a>(&self, place: &mut Place<'_, 'a>) -> Read<BlockNode<'a>>
        requires { ExprNests self.now.room (F.pre self.now.expr) (F.post self.now.expr) }
        ensures { Reads block_view (λ ts. plain.body_after leaves (next ts)) place.old result place.new }
    {
        let Some(mut found) = place.group(Delim::Brace) else {
            return Err(place.refused());
        };
        self.inside(&mut found)
    }

    /// What stands behind `fn`.
    fn behind_fn<'a>(&self, place: &mut Place<'_, 'a>) -> Read<Behind<'a>>
        requires { ExprNests self.now.room (F.pre self.now.expr) (F.post self.now.expr) }
        ensures { Reads behind_view spec.behind_fn place.old result place.new }
    {
        let found = named_signature(place)?;
        joined(found, self.body(place))
    }

    /// What stands behind the attributes.
    fn unnamed<'a>(&self, place: &mut Place<'_, 'a>) -> Read<(bool, Behind<'a>)>
        requires { ExprNests self.now.room (F.pre self.now.expr) (F.post self.now.expr) }
        ensures { Reads unnamed_view spec.unnamed place.old result place.new }
    {
        let is_const = const_fn(place)?;
        joined(is_const, self.behind_fn(place))
    }

    /// A method.
    fn method<'a>(&self, place: &mut Place<'_, 'a>) -> Read<MethodNode<'a>>
        requires { ExprNests self.now.room (F.pre self.now.expr) (F.post self.now.expr) }
        ensures { Reads method_view (plain.read_method leaves) place.old result place.new }
    {
        let found = attrs(place)?;
        let (found, parts) = joined(found, self.unnamed(place))?;
        Ok(method_of(place.alloc(), found, parts)?)
    }

    /// Methods, to the end, in at most so many turns.
    fn methods_within<'a>(&self, most: usize, place: &mut Place<'_, 'a>) -> Read<MethodNodes<'a>>
        requires { ExprNests self.now.room (F.pre self.now.expr) (F.post self.now.expr) }
        ensures { ReadsWhole (map method_view) (plain.read_methods leaves most) place.old result }
    {
        let (found, _) = gathered(&MethodRule { bodies: self }, most, place)?;
        Ok(found)
    }

    /// Methods, to the end.
    pub(crate) fn methods<'a>(&self, place: &mut Place<'_, 'a>) -> Read<MethodNodes<'a>>
        requires { ExprNests self.now.room (F.pre self.now.expr) (F.post self.now.expr) }
        ensures { ReadsWhole (map method_view) spec.all_methods place.old result }
    {
        let most = turns(place.cursor());
        self.methods_within(most, place)
    }
}

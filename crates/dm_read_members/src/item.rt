//! Implementations.
#![tactic(auto, using(crate::proofs::ItemSteps::item_steps))]

ghost use Rattle.std.specs.Prelude.{◌≡◌, IfOk, map};
ghost use Rattle.dm_reread.specs.Items as plain;
ghost use Rattle.dm_reread.specs.ReadBack.{item_leaves, read_output};
ghost use Rattle.dm_read_places.specs.Prelude.{assoc_view, item_view, next, Reads, ReadsWhole};
ghost use Rattle.dm_read_arguments.specs.ExprNests.{ExprNests};
ghost use Rattle.dm_read_members.specs.Rows as spec;
ghost use Rattle.dm_read_members.specs.Views.{members_view, unmarked_view};

use crate::count::turns;
use crate::method::Bodies;
use dm_input::join::joined;
use dm_nodes::expr::ExprNode;
use dm_nodes::item::{ItemNode, ItemNodes, MethodNodes};
use dm_output::ItemAttr;
use dm_read_arguments::sort::Wanted;
use dm_read_heads::assoc::{AssocTypes, assocs};
use dm_read_heads::attr::attrs;
use dm_read_heads::head::{Head, printed_head};
use dm_read_places::front::Keyword;
use dm_read_places::list::{Rule, Turn, gathered};
use dm_read_places::place::Place;
use dm_stream::{Delim, Made, Read, Seq};
use std::alloc::Global;

type Members<'a> = (AssocTypes<'a>, MethodNodes<'a>);

/// The associated types in front.
fn all_assocs<'a>(place: &mut Place<'_, 'a>) -> Read<AssocTypes<'a>>
    ensures { Reads (map assoc_view) spec.all_assocs place.old result place.new }
{
    let fuel = turns(place.cursor());
    assocs(place, fuel)
}

/// The parts as one.
fn item_of<'a>(
    alloc: Global,
    attrs: Seq<ItemAttr>,
    parts: (Head<'a>, Members<'a>),
) -> Made<ItemNode<'a>>
    ensures { IfOk result (λ i. item_view i ≡ spec.made_item attrs (unmarked_view parts.entry)) }
{
    let (head, (assocs, methods)) = parts;
    Ok(head.into_item(alloc, attrs, assocs, methods)?)
}

/// Implementations, to the end of the trees. Refuses where none stand there, or anything else does.
#[derive(Drop)]
struct ItemRule<'g, F> {
    bodies: &'g Bodies<F>,
}

impl<'g, 'a, F: Copy + for<'t, 'b> Fn(&mut Place<'t, 'b>, Wanted) -> Read<ExprNode<'b>>> Rule<'a>
    for ItemRule<'g, F> {
    ghost use Rattle.dm_output.specs.Output.{ItemTree};
    ghost use Rattle.dm_output.specs.Views.{item_view};
    ghost use Rattle.dm_read_arguments.specs.ExprNests.{ExprNests};
    ghost use Rattle.dm_read_members.specs.Rows.{item_turn};

    type Part = ItemNode<'a>;

    type Last = ();

    ghost Tree = { ItemTree };

    ghost view = { item_view };

    ghost usable = { λ r. ExprNests r.bodies.now.room (F.pre r.bodies.now.expr) (F.post r.bodies.now.expr) };

    ghost reader = { λ _. item_turn };

    fn turn(&self, _fuel: usize, place: &mut Place<'_, 'a>) -> Read<Turn<ItemNode<'a>, ()>> {
        if place.at_end() {
            return Ok(Turn::End(()));
        }
        Ok(Turn::One(self.bodies.item(place)?))
    }
}

impl<F: Copy + for<'t, 'b> Fn(&mut Place<'t, 'b>, Wanted) -> Read<ExprNode<'b>>> Bodies<F> {
    /// Associated types, and methods to the end.
    fn all_members<'a>(&self, place: &mut Place<'_, 'a>) -> Read<Members<'a>>
        requires { ExprNests self.now.room (F.pre self.now.expr) (F.post self.now.expr) }
        ensures { ReadsWhole members_view spec.all_members place.old result }
    {
        let found = all_assocs(place)?;
        joined(found, self.methods(place))
    }

    /// Members in braces.
    fn braced<'a>(&self, place: &mut Place<'_, 'a>) -> Read<Members<'a>>
        requires { ExprNests self.now.room (F.pre self.now.expr) (F.post self.now.expr) }
        ensures { Reads members_view (λ ts. spec.braced (next ts)) place.old result place.new }
    {
        let Some(mut inside) = place.group(Delim::Brace) else {
            return Err(place.refused());
        };
        self.all_members(&mut inside)
    }

    /// A head and its members.
    fn behind_impl<'a>(&self, place: &mut Place<'_, 'a>) -> Read<(Head<'a>, Members<'a>)>
        requires { ExprNests self.now.room (F.pre self.now.expr) (F.post self.now.expr) }
        ensures { Reads unmarked_view spec.behind_impl place.old result place.new }
    {
        let found = printed_head(place)?;
        joined(found, self.braced(place))
    }

    /// What stands behind the attributes.
    fn unmarked<'a>(&self, place: &mut Place<'_, 'a>) -> Read<(Head<'a>, Members<'a>)>
        requires { ExprNests self.now.room (F.pre self.now.expr) (F.post self.now.expr) }
        ensures { Reads unmarked_view spec.unmarked place.old result place.new }
    {
        if !place.take_keyword(Keyword::Impl) {
            return Err(place.refused());
        }
        self.behind_impl(place)
    }

    /// An implementation.
    fn item<'a>(&self, place: &mut Place<'_, 'a>) -> Read<ItemNode<'a>>
        requires { ExprNests self.now.room (F.pre self.now.expr) (F.post self.now.expr) }
        ensures { Reads item_view (plain.read_item item_leaves) place.old result place.new }
    {
        let found = attrs(place)?;
        let (found, parts) = joined(found, self.unmarked(place))?;
        Ok(item_of(place.alloc(), found, parts)?)
    }

    /// Implementations, to the end, in at most so many turns.
    fn items_within<'a>(&self, most: usize, place: &mut Place<'_, 'a>) -> Read<ItemNodes<'a>>
        requires { ExprNests self.now.room (F.pre self.now.expr) (F.post self.now.expr) }
        ensures { ReadsWhole (map item_view) (plain.items_with item_leaves most) place.old result }
    {
        let (found, _) = gathered(&ItemRule { bodies: self }, most, place)?;
        Ok(found)
    }

    /// Implementations, to the end of the trees. Refuses where none stand there, or anything else does.
    pub fn items<'a>(&self, place: &mut Place<'_, 'a>) -> Read<ItemNodes<'a>>
        requires { ExprNests self.now.room (F.pre self.now.expr) (F.post self.now.expr) }
        ensures { ReadsWhole (map item_view) read_output place.old result }
    {
        let most = turns(place.cursor());
        self.items_within(most, place)
    }
}

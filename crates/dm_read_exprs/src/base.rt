//! Expressions that no operator stands in or behind.
#![tactic(auto, using(crate::proofs::BaseSteps::base_steps))]

ghost use Rattle.std.specs.Prelude.{map};
ghost use Rattle.dm_output.specs.Output.{arms_of};
ghost use Rattle.dm_reread.specs.Reading as plain;
ghost use Rattle.dm_read_places.specs.Prelude.{expr_view, arm_view, next, Reads, rows};
ghost use Rattle.dm_read_arguments.specs.ExprNests.{ExprNests};
ghost use Rattle.dm_read_blocks.specs.Rows.{braced_arms};
ghost use Rattle.dm_read_exprs.specs.Rows as spec;

use crate::operators::Operators;
use dm_input::join::joined;
use dm_nodes::block::ArmNodes;
use dm_nodes::expr::ExprNode;
use dm_nodes::make_expr::{bool_of, match_of};
use dm_read_arguments::sort::Wanted;
use dm_read_bases::bases::Bases;
use dm_read_blocks::blocks::Blocks;
use dm_read_places::front::Keyword;
use dm_read_places::place::Place;
use dm_stream::{Delim, Read};

impl<F: Copy + for<'t, 'b> Fn(&mut Place<'t, 'b>, Wanted) -> Read<ExprNode<'b>>> Operators<F> {
    /// Arms in braces.
    fn braced_arms<'a>(&self, place: &mut Place<'_, 'a>) -> Read<ArmNodes<'a>>
        requires { ExprNests self.now.parts.room (F.pre self.now.parts.expr) (F.post self.now.parts.expr) }
        ensures { Reads (λ v. arms_of (map arm_view v)) (λ ts. braced_arms self.now.parts.fuel (next ts)) place.old result place.new }
    {
        let blocks = Blocks { parts: self.parts };
        blocks.braced_arms(place)
    }

    /// What stands behind `match`.
    fn matched<'a>(&self, place: &mut Place<'_, 'a>) -> Read<ExprNode<'a>>
        requires { ExprNests self.now.parts.room (F.pre self.now.parts.expr) (F.post self.now.parts.expr) }
        ensures { Reads expr_view (spec.match_from self.now.parts.fuel) place.old result place.new }
    {
        let value = self.parts.whole(false, place)?;
        let (value, arms) = joined(value, self.braced_arms(place))?;
        Ok(match_of(place.alloc(), value, arms)?)
    }

    /// An expression that no operator stands in or behind.
    pub(crate) fn base<'a>(&self, braces: bool, place: &mut Place<'_, 'a>) -> Read<ExprNode<'a>>
        requires { ExprNests self.now.parts.room (F.pre self.now.parts.expr) (F.post self.now.parts.expr) }
        ensures { Reads expr_view (λ ts. plain.read_base (rows self.now.parts.fuel) braces ts (next ts)) place.old result place.new }
    {
        let bases = Bases { parts: self.parts };
        if place.take_keyword(Keyword::True) {
            return Ok(bool_of(place.alloc(), true)?);
        }
        if place.take_keyword(Keyword::False) {
            return Ok(bool_of(place.alloc(), false)?);
        }
        if place.take_keyword(Keyword::Unsafe) {
            return bases.unsafe_block(place);
        }
        if place.take_keyword(Keyword::Match) {
            return self.matched(place);
        }
        if let Some(mut inside) = place.group(Delim::Paren) {
            return bases.grouped(&mut inside, place);
        }
        bases.leaf(braces, place)
    }
}

//! Arms of `match`.
#![tactic(auto, using(crate::proofs::ArmSteps::arm_steps))]

ghost use Rattle.std.specs.Prelude.{map, option_map, true};
ghost use Rattle.dm_output.specs.Output as tree;
ghost use Rattle.dm_reread.specs.Reading as plain;
ghost use Rattle.dm_read_places.specs.Repeating.{turn_view, repeat};
ghost use Rattle.dm_read_places.specs.Prelude.{expr_view, arm_view, body_view, next, Reads, ReadsWhole, rows};
ghost use Rattle.dm_read_arguments.specs.ExprNests.{ExprNests};
ghost use Rattle.dm_read_blocks.specs.Turns as turns;
ghost use Rattle.dm_read_blocks.specs.Rows as spec;

use crate::blocks::Blocks;
use dm_gather::Gathers;
use dm_input::join::{ended, joined};
use dm_nodes::block::{ArmNode, ArmNodes, BodyNode};
use dm_nodes::expr::ExprNode;
use dm_nodes::make_block::{arm_of, block_body, expr_body};
use dm_read_arguments::sort::Wanted;
use dm_read_patterns::arm::arm_patterns;
use dm_read_places::front::Keyword;
use dm_read_places::list::Turn;
use dm_read_places::place::Place;
use dm_stream::{Delim, Read};

impl<F: Copy + for<'t, 'b> Fn(&mut Place<'t, 'b>, Wanted) -> Read<ExprNode<'b>>> Blocks<F> {
    /// `if` and a condition, or nothing.
    fn guard<'a>(&self, place: &mut Place<'_, 'a>) -> Read<Option<ExprNode<'a>>>
        requires { ExprNests self.now.parts.room (F.pre self.now.parts.expr) (F.post self.now.parts.expr) }
        ensures { Reads (λ o. tree.maybe_expr (option_map expr_view o)) (λ ts. plain.read_guard (rows self.now.parts.fuel) ts (next ts)) place.old result place.new }
    {
        if !place.take_keyword(Keyword::If) {
            return Ok(None);
        }
        Ok(Some(self.parts.whole(true, place)?))
    }

    /// A block, or an expression.
    fn body<'a>(&self, place: &mut Place<'_, 'a>) -> Read<BodyNode<'a>>
        requires { ExprNests self.now.parts.room (F.pre self.now.parts.expr) (F.post self.now.parts.expr) }
        ensures { Reads body_view (λ ts. plain.read_body (rows self.now.parts.fuel) ts (next ts)) place.old result place.new }
    {
        if let Some(mut inside) = place.group(Delim::Brace) {
            let found = self.block(&mut inside)?;
            return Ok(block_body(place.alloc(), found)?);
        }
        let found = self.parts.whole(true, place)?;
        Ok(expr_body(place.alloc(), found)?)
    }

    /// `=>`, a body and a comma.
    fn arm_body<'a>(&self, place: &mut Place<'_, 'a>) -> Read<BodyNode<'a>>
        requires { ExprNests self.now.parts.room (F.pre self.now.parts.expr) (F.post self.now.parts.expr) }
        ensures { Reads body_view (turns.arm_body self.now.parts.fuel) place.old result place.new }
    {
        place.leads()?;
        let found = self.body(place)?;
        ended(found, place.comma())
    }

    /// What stands behind an arm's patterns.
    fn behind_patterns<'a>(
        &self,
        place: &mut Place<'_, 'a>,
    ) -> Read<(Option<ExprNode<'a>>, BodyNode<'a>)>
        requires { ExprNests self.now.parts.room (F.pre self.now.parts.expr) (F.post self.now.parts.expr) }
        ensures { Reads (λ v. (tree.maybe_expr (option_map expr_view v.0), body_view v.1)) (turns.arm_behind self.now.parts.fuel) place.old result place.new }
    {
        let guard = self.guard(place)?;
        joined(guard, self.arm_body(place))
    }

    /// An arm.
    fn arm<'a>(&self, place: &mut Place<'_, 'a>) -> Read<ArmNode<'a>>
        requires { ExprNests self.now.parts.room (F.pre self.now.parts.expr) (F.post self.now.parts.expr) }
        ensures { Reads arm_view (turns.one_arm self.now.parts.fuel) place.old result place.new }
    {
        let found = arm_patterns(place, self.parts.fuel, self.parts.room)?;
        let (found, behind) = joined(found, self.behind_patterns(place))?;
        Ok(arm_of(place.alloc(), found, behind)?)
    }

    /// An arm, or the end of a list of them, with fuel for what is in it.
    fn arm_turn<'a>(&self, fuel: usize, place: &mut Place<'_, 'a>) -> Read<Turn<ArmNode<'a>, ()>>
        requires { ExprNests self.now.parts.room (F.pre self.now.parts.expr) (F.post self.now.parts.expr) }
        ensures { Reads (turn_view arm_view (λ u. u)) (turns.arm_turn fuel) place.old result place.new }
    {
        if place.at_end() {
            return Ok(Turn::End(()));
        }
        Ok(Turn::One(self.with(fuel).arm(place)?))
    }

    /// Arms, to the end, and what ends them, which is nothing. Its loop is that of `gathered`: for a rule over these rules the check compares two
    /// spellings of its parts' types, and passes its step limit.
    fn listed<'a>(&self, place: &mut Place<'_, 'a>) -> Read<(ArmNodes<'a>, ())>
        requires { ExprNests self.now.parts.room (F.pre self.now.parts.expr) (F.post self.now.parts.expr) }
        ensures { Reads (λ v. (map arm_view v.0, v.1)) (repeat turns.arm_turn self.now.parts.fuel) place.old result place.new }
    {
        let mut found = ArmNodes::none(place.alloc());
        let mut left = self.parts.fuel;
        while left > 0 {
            left -= 1;
            match self.arm_turn(left, place) {
                Ok(Turn::One(arm)) => found.gather(arm)?,
                Ok(Turn::End(none)) => return Ok((found, none)),
                Err(error) => return Err(error),
            }
        }
        Err(place.refused())
    }

    /// Arms, to the end.
    fn arms<'a>(&self, place: &mut Place<'_, 'a>) -> Read<ArmNodes<'a>>
        requires { ExprNests self.now.parts.room (F.pre self.now.parts.expr) (F.post self.now.parts.expr) }
        ensures { ReadsWhole (λ v. tree.arms_of (map arm_view v)) (rows self.now.parts.fuel).arms place.old result }
    {
        let (found, _) = self.listed(place)?;
        Ok(found)
    }

    /// Arms in braces.
    pub fn braced_arms<'a>(&self, place: &mut Place<'_, 'a>) -> Read<ArmNodes<'a>>
        requires { ExprNests self.now.parts.room (F.pre self.now.parts.expr) (F.post self.now.parts.expr) }
        ensures { Reads (λ v. tree.arms_of (map arm_view v)) (λ ts. spec.braced_arms self.now.parts.fuel (next ts)) place.old result place.new }
    {
        let Some(mut inside) = place.group(Delim::Brace) else {
            return Err(place.refused());
        };
        self.arms(&mut inside)
    }
}

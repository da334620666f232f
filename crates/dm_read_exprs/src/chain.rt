//! Operators between two expressions, and chains of them.
#![tactic(auto, using(crate::proofs::ChainSteps::chain_steps))]

ghost use Rattle.std.specs.Prelude.{map};
ghost use Rattle.dm_output.specs.Output.{exprs_of};
ghost use Rattle.dm_reread.specs.Reading as plain;
ghost use Rattle.dm_read_places.specs.Prelude.{expr_view, next, Reads, rows};
ghost use Rattle.dm_read_arguments.specs.ExprNests.{ExprNests};
ghost use Rattle.dm_read_exprs.specs.Rows.{plain_or};

use crate::operators::Operators;
use dm_input::join::joined;
use dm_nodes::expr::{ExprNode, ExprNodes};
use dm_nodes::make_expr::{and_of, equal_of, or_of, return_of, unequal_of};
use dm_read_arguments::sort::Wanted;
use dm_read_places::front::{Keyword, Sign};
use dm_read_places::list::{Rule, Turn, gathered};
use dm_read_places::place::Place;
use dm_stream::Read;

/// `&&` and what stands behind it. The truth value says whether a brace continues a path.
#[derive(Drop)]
struct AndRule<'g, F> {
    rules: &'g Operators<F>,
    braces: bool,
}

impl<'g, 'a, F: Copy + for<'t, 'b> Fn(&mut Place<'t, 'b>, Wanted) -> Read<ExprNode<'b>>> Rule<'a>
    for AndRule<'g, F> {
    ghost use Rattle.dm_output.specs.Output.{ExprTree};
    ghost use Rattle.dm_output.specs.Views.{expr_view};
    ghost use Rattle.dm_read_arguments.specs.ExprNests.{ExprNests};
    ghost use Rattle.dm_read_exprs.specs.Turns.{and_turn};

    type Part = ExprNode<'a>;

    type Last = ();

    ghost Tree = { ExprTree };

    ghost view = { expr_view };

    ghost usable = { λ r. ExprNests r.rules.now.parts.room (F.pre r.rules.now.parts.expr) (F.post r.rules.now.parts.expr) };

    ghost reader = { λ r. and_turn r.braces };

    fn turn(&self, fuel: usize, place: &mut Place<'_, 'a>) -> Read<Turn<ExprNode<'a>, ()>> {
        if !place.take(Sign::AndAnd) {
            return Ok(Turn::End(()));
        }
        Ok(Turn::One(self.rules.with(fuel).comparison(self.braces, place)?))
    }
}

/// `||` and what stands behind it.
#[derive(Drop)]
struct OrRule<'g, F> {
    rules: &'g Operators<F>,
    braces: bool,
}

impl<'g, 'a, F: Copy + for<'t, 'b> Fn(&mut Place<'t, 'b>, Wanted) -> Read<ExprNode<'b>>> Rule<'a>
    for OrRule<'g, F> {
    ghost use Rattle.dm_output.specs.Output.{ExprTree};
    ghost use Rattle.dm_output.specs.Views.{expr_view};
    ghost use Rattle.dm_read_arguments.specs.ExprNests.{ExprNests};
    ghost use Rattle.dm_read_exprs.specs.Turns.{or_turn};

    type Part = ExprNode<'a>;

    type Last = ();

    ghost Tree = { ExprTree };

    ghost view = { expr_view };

    ghost usable = { λ r. ExprNests r.rules.now.parts.room (F.pre r.rules.now.parts.expr) (F.post r.rules.now.parts.expr) };

    ghost reader = { λ r. or_turn r.braces };

    fn turn(&self, fuel: usize, place: &mut Place<'_, 'a>) -> Read<Turn<ExprNode<'a>, ()>> {
        if !place.take(Sign::OrOr) {
            return Ok(Turn::End(()));
        }
        Ok(Turn::One(self.rules.with(fuel).conjunction(self.braces, place)?))
    }
}

impl<F: Copy + for<'t, 'b> Fn(&mut Place<'t, 'b>, Wanted) -> Read<ExprNode<'b>>> Operators<F> {
    /// What stands behind an operand: `==` or `!=` and another, or neither.
    fn behind_operand<'a>(
        &self,
        braces: bool,
        first: ExprNode<'a>,
        place: &mut Place<'_, 'a>,
    ) -> Read<ExprNode<'a>>
        requires { ExprNests self.now.parts.room (F.pre self.now.parts.expr) (F.post self.now.parts.expr) }
        ensures { Reads expr_view (λ ts. plain.after_pre (rows self.now.parts.fuel) braces (expr_view first.entry) ts (next ts)) place.old result place.new }
    {
        if place.take(Sign::Equals) {
            let (first, second) = joined(first, self.parts.operand(braces, place))?;
            return Ok(equal_of(place.alloc(), first, second)?);
        }
        if place.take(Sign::Differs) {
            let (first, second) = joined(first, self.parts.operand(braces, place))?;
            return Ok(unequal_of(place.alloc(), first, second)?);
        }
        Ok(first)
    }

    /// An operand, or two with `==` or `!=` between.
    fn comparison<'a>(&self, braces: bool, place: &mut Place<'_, 'a>) -> Read<ExprNode<'a>>
        requires { ExprNests self.now.parts.room (F.pre self.now.parts.expr) (F.post self.now.parts.expr) }
        ensures { Reads expr_view (plain.read_cmp (rows self.now.parts.fuel) braces) place.old result place.new }
    {
        let first = self.prefixed(braces, place)?;
        self.behind_operand(braces, first, place)
    }

    /// Comparisons with `&&` before each.
    fn ands<'a>(&self, braces: bool, place: &mut Place<'_, 'a>) -> Read<ExprNodes<'a>>
        requires { ExprNests self.now.parts.room (F.pre self.now.parts.expr) (F.post self.now.parts.expr) }
        ensures { Reads (λ v. exprs_of (map expr_view v)) ((rows self.now.parts.fuel).ands braces) place.old result place.new }
    {
        let rule = AndRule {
            rules: self,
            braces,
        };
        let (found, _) = gathered(&rule, self.parts.fuel, place)?;
        Ok(found)
    }

    /// What stands behind a comparison: more of them with `&&` between, or none.
    fn behind_comparison<'a>(
        &self,
        braces: bool,
        first: ExprNode<'a>,
        place: &mut Place<'_, 'a>,
    ) -> Read<ExprNode<'a>>
        requires { ExprNests self.now.parts.room (F.pre self.now.parts.expr) (F.post self.now.parts.expr) }
        ensures { Reads expr_view (λ ts. plain.after_cmp (rows self.now.parts.fuel) braces (expr_view first.entry) ts (next ts)) place.old result place.new }
    {
        if !place.sees(Sign::AndAnd) {
            return Ok(first);
        }
        let (first, others) = joined(first, self.ands(braces, place))?;
        let all = ExprNodes::fronted(place.alloc(), first, others)?;
        Ok(and_of(place.alloc(), all)?)
    }

    /// Comparisons with `&&` between.
    fn conjunction<'a>(&self, braces: bool, place: &mut Place<'_, 'a>) -> Read<ExprNode<'a>>
        requires { ExprNests self.now.parts.room (F.pre self.now.parts.expr) (F.post self.now.parts.expr) }
        ensures { Reads expr_view (plain.read_and (rows self.now.parts.fuel) braces) place.old result place.new }
    {
        let first = self.comparison(braces, place)?;
        self.behind_comparison(braces, first, place)
    }

    /// Conjunctions with `||` before each.
    fn ors<'a>(&self, braces: bool, place: &mut Place<'_, 'a>) -> Read<ExprNodes<'a>>
        requires { ExprNests self.now.parts.room (F.pre self.now.parts.expr) (F.post self.now.parts.expr) }
        ensures { Reads (λ v. exprs_of (map expr_view v)) ((rows self.now.parts.fuel).ors braces) place.old result place.new }
    {
        let rule = OrRule {
            rules: self,
            braces,
        };
        let (found, _) = gathered(&rule, self.parts.fuel, place)?;
        Ok(found)
    }

    /// What stands behind a conjunction: more of them with `||` between, or none.
    fn behind_conjunction<'a>(
        &self,
        braces: bool,
        first: ExprNode<'a>,
        place: &mut Place<'_, 'a>,
    ) -> Read<ExprNode<'a>>
        requires { ExprNests self.now.parts.room (F.pre self.now.parts.expr) (F.post self.now.parts.expr) }
        ensures { Reads expr_view (λ ts. plain.after_and (rows self.now.parts.fuel) braces (expr_view first.entry) ts (next ts)) place.old result place.new }
    {
        if !place.sees(Sign::OrOr) {
            return Ok(first);
        }
        let (first, others) = joined(first, self.ors(braces, place))?;
        let all = ExprNodes::fronted(place.alloc(), first, others)?;
        Ok(or_of(place.alloc(), all)?)
    }

    /// An expression that isn't `return`.
    fn disjunction<'a>(&self, braces: bool, place: &mut Place<'_, 'a>) -> Read<ExprNode<'a>>
        requires { ExprNests self.now.parts.room (F.pre self.now.parts.expr) (F.post self.now.parts.expr) }
        ensures { Reads expr_view (plain_or self.now.parts.fuel braces) place.old result place.new }
    {
        let first = self.conjunction(braces, place)?;
        self.behind_conjunction(braces, first, place)
    }

    /// An expression.
    pub(crate) fn any<'a>(&self, braces: bool, place: &mut Place<'_, 'a>) -> Read<ExprNode<'a>>
        requires { ExprNests self.now.parts.room (F.pre self.now.parts.expr) (F.post self.now.parts.expr) }
        ensures { Reads expr_view (plain.read_or (rows self.now.parts.fuel) braces) place.old result place.new }
    {
        if !place.take_keyword(Keyword::Return) {
            return self.disjunction(braces, place);
        }
        let found = self.parts.whole(braces, place)?;
        Ok(return_of(place.alloc(), found)?)
    }
}

//! The rules of expressions, over a reader of the expressions in them.
#![tactic(auto, using(crate::proofs::RuleSteps::rule_steps))]

ghost use Rattle.std.specs.Prelude.{◌≡◌, true};
ghost use Rattle.dm_reread.specs.Reading.{whole};
ghost use Rattle.dm_read_places.specs.Prelude.{expr_view, Reads, ReadsWhole, rows};
ghost use Rattle.dm_read_arguments.specs.ExprNests.{ExprNests};
ghost use Rattle.dm_read_arguments.specs.Turns as spec;

use crate::sort::{Sort, Wanted};
use dm_input::join::ended;
use dm_nodes::expr::ExprNode;
use dm_read_places::place::Place;
use dm_stream::Read;

/// The rules of expressions.
#[derive(Clone, Copy)]
pub struct Exprs<F> {
    /// A number that no list in the expression exceeds, nor how deep expressions nest there.
    pub fuel: usize,
    /// How deep expressions may still nest.
    pub room: usize,
    /// Reads an expression in an expression.
    pub expr: F,
}

impl<F: Copy> Exprs<F> {
    /// The rules with other fuel.
    pub fn with(&self, fuel: usize) -> Exprs<F>
        ensures { result ≡ record { fuel = fuel; room = self.now.room; expr = self.now.expr } }
    {
        Exprs {
            fuel,
            room: self.room,
            expr: self.expr,
        }
    }
}

impl<F: Copy + for<'t, 'b> Fn(&mut Place<'t, 'b>, Wanted) -> Read<ExprNode<'b>>> Exprs<F> {
    /// What is wanted of an expression in this one.
    fn wanted(&self, sort: Sort) -> Wanted
        ensures { result ≡ record { fuel = self.now.fuel; room = self.now.room; sort = sort } }
    {
        Wanted {
            fuel: self.fuel,
            room: self.room,
            sort,
        }
    }

    /// An expression.
    pub fn whole<'a>(&self, braces: bool, place: &mut Place<'_, 'a>) -> Read<ExprNode<'a>>
        requires { ExprNests self.now.room (F.pre self.now.expr) (F.post self.now.expr) }
        ensures { Reads expr_view ((rows self.now.fuel).expr braces) place.old result place.new }
    {
        (self.expr)(place, self.wanted(Sort::Whole(braces)))
    }

    /// An operand.
    pub fn operand<'a>(&self, braces: bool, place: &mut Place<'_, 'a>) -> Read<ExprNode<'a>>
        requires { ExprNests self.now.room (F.pre self.now.expr) (F.post self.now.expr) }
        ensures { Reads expr_view ((rows self.now.fuel).pre braces) place.old result place.new }
    {
        (self.expr)(place, self.wanted(Sort::Operand(braces)))
    }

    /// An expression, and nothing behind it.
    pub fn alone<'a>(&self, place: &mut Place<'_, 'a>) -> Read<ExprNode<'a>>
        requires { ExprNests self.now.room (F.pre self.now.expr) (F.post self.now.expr) }
        ensures { ReadsWhole expr_view (λ ts. whole ((rows self.now.fuel).expr true ts)) place.old result }
    {
        let found = self.whole(true, place)?;
        ended(found, place.close())
    }

    /// An expression, and a comma behind it.
    pub fn before_comma<'a>(&self, place: &mut Place<'_, 'a>) -> Read<ExprNode<'a>>
        requires { ExprNests self.now.room (F.pre self.now.expr) (F.post self.now.expr) }
        ensures { Reads expr_view (spec.before_comma self.now.fuel) place.old result place.new }
    {
        let found = self.whole(true, place)?;
        ended(found, place.comma())
    }
}

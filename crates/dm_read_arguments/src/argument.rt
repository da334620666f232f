//! Arguments of calls, and fields with values.
#![tactic(auto, using(crate::proofs::ArgumentSteps::argument_steps))]

ghost use Rattle.std.specs.Prelude.{map, false};
ghost use Rattle.dm_output.specs.Output.{exprs_of, named_exprs_of};
ghost use Rattle.dm_reread.specs.Reading.{read_args, first_arg};
ghost use Rattle.dm_read_places.specs.Prelude.{next, expr_view, named_expr_view, Reads, ReadsWhole, rows};
ghost use Rattle.dm_read_arguments.specs.ExprNests.{ExprNests};
ghost use Rattle.dm_read_arguments.specs.Turns.{value_behind, field_value};

use crate::rules::Exprs;
use crate::sort::Wanted;
use dm_gather::Gathers;
use dm_input::join::joined;
use dm_nodes::expr::{ExprNode, ExprNodes, FieldNode, FieldNodes};
use dm_nodes::make_block::named_expr;
use dm_read_places::list::{Rule, Turn, gathered};
use dm_read_places::place::Place;
use dm_stream::Read;

/// Arguments behind the first, each with a comma in front.
#[derive(Drop)]
struct ArgRule<'g, F> {
    rules: &'g Exprs<F>,
}

impl<'g, 'a, F: Copy + for<'t, 'b> Fn(&mut Place<'t, 'b>, Wanted) -> Read<ExprNode<'b>>> Rule<'a>
    for ArgRule<'g, F> {
    ghost use Rattle.dm_output.specs.Output.{ExprTree};
    ghost use Rattle.dm_output.specs.Views.{expr_view};
    ghost use Rattle.dm_read_arguments.specs.ExprNests.{ExprNests};
    ghost use Rattle.dm_read_arguments.specs.Turns.{arg_turn};

    type Part = ExprNode<'a>;

    type Last = bool;

    ghost Tree = { ExprTree };

    ghost view = { expr_view };

    ghost usable = { λ r. ExprNests r.rules.now.room (F.pre r.rules.now.expr) (F.post r.rules.now.expr) };

    ghost reader = { λ r. arg_turn };

    fn turn(&self, fuel: usize, place: &mut Place<'_, 'a>) -> Read<Turn<ExprNode<'a>, bool>> {
        if place.at_end() {
            return Ok(Turn::End(false));
        }
        place.comma()?;
        if place.at_end() {
            return Ok(Turn::End(true));
        }
        Ok(Turn::One(self.rules.with(fuel).whole(true, place)?))
    }
}

/// Fields with values, each with a comma behind it.
#[derive(Drop)]
struct FieldRule<'g, F> {
    rules: &'g Exprs<F>,
}

impl<'g, 'a, F: Copy + for<'t, 'b> Fn(&mut Place<'t, 'b>, Wanted) -> Read<ExprNode<'b>>> Rule<'a>
    for FieldRule<'g, F> {
    ghost use Rattle.dm_stream.specs.declared.tokens.Ident.{Ident};
    ghost use Rattle.dm_output.specs.Output.{ExprTree};
    ghost use Rattle.dm_output.specs.Views.{named_expr_view};
    ghost use Rattle.dm_read_arguments.specs.ExprNests.{ExprNests};
    ghost use Rattle.dm_read_arguments.specs.Turns.{field_turn};

    type Part = FieldNode<'a>;

    type Last = ();

    ghost Tree = { Ident × ExprTree };

    ghost view = { named_expr_view };

    ghost usable = { λ r. ExprNests r.rules.now.room (F.pre r.rules.now.expr) (F.post r.rules.now.expr) };

    ghost reader = { λ r. field_turn };

    fn turn(&self, fuel: usize, place: &mut Place<'_, 'a>) -> Read<Turn<FieldNode<'a>, ()>> {
        if place.at_end() {
            return Ok(Turn::End(()));
        }
        Ok(Turn::One(self.rules.with(fuel).field(place)?))
    }
}

impl<F: Copy + for<'t, 'b> Fn(&mut Place<'t, 'b>, Wanted) -> Read<ExprNode<'b>>> Exprs<F> {
    /// Arguments behind the first, and whether a comma stands behind the last.
    fn others<'a>(&self, place: &mut Place<'_, 'a>) -> Read<(ExprNodes<'a>, bool)>
        requires { ExprNests self.now.room (F.pre self.now.expr) (F.post self.now.expr) }
        ensures { ReadsWhole (λ v. (exprs_of (map expr_view v.0), v.1)) (rows self.now.fuel).args place.old result }
    {
        let (found, last) = gathered(&ArgRule { rules: self }, self.fuel, place)?;
        Ok((found, last))
    }

    /// Some arguments to the end, and whether a comma stands behind the last.
    fn some<'a>(&self, place: &mut Place<'_, 'a>) -> Read<(ExprNodes<'a>, bool)>
        requires { ExprNests self.now.room (F.pre self.now.expr) (F.post self.now.expr) }
        ensures { ReadsWhole (λ v. (exprs_of (map expr_view v.0), v.1)) (first_arg (rows self.now.fuel)) place.old result }
    {
        let first = self.whole(true, place)?;
        let (first, (others, last)) = joined(first, self.others(place))?;
        Ok((ExprNodes::fronted(place.alloc(), first, others)?, last))
    }

    /// Arguments to the end, and whether a comma stands behind the last.
    pub fn arguments<'a>(&self, place: &mut Place<'_, 'a>) -> Read<(ExprNodes<'a>, bool)>
        requires { ExprNests self.now.room (F.pre self.now.expr) (F.post self.now.expr) }
        ensures { ReadsWhole (λ v. (exprs_of (map expr_view v.0), v.1)) (read_args (rows self.now.fuel) false) place.old result }
    {
        if place.at_end() {
            return Ok((ExprNodes::none(place.alloc()), false));
        }
        self.some(place)
    }

    /// `:`, a value and a comma.
    fn value<'a>(&self, place: &mut Place<'_, 'a>) -> Read<ExprNode<'a>>
        requires { ExprNests self.now.room (F.pre self.now.expr) (F.post self.now.expr) }
        ensures { Reads expr_view (value_behind self.now.fuel) place.old result place.new }
    {
        place.colon()?;
        self.before_comma(place)
    }

    /// A field with its value and a comma.
    fn field<'a>(&self, place: &mut Place<'_, 'a>) -> Read<FieldNode<'a>>
        requires { ExprNests self.now.room (F.pre self.now.expr) (F.post self.now.expr) }
        ensures { Reads named_expr_view (λ ts. field_value self.now.fuel (next ts)) place.old result place.new }
    {
        let name = place.declared()?;
        let (name, value) = joined(name, self.value(place))?;
        Ok(named_expr(place.alloc(), name, value)?)
    }

    /// Fields with values, to the end.
    pub fn fields<'a>(&self, place: &mut Place<'_, 'a>) -> Read<FieldNodes<'a>>
        requires { ExprNests self.now.room (F.pre self.now.expr) (F.post self.now.expr) }
        ensures { ReadsWhole (λ v. named_exprs_of (map named_expr_view v)) (rows self.now.fuel).named_exprs place.old result }
    {
        let (found, _) = gathered(&FieldRule { rules: self }, self.fuel, place)?;
        Ok(found)
    }
}

//! Blocks: statements, and perhaps an expression behind them.
#![tactic(auto, using(crate::proofs::BlockSteps::block_steps))]

ghost use Rattle.std.specs.Prelude.{map, true};
ghost use Rattle.dm_read_places.specs.Repeating.{turn_view, repeat};
ghost use Rattle.dm_read_places.specs.Prelude.{expr_view, stmt_view, block_view, next, Reads, ReadsWhole, rows};
ghost use Rattle.dm_read_arguments.specs.ExprNests.{ExprNests};
ghost use Rattle.dm_read_statements.specs.Statements.{ended_stmt};
ghost use Rattle.dm_read_blocks.specs.Turns as turns;
ghost use Rattle.dm_read_blocks.specs.Rows as spec;
ghost use Rattle.dm_nodes.specs.Boxes.{last_view};

use crate::blocks::Blocks;
use dm_gather::Gathers;
use dm_input::join::{ended, joined};
use dm_nodes::block::{BlockNode, StmtNode, StmtNodes};
use dm_nodes::expr::ExprNode;
use dm_nodes::make_block::{block_of, do_of, let_of};
use dm_read_arguments::sort::Wanted;
use dm_read_places::front::Keyword;
use dm_read_places::list::Turn;
use dm_read_places::place::Place;
use dm_read_statements::statement::{check, constant_ended, import_ended};
use dm_stream::Read;

/// What ends a block: perhaps an expression.
type Last<'a> = Option<ExprNode<'a>>;

/// An expression at a block's end is the last part, and else one with a semicolon behind it is a statement.
fn value_end<'a>(
    value: ExprNode<'a>,
    place: &mut Place<'_, 'a>,
) -> Read<Turn<StmtNode<'a>, Last<'a>>>
    ensures { Reads (turn_view stmt_view last_view) (λ ts. turns.value_end (expr_view value.entry) ts (next ts)) place.old result place.new }
{
    if place.at_end() {
        return Ok(Turn::End(Some(value)));
    }
    let value = ended(value, place.semicolon())?;
    Ok(Turn::One(do_of(place.alloc(), value)?))
}

impl<F: Copy + for<'t, 'b> Fn(&mut Place<'t, 'b>, Wanted) -> Read<ExprNode<'b>>> Blocks<F> {
    /// `=` and an expression.
    fn assigned<'a>(&self, place: &mut Place<'_, 'a>) -> Read<ExprNode<'a>>
        requires { ExprNests self.now.parts.room (F.pre self.now.parts.expr) (F.post self.now.parts.expr) }
        ensures { Reads expr_view (spec.assigned self.now.parts.fuel) place.old result place.new }
    {
        place.assigns()?;
        self.parts.whole(true, place)
    }

    /// A name and its value.
    fn named_let<'a>(&self, place: &mut Place<'_, 'a>) -> Read<StmtNode<'a>>
        requires { ExprNests self.now.parts.room (F.pre self.now.parts.expr) (F.post self.now.parts.expr) }
        ensures { Reads stmt_view (spec.named_let self.now.parts.fuel) place.old result place.new }
    {
        let name = place.declared()?;
        let (name, value) = joined(name, self.assigned(place))?;
        Ok(let_of(place.alloc(), name, value)?)
    }

    /// A name's value, or a type that is checked, behind `let`.
    fn bound<'a>(&self, place: &mut Place<'_, 'a>) -> Read<StmtNode<'a>>
        requires { ExprNests self.now.parts.room (F.pre self.now.parts.expr) (F.post self.now.parts.expr) }
        ensures { Reads stmt_view (λ ts. turns.let_of self.now.parts.fuel (next ts)) place.old result place.new }
    {
        if place.take_keyword(Keyword::Wild) {
            return check(place);
        }
        self.named_let(place)
    }

    /// The same, and a semicolon.
    fn let_ended<'a>(&self, place: &mut Place<'_, 'a>) -> Read<StmtNode<'a>>
        requires { ExprNests self.now.parts.room (F.pre self.now.parts.expr) (F.post self.now.parts.expr) }
        ensures { Reads stmt_view (λ ts. ended_stmt (turns.let_of self.now.parts.fuel (next ts))) place.old result place.new }
    {
        let found = self.bound(place)?;
        ended(found, place.semicolon())
    }

    /// A turn that begins with an expression.
    fn value_turn<'a>(&self, place: &mut Place<'_, 'a>) -> Read<Turn<StmtNode<'a>, Last<'a>>>
        requires { ExprNests self.now.parts.room (F.pre self.now.parts.expr) (F.post self.now.parts.expr) }
        ensures { Reads (turn_view stmt_view last_view) (turns.value_turn self.now.parts.fuel) place.old result place.new }
    {
        let found = self.parts.whole(true, place)?;
        value_end(found, place)
    }

    /// One statement with a semicolon behind it, or what ends a block, with fuel for what is in it.
    fn turn<'a>(&self, fuel: usize, place: &mut Place<'_, 'a>) -> Read<Turn<StmtNode<'a>, Last<'a>>>
        requires { ExprNests self.now.parts.room (F.pre self.now.parts.expr) (F.post self.now.parts.expr) }
        ensures { Reads (turn_view stmt_view last_view) (turns.block_turn fuel) place.old result place.new }
    {
        if place.at_end() {
            return Ok(Turn::End(None));
        }
        let rules = self.with(fuel);
        if place.take_keyword(Keyword::Let) {
            return Ok(Turn::One(rules.let_ended(place)?));
        }
        if place.take_keyword(Keyword::Use) {
            return Ok(Turn::One(import_ended(fuel, place)?));
        }
        if place.take_keyword(Keyword::Const) {
            return Ok(Turn::One(constant_ended(place)?));
        }
        rules.value_turn(place)
    }

    /// Statements, and perhaps an expression behind them, to the end. Its loop is that of `gathered`, as for arms.
    fn statements<'a>(&self, place: &mut Place<'_, 'a>) -> Read<(StmtNodes<'a>, Last<'a>)>
        requires { ExprNests self.now.parts.room (F.pre self.now.parts.expr) (F.post self.now.parts.expr) }
        ensures { Reads (λ v. (map stmt_view v.0, last_view v.1)) (repeat turns.block_turn self.now.parts.fuel) place.old result place.new }
    {
        let mut found = StmtNodes::none(place.alloc());
        let mut left = self.parts.fuel;
        while left > 0 {
            left -= 1;
            match self.turn(left, place) {
                Ok(Turn::One(stmt)) => found.gather(stmt)?,
                Ok(Turn::End(last)) => return Ok((found, last)),
                Err(error) => return Err(error),
            }
        }
        Err(place.refused())
    }

    /// The inside of a block, to the end.
    pub fn block<'a>(&self, place: &mut Place<'_, 'a>) -> Read<BlockNode<'a>>
        requires { ExprNests self.now.parts.room (F.pre self.now.parts.expr) (F.post self.now.parts.expr) }
        ensures { ReadsWhole block_view (rows self.now.parts.fuel).block place.old result }
    {
        let (stmts, last) = self.statements(place)?;
        Ok(block_of(place.alloc(), stmts, last)?)
    }
}

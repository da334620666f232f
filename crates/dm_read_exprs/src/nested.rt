//! Expressions and blocks that nest down to a depth.
#![tactic(auto, using(crate::proofs::NestSteps::nest_steps))]

ghost use Rattle.dm_read_places.specs.Prelude.{expr_view, block_view, Reads, ReadsWhole, rows};
ghost use Rattle.dm_read_arguments.specs.Sorts.{sorted};

use crate::operators::Operators;
use dm_nodes::block::BlockNode;
use dm_nodes::expr::ExprNode;
use dm_read_arguments::rules::Exprs;
use dm_read_arguments::sort::{Sort, Wanted};
use dm_read_blocks::blocks::Blocks;
use dm_read_places::place::Place;
use dm_stream::{Error, Read};

/// The expression that is wanted. Where more than `room` expressions stand in one another it wants memory: that of the stack. With less
/// fuel than a list in it is long, or than expressions nest deep there, what is there isn't read. Refuses where no such expression stands
/// there, or a type in it nests deeper than 128.
pub fn expr<'a>(place: &mut Place<'_, 'a>, wanted: Wanted) -> Read<ExprNode<'a>>
    ensures { Reads expr_view (sorted wanted.sort (rows wanted.fuel)) place.old result place.new }
{
    if wanted.room == 0 {
        return Err(Error::NoMemory);
    }
    if wanted.fuel == 0 {
        return Err(place.refused());
    }
    let rules = Operators {
        parts: Exprs {
            fuel: wanted.fuel - 1,
            room: wanted.room - 1,
            expr,
        },
    };
    match wanted.sort {
        Sort::Whole(braces) => rules.any(braces, place),
        Sort::Operand(braces) => rules.prefixed(braces, place),
    }
}

/// The inside of a block, to the end. `fuel` and `room` as for an expression in it. Refuses where anything else stands there.
pub fn block<'a>(place: &mut Place<'_, 'a>, fuel: usize, room: usize) -> Read<BlockNode<'a>>
    ensures { ReadsWhole block_view (rows fuel).block place.old result }
{
    let rules = Blocks {
        parts: Exprs { fuel, room, expr },
    };
    rules.block(place)
}

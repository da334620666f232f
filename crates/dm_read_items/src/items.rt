//! Implementations with the expressions in them.

ghost use Rattle.std.specs.Prelude.{map};
ghost use Rattle.dm_output.specs.Views.{item_view};
ghost use Rattle.dm_reread.specs.ReadBack.{read_output};
ghost use Rattle.dm_read_places.specs.Reads.{ReadsWhole};

use dm_nodes::item::ItemNodes;
use dm_read_exprs::nested::expr;
use dm_read_members::Bodies;
use dm_read_places::place::Place;
use dm_stream::Read;

/// How many expressions may stand in one another. Deeper ones want memory: that of the stack.
const ROOM: usize = 1024;

/// Implementations, to the end of the trees. Refuses where none stand there, or anything else does.
pub(crate) fn items<'a>(place: &mut Place<'_, 'a>) -> Read<ItemNodes<'a>>
    ensures { ReadsWhole (map item_view) read_output place.old result }
{
    let bodies = Bodies { room: ROOM, expr };
    bodies.items(place)
}

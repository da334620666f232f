//! Patterns that nest down to a depth.
#![tactic(auto, using(crate::proofs::Nesting::nesting_steps))]

ghost use Rattle.dm_read_places.specs.Prelude.{pattern_view, Reads, rows};

use crate::pattern::Patterns;
use dm_pattern_nodes::node::PatternNode;
use dm_read_places::place::Place;
use dm_stream::{Error, Read};

/// A pattern, with at most `room` patterns in one another. Deeper ones want memory: that of the stack. `fuel` is a number that no list in it
/// exceeds, nor how deep patterns nest there: with less, what is there isn't read. Refuses where no pattern stands there.
pub fn pattern<'a>(place: &mut Place<'_, 'a>, fuel: usize, room: usize) -> Read<PatternNode<'a>>
    ensures { Reads pattern_view (rows fuel).pattern place.old result place.new }
{
    if room == 0 {
        return Err(Error::NoMemory);
    }
    if fuel == 0 {
        return Err(place.refused());
    }
    let rules = Patterns {
        fuel: fuel - 1,
        room: room - 1,
        pattern,
    };
    rules.row(place)
}

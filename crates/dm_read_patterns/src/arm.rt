//! The patterns of an arm.
#![tactic(auto, using(crate::proofs::Nesting::nesting_steps))]

ghost use Rattle.std.specs.Prelude.{map};
ghost use Rattle.dm_output.specs.Output.{patterns_of};
ghost use Rattle.dm_read_places.specs.Prelude.{pattern_view, Reads, rows};
ghost use Rattle.dm_read_patterns.specs.ArmPatterns as spec;

use crate::nested::pattern;
use crate::pattern::Patterns;
use dm_input::join::joined;
use dm_pattern_nodes::node::PatternNodes;
use dm_read_places::place::Place;
use dm_stream::Read;

/// The patterns behind the first of an arm, with `|` before each.
fn alternatives<'a>(place: &mut Place<'_, 'a>, fuel: usize, room: usize) -> Read<PatternNodes<'a>>
    ensures { Reads (λ v. patterns_of (map pattern_view v)) (rows fuel).bars place.old result place.new }
{
    let rules = Patterns {
        fuel,
        room,
        pattern,
    };
    rules.alternatives(place)
}

/// Patterns with `|` between, which nest at most so deep. `fuel` and `room` as for one pattern. Refused where no pattern stands there, or
/// behind a `|`.
pub fn arm_patterns<'a>(
    place: &mut Place<'_, 'a>,
    fuel: usize,
    room: usize,
) -> Read<PatternNodes<'a>>
    ensures { Reads (λ v. patterns_of (map pattern_view v)) (spec.arm_patterns fuel) place.old result place.new }
{
    let first = pattern(place, fuel, room)?;
    let (first, others) = joined(first, alternatives(place, fuel, room))?;
    Ok(PatternNodes::fronted(place.alloc(), first, others)?)
}

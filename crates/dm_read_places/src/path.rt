//! Paths without arguments.
#![tactic(auto, using(crate::proofs::PathSteps::path_steps))]

ghost use Rattle.std.specs.Prelude.{map};
ghost use Rattle.dm_ast.specs.Tree.{segments_of};
ghost use Rattle.dm_reread.specs.Reading as plain;
ghost use Rattle.dm_read_places.specs.Turns.{segment_at};
ghost use Rattle.dm_read_places.specs.Prelude.{path_view, segment_view, next, Reads, rows};

use crate::front::Sign;
use crate::list::{Rule, Turn, repeated};
use crate::place::Place;
use dm_ast::{Path, PathArguments, PathSegment};
use dm_gather::fronted;
use dm_input::join::joined;
use dm_read_paths::path::{no_arguments, path_of, segment_of};
use dm_stream::{Ident, Read, Seq};

/// A segment.
fn segment<'a>(place: &mut Place<'_, 'a>) -> Read<PathSegment<'a>>
    ensures { Reads segment_view (λ ts. segment_at (next ts)) place.old result place.new }
{
    let Some(ident) = place.name() else {
        return Err(place.refused());
    };
    let own = ident.clone_in(place.alloc())?;
    Ok(segment_of(own, no_arguments()))
}

/// `::` and a segment, as often as they come.
#[derive(Drop)]
struct SegmentRule {}

impl<'a> Rule<'a> for SegmentRule {
    ghost use Rattle.dm_ast.specs.Tree.{SegmentTree, segment_view};
    ghost use Rattle.dm_read_places.specs.Turns.{segment_turn};

    type Part = PathSegment<'a>;

    type Last = ();

    ghost Tree = { SegmentTree };

    ghost view = { segment_view };

    ghost usable = { λ r. Unit {0} };

    ghost reader = { λ r. segment_turn };

    fn turn(&self, _fuel: usize, place: &mut Place<'_, 'a>) -> Read<Turn<PathSegment<'a>, ()>> {
        if !place.take(Sign::Colons) {
            return Ok(Turn::End(()));
        }
        Ok(Turn::One(segment(place)?))
    }
}

/// The segments behind the first.
fn segments<'a>(fuel: usize, place: &mut Place<'_, 'a>) -> Read<Seq<PathSegment<'a>>>
    ensures { Reads (λ v. segments_of (map segment_view v)) (rows fuel).segments place.old result place.new }
{
    let (found, _) = repeated(&SegmentRule {}, fuel, place)?;
    Ok(found)
}

/// A path from its first segment on.
fn path_behind<'a>(leading_colon: bool, fuel: usize, place: &mut Place<'_, 'a>) -> Read<Path<'a>>
    ensures { Reads path_view (λ ts. plain.path_from (rows fuel) leading_colon (next ts)) place.old result place.new }
{
    let first = segment(place)?;
    let (first, others) = joined(first, segments(fuel, place))?;
    Ok(path_of(leading_colon, fronted(place.alloc(), first, others)?))
}

/// A path without arguments, as `::a::b`. `fuel` is more than the number of its segments.
pub fn path<'a>(fuel: usize, place: &mut Place<'_, 'a>) -> Read<Path<'a>>
    ensures { Reads path_view (λ ts. plain.plain_path (rows fuel) (next ts)) place.old result place.new }
{
    let leading_colon = place.take(Sign::Colons);
    path_behind(leading_colon, fuel, place)
}

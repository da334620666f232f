//! Types.
#![tactic(auto, using(crate::proofs::TypeSteps::type_steps))]

ghost use Rattle.dm_reread.specs.TypeLeaves.{read_type};
ghost use Rattle.dm_reread.specs.ExactLeaves.{exact_type};
ghost use Rattle.dm_read_places.specs.Prelude.{ty_view, Reads};

use dm_ast::Ty;
use dm_input::Input;
use dm_read_exact::exact::exact;
use dm_read_places::place::Place;
use dm_read_types::entry;
use dm_stream::Read;

/// The type in front, however it is spaced.
pub fn front_type<'a>(place: &mut Place<'_, 'a>) -> Read<Ty<'a>>
    ensures { Reads ty_view read_type place.old result place.new }
{
    let mut input = Input::new(place.alloc(), 0, place.cursor());
    let found = entry::ty(&mut input)?;
    place.go(input.cursor());
    Ok(found)
}

/// A type, spaced as types are printed. Refuses where none stands there, or one that nests deeper than 128.
pub fn ty<'a>(place: &mut Place<'_, 'a>) -> Read<Ty<'a>>
    ensures { Reads ty_view exact_type place.old result place.new }
{
    let begun = place.cursor();
    let found = front_type(place)?;
    exact(found, begun, place)
}

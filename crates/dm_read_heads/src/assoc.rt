//! Associated types.
#![tactic(auto, using(crate::proofs::MemberSteps::member_steps))]

ghost use Rattle.std.specs.Prelude.{◌≡◌, map};
ghost use Rattle.dm_reread.specs.Items as plain;
ghost use Rattle.dm_reread.specs.ReadBack.{leaves};
ghost use Rattle.dm_read_places.specs.Prelude.{ty_view, assoc_view, next, Reads};
ghost use Rattle.dm_read_heads.specs.Members as spec;

use dm_ast::Ty;
use dm_gather::Nodes;
use dm_input::join::{ended, joined};
use dm_output::Assoc;
use dm_read_leaves::ty::ty;
use dm_read_places::front::Keyword;
use dm_read_places::list::{Rule, Turn, repeated};
use dm_read_places::place::Place;
use dm_stream::Read;

/// Associated types that were read.
pub type AssocTypes<'a> = Nodes<Assoc<'a>>;

/// A type and a semicolon.
fn type_ended<'a>(place: &mut Place<'_, 'a>) -> Read<Ty<'a>>
    ensures { Reads ty_view spec.type_ended place.old result place.new }
{
    let found = ty(place)?;
    ended(found, place.semicolon())
}

/// `=`, a type and a semicolon.
fn type_assigned<'a>(place: &mut Place<'_, 'a>) -> Read<Ty<'a>>
    ensures { Reads ty_view spec.type_assigned place.old result place.new }
{
    place.assigns()?;
    type_ended(place)
}

/// A name and its type.
fn assoc<'a>(place: &mut Place<'_, 'a>) -> Read<Assoc<'a>>
    ensures { Reads assoc_view (λ ts. spec.assoc_at (next ts)) place.old result place.new }
{
    let name = place.declared()?;
    let (name, ty) = joined(name, type_assigned(place))?;
    Ok(Assoc { name, ty })
}

/// Associated types.
#[derive(Clone, Copy)]
struct AssocRule;

impl<'a> Rule<'a> for AssocRule {
    ghost use Rattle.dm_output.specs.Output.{AssocTree};
    ghost use Rattle.dm_output.specs.Views.{assoc_view};
    ghost use Rattle.dm_read_heads.specs.Members.{assoc_turn};

    type Part = Assoc<'a>;

    type Last = ();

    ghost Tree = { AssocTree };

    ghost view = { assoc_view };

    ghost usable = { λ _. Unit {0} };

    ghost reader = { λ _. assoc_turn };

    fn turn(&self, _fuel: usize, place: &mut Place<'_, 'a>) -> Read<Turn<Assoc<'a>, ()>> {
        if !place.take_keyword(Keyword::Type) {
            return Ok(Turn::End(()));
        }
        Ok(Turn::One(assoc(place)?))
    }
}

/// The associated types in front, perhaps none. Refused is `type` where no associated type stands behind it. `fuel` is more than their number.
pub fn assocs<'a>(place: &mut Place<'_, 'a>, fuel: usize) -> Read<AssocTypes<'a>>
    ensures { Reads (map assoc_view) (plain.read_assocs leaves fuel) place.old result place.new }
{
    let (trees, _) = repeated(&AssocRule, fuel, place)?;
    Ok(AssocTypes::new(trees))
}

//! Lists, whatever their parts are: one part after another, up to what ends them.
#![tactic(auto, using(crate::proofs::Repeats::repeat_steps))]

ghost use Rattle.std.specs.Prelude.{◌≡◌, ℕ, Ok, Err, MatchResult, map};
ghost use Rattle.dm_stream.specs.Trees.{Trees};
ghost use Rattle.dm_reread.specs.Leaves.{Answer};
ghost use Rattle.dm_read_places.specs.declared.list.Turn.{Turn};
ghost use Rattle.dm_read_places.specs.declared.list.Turn.TheVariants.{One};
ghost use Rattle.dm_read_places.specs.Reads.{Reads};
ghost use Rattle.dm_read_places.specs.Repeating.{turn_view, repeat};

use crate::place::Place;
use dm_gather::Gathers;
use dm_stream::{Read, Seq};

/// One turn of a list: a part, or what ends the list.
#[derive(Drop)]
pub enum Turn<T, E> {
    One(T),
    End(E),
}

/// The turn of a part that was read. What it is is open here, so nothing has to be known of how it is dropped.
pub fn one<T: Drop, E: Drop>(part: Read<T>) -> Read<Turn<T, E>>
    ensures { MatchResult part (λ t. result ≡ Ok (One t)) (λ e. result ≡ Err e) }
{
    match part {
        Ok(part) => Ok(Turn::One(part)),
        Err(error) => Err(error),
    }
}

/// Reads the parts of a list, and what ends it.
pub trait Rule<'a> {
    /// What the program holds of a part.
    type Part: Drop;

    /// What it holds of the end.
    type Last: Drop;

    /// What a part is as plain data.
    ghost Tree: { Type 0 };

    ghost view: { Self.Part → Tree };

    /// What the rule itself has to meet.
    ghost usable: { Self → Type 0 };

    ghost reader: { Self → ℕ → Trees → Answer (Turn Tree Self.Last) };

    /// One turn, with fuel for what is in it.
    fn turn(&self, fuel: usize, place: &mut Place<'_, 'a>) -> Read<Turn<Self::Part, Self::Last>>
        requires { usable self.now }
        ensures { Reads (turn_view view (λ u. u)) (reader self.now fuel) place.old result place.new };
}

/// Parts up to the end, in at most so many turns.
pub fn gathered<'a, R: Rule<'a>, L: Gathers<R::Part>>(
    rule: &R,
    fuel: usize,
    place: &mut Place<'_, 'a>,
) -> Read<(L, R::Last)>
    requires { R.usable rule.now }
    ensures { Reads (λ v. (map R.view (L.parts v.0), v.1)) (repeat (R.reader rule.now) fuel) place.old result place.new }
{
    let mut items = L::none(place.alloc());
    let mut left = fuel;
    while left > 0 {
        left -= 1;
        match rule.turn(left, place) {
            Ok(Turn::One(item)) => items.gather(item)?,
            Ok(Turn::End(end)) => return Ok((items, end)),
            Err(error) => return Err(error),
        }
    }
    Err(place.refused())
}

/// The same, in a list.
pub fn repeated<'a, R: Rule<'a>>(
    rule: &R,
    fuel: usize,
    place: &mut Place<'_, 'a>,
) -> Read<(Seq<R::Part>, R::Last)>
    requires { R.usable rule.now }
    ensures { Reads (λ v. (map R.view v.0, v.1)) (repeat (R.reader rule.now) fuel) place.old result place.new }
{
    gathered(rule, fuel, place)
}

//! Lists in which something is looked for.
#![tactic(auto)]

ghost use Rattle.std.specs.Prelude.{◌≡◌, Bool};
ghost use Rattle.std.specs.List.{list_any};

use dm_stream::Seq;

/// What may hold something of the sort `S`: a name, a type.
pub trait Holds<S> {
    ghost held: { S → Self → Bool };

    fn holds(&self, sought: S) -> bool
        ensures { result ≡ held sought self.now };
}

/// Whether one of these holds it.
pub fn any_holds<S: Copy, T: Holds<S>>(all: &Seq<T>, sought: S) -> bool
    ensures { result ≡ list_any (T.held sought) all.now }
{
    for item in all.as_slice() {
        if item.holds(sought) {
            return true;
        }
    }
    false
}

//! Lists that parts are added to one after another.

ghost use Rattle.std.specs.Prelude.{◌≡◌, ◌++◌, [], ◌∷◌, List, OnOk};

use dm_stream::Seq;
use std::alloc::{AllocError, Global};

/// What parts are gathered in.
pub trait Gathers<T>: Drop {
    /// The parts, from the first to the last.
    ghost parts: { Self → List T };

    /// What holds no part.
    fn none(alloc: Global) -> Self
        ensures { parts result ≡ [] };

    /// Adds a part behind the others, or drops it for want of memory.
    fn gather(&mut self, part: T) -> Result<(), AllocError>
        ensures added { OnOk result (parts self.new ≡ parts self.old ++ part ∷ []) };
}

impl<T: Drop> Gathers<T> for Seq<T> {
    ghost parts = { λ s. s };

    fn none(alloc: Global) -> Seq<T> {
        Seq::new(alloc)
    }

    fn gather(&mut self, part: T) -> Result<(), AllocError> {
        self.add(part)
    }
}

//! The trait of copies.

ghost use Rattle.std.specs.Prelude.{◌≡◌, IfOk, map, option_map};

use dm_copy::grown;
use dm_stream::{Made, Seq};
use std::alloc::Global;

/// A tree of the output language that can be copied with an allocator. A copy has the shape of what it was made of: the same tree, memory
/// aside.
pub trait CloneEmitted: Sized + Drop {
    ghost Shape: { Type 0 };

    /// The tree without what its memory adds.
    ghost shape: { Self → Shape };

    /// An equal tree. Borrowed texts stay borrowed. It fails for want of memory alone.
    fn clone_in(&self, alloc: Global) -> Made<Self>
        ensures { IfOk result (λ r. shape r ≡ shape self.now) };
}

impl<T: CloneEmitted> CloneEmitted for Seq<T> {
    ghost use Rattle.std.specs.Prelude.{List};

    ghost Shape = { List T.Shape };

    ghost shape = { map T.shape };

    fn clone_in(&self, alloc: Global) -> Made<Self> {
        let mut found = Seq::new(alloc);
        for item in self.as_slice() {
            found = grown(found, item.clone_in(alloc))?;
        }
        Ok(found)
    }
}

impl<T: CloneEmitted> CloneEmitted for Option<T> {
    ghost use Rattle.std.specs.Prelude.{Option};

    ghost Shape = { Option T.Shape };

    ghost shape = { option_map T.shape };

    fn clone_in(&self, alloc: Global) -> Made<Self> {
        match self {
            None => Ok(None),
            Some(item) => Ok(Some(item.clone_in(alloc)?)),
        }
    }
}

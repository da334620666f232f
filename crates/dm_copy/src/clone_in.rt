//! Values that can be copied, and copies of what holds any of them.

ghost use Rattle.std.specs.Prelude.{◌≡◌, Option, None, IfOk, map, option_copied, option_map};
ghost use Rattle.dm_ast.specs.Tree.{SegmentTree};
ghost use Rattle.dm_ast.specs.Declarations.{listed};
ghost use Rattle.dm_copy.specs.Segments.{own_segment};
ghost use Rattle.dm_copy.specs.Replaced.{each};
ghost use Rattle.dm_copy.specs.Unreplaced.{each_same, list_same, option_same};

use crate::joined::{boxed, grown};
use crate::self_type::SelfType;
use dm_stream::{Punctuated, Seq};
use std::alloc::{AllocError, Global};

/// A value that can be copied with an allocator. A copy has the shape of what it was made of: the same value, memory aside.
pub trait CloneIn: Sized + Drop {
    ghost Shape: { Type 0 };

    /// The value without what its memory adds.
    ghost shape: { Self → Shape };

    /// That with a segment in place of each segment `Self`, where one is given.
    ghost replaced: { Option SegmentTree → Shape → Shape };

    /// A copy with this type in place of each segment `Self`, where one is given. Borrowed texts stay borrowed. It fails for want of
    /// memory alone.
    fn replace_self(&self, own: Option<&SelfType>, alloc: Global) -> Result<Self, AllocError>
        ensures { IfOk result (λ r. shape r ≡ replaced (own_segment (option_copied own.entry)) (shape self.now)) };

    ghost same: { (x : Shape) → replaced None x ≡ x };

    /// An equal value. Borrowed texts stay borrowed. It fails for want of memory alone.
    final fn clone_in(&self, alloc: Global) -> Result<Self, AllocError>
        ensures { IfOk result (λ r. shape r ≡ shape self.now) }
    {
        self.replace_self(None, alloc)
    }
}

impl<T: CloneIn> CloneIn for Seq<T> {
    ghost use Rattle.std.specs.Prelude.{List};

    ghost Shape = { List T.Shape };

    ghost shape = { map T.shape };

    ghost replaced = { λ own. map (T.replaced own) };

    ghost same = { list_same (T.replaced None) T.same };

    fn replace_self(&self, own: Option<&SelfType>, alloc: Global) -> Result<Self, AllocError> {
        let all = self.as_slice();
        let mut found = Seq::new(alloc);
        for item in all {
            found = grown(found, item.replace_self(own, alloc))?;
        }
        Ok(found)
    }
}

impl<T: CloneIn> CloneIn for Punctuated<T> {
    ghost use Rattle.dm_ast.specs.Declarations.{Listed};

    ghost Shape = { Listed T.Shape };

    ghost shape = { listed T.shape };

    ghost replaced = { λ own. each (T.replaced own) };

    ghost same = { each_same (T.replaced None) T.same };

    fn replace_self(&self, own: Option<&SelfType>, alloc: Global) -> Result<Self, AllocError> {
        let items = self.items.replace_self(own, alloc)?;
        Ok(Punctuated {
            items,
            trailing: self.trailing,
        })
    }
}

impl<T: CloneIn> CloneIn for Option<T> {
    ghost use Rattle.std.specs.Prelude.{Option, None};

    ghost Shape = { Option T.Shape };

    ghost shape = { option_map T.shape };

    ghost replaced = { λ own. option_map (T.replaced own) };

    ghost same = { option_same (T.replaced None) T.same };

    fn replace_self(&self, own: Option<&SelfType>, alloc: Global) -> Result<Self, AllocError> {
        match self {
            None => Ok(None),
            Some(value) => Ok(Some(value.replace_self(own, alloc)?)),
        }
    }
}

impl<T: CloneIn> CloneIn for Box<T> {
    ghost Shape = { T.Shape };

    ghost shape = { λ b. T.shape b.value };

    ghost replaced = { T.replaced };

    ghost same = { T.same };

    fn replace_self(&self, own: Option<&SelfType>, alloc: Global) -> Result<Self, AllocError> {
        let value: &T = self;
        boxed(alloc, value.replace_self(own, alloc))
    }
}

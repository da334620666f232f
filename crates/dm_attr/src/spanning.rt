//! An item with its range.

ghost use Rattle.std.specs.Prelude.{◌≡◌};
ghost use Rattle.std.specs.Borrow.{sem};
ghost use Rattle.dm_attr.specs.Spannings.{transposed, LendsItem};

use dm_stream::Span;
use std::ops::{Deref, DerefMut};

/// An item, and the range of the attribute that it was read from, as derive_more's `Spanning`.
#[derive(Drop)]
pub struct Spanning<T> {
    pub span: Span,
    pub item: T,
}

impl<T> Spanning<T> {
    /// The item with this range.
    pub fn new(item: T, span: Span) -> Spanning<T>
        ensures { result ≡ record { span = span; item = item } }
    {
        Spanning { span, item }
    }

    /// The item alone.
    pub fn into_inner(self) -> T
        ensures { result ≡ self.item }
    {
        self.item
    }

    /// The range.
    pub fn span(&self) -> Span
        ensures { result ≡ self.now.span }
    {
        self.span
    }

    /// A reference to the item, with the same range.
    pub fn as_ref(&self) -> Spanning<&T>
        ensures span { result.span ≡ self.now.span }
        ensures item { result.item.now ≡ self.now.item }
    {
        Spanning {
            span: self.span,
            item: &self.item,
        }
    }

    /// What `f` makes of the item, with the same range.
    pub fn map<U, F: FnOnce(T) -> U>(self, f: F) -> Spanning<U>
        requires { F.pre f self.item }
        ensures span { result.span ≡ self.span }
        ensures item { F.post f self.item result.item }
    {
        Spanning {
            span: self.span,
            item: f(self.item),
        }
    }
}

impl<T> Spanning<Option<T>> {
    /// The item with the range, where there is one.
    pub fn transpose(self) -> Option<Spanning<T>>
        ensures { result ≡ transposed self }
    {
        let Spanning { span, item } = self;
        match item {
            None => None,
            Some(item) => Some(Spanning { span, item }),
        }
    }
}

/// The item.
impl<T> Deref for Spanning<T> {
    type Target = T;

    ghost deref_gives = { λ s item. item ≡ s.item };

    fn deref(&self) -> &T {
        &self.item
    }
}

/// The item, which may be written. The range stays.
impl<T> DerefMut for Spanning<T> {
    ghost deref_mut_gives = { λ s item. item ≡ s.item };

    fn deref_mut(&mut self) -> &mut T
        ensures* writes_back { sem 𝓛 (LendsItem T.row self.entry result) }
        ensures shows { result.now ≡ self.old.item }
    {
        &mut self.item
    }
}

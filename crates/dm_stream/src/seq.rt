ghost use Rattle.std.specs.Prelude.{◌≡◌, false, [], ◌∷◌, ◌++◌, ◌<◌, ◌^◌, length, slice_get, MatchResult, IfOk, OnErr, OnOk, OnSome, IsSome, IsTrue, ◌↔◌};
ghost use Rattle.std.specs.Option.{option_copied, option_to_list};
ghost use Rattle.std.specs.Cmp.Lexicographic.{pointwise, lists_per, lists_equiv};
ghost use Rattle.std.specs.Slice.Iter.{iter_rest};
ghost use Rattle.std.specs.Iterator.Adapters.{IterYieldsInOrder};
ghost use Rattle.std.specs.Vec.Iter.{into_iter_items};

use std::alloc::{AllocError, Global};
use std::marker::Model;
use std::{slice, vec};

/// A growing sequence that contracts see as the list of its items.
#[derive(Debug)]
pub struct Seq<T> {
    held: Vec<T>,
}

impl<T: Drop> Drop for Seq<T> {
    fn drop(self) {
        let Self { held: _ } = self;
    }
}

impl<T> Model for Seq<T> {
    ghost use Rattle.std.specs.Prelude.{List};
    ghost use Rattle.std.specs.Coded.{coded_list};

    ghost Value = { List T };

    ghost coded = { coded_list T.code };

    ghost view = { λ s. s.held.items };
}

impl<T> Seq<T> {
    /// The empty list. It keeps the allocator for what is added.
    pub fn new(alloc: Global) -> Seq<T>
        ensures { result ≡ [] }
    {
        Seq {
            held: Vec::new(alloc),
        }
    }

    /// The empty list, with room for so many items.
    pub fn with_capacity(alloc: Global, capacity: usize) -> Result<Seq<T>, AllocError>
        ensures { IfOk result (λ it. it ≡ []) }
    {
        let held = Vec::with_capacity(alloc, capacity)?;
        Ok(Seq { held })
    }

    /// Adds an item at the end, or hands it back for want of memory. The first two items have room for themselves alone:
    /// most lists of a syntax tree are no longer.
    pub fn push(&mut self, item: T) -> Result<(), T>
        ensures pushed { OnOk result (self.new ≡ self.old ++ item ∷ []) }
        ensures refused { MatchResult result (λ _. Unit {0}) (λ back. back ≡ item) }
        ensures unchanged { OnErr result (self.new ≡ self.old) }
    {
        if self.held.len() < 2 && self.held.reserve_exact(1).is_err() {
            return Err(item);
        }
        match self.held.push(item) {
            Ok(()) => Ok(()),
            Err(failed) => Err(failed.value),
        }
    }

    /// Takes the last item away, where there is one.
    pub fn pop(&mut self) -> Option<T>
        ensures taken { self.old ≡ self.new ++ option_to_list result }
        ensures some { IsSome result ↔ (0 < length self.old) }
    {
        self.held.pop()
    }

    /// The number of items.
    pub fn len(&self) -> usize
        ensures { result ≡ length self.now }
    {
        self.held.len()
    }

    /// Whether there is no item.
    pub fn is_empty(&self) -> bool
        ensures { IsTrue result ↔ (self.now ≡ []) }
    {
        self.held.is_empty()
    }

    /// The item at this place, the first at 0.
    pub fn get(&self, at: usize) -> Option<&T>
        ensures value { option_copied result ≡ slice_get self.now at }
        ensures within { OnSome result (at < length self.now) }
    {
        self.held.get(at)
    }

    /// The items as a slice.
    pub fn as_slice(&self) -> &[T]
        ensures { result.now ≡ self.now }
    {
        self.held.as_slice()
    }

    /// The items from the first to the last.
    pub fn iter(&self) -> slice::Iter<'_, T>
        ensures rest { iter_rest result ≡ self.now }
        ensures bound { length (iter_rest result) < 2 ^ 64 }
        ensures runs { IterYieldsInOrder T }
    {
        self.held.iter()
    }

    /// The items themselves, from the first to the last.
    pub fn into_iter(self) -> vec::IntoIter<T, Global>
        ensures { into_iter_items result ≡ self }
    {
        let Self { held } = self;
        held.into_iter()
    }
}

impl<T: Drop> Seq<T> {
    /// Adds the items of another list at the end, or drops them for want of memory.
    pub fn append(&mut self, other: Seq<T>) -> Result<(), AllocError>
        ensures appended { OnOk result (self.new ≡ self.old ++ other) }
        ensures unchanged { OnErr result (self.new ≡ self.old) }
    {
        let mut more = other;
        self.held.append(&mut more.held)
    }

    /// Adds an item at the end, or drops it for want of memory.
    pub fn add(&mut self, item: T) -> Result<(), AllocError>
        ensures added { OnOk result (self.new ≡ self.old ++ item ∷ []) }
        ensures unchanged { OnErr result (self.new ≡ self.old) }
    {
        match self.push(item) {
            Ok(()) => Ok(()),
            Err(_) => Err(AllocError),
        }
    }
}

impl<T: PartialEq> PartialEq for Seq<T> {
    ghost eq = { λ a b. pointwise T.eq a b };

    ghost laws = { lists_per T.laws };

    fn eq(&self, other: &Self) -> bool {
        self.as_slice() == other.as_slice()
    }
}

impl<T: Eq> Eq for Seq<T> {
    ghost laws = { lists_equiv T.Eq.laws };
}

/// Items with commas or the like between them. `trailing` says whether one follows the last item too.
#[derive(Debug, PartialEq, Eq, Drop)]
pub struct Punctuated<T> {
    pub items: Seq<T>,
    pub trailing: bool,
}

impl<T> Punctuated<T> {
    /// The empty list. It keeps the allocator for what is added.
    pub fn new(alloc: Global) -> Punctuated<T>
        ensures items { result.items ≡ [] }
        ensures trailing { result.trailing ≡ false }
    {
        Punctuated {
            items: Seq::new(alloc),
            trailing: false,
        }
    }

    /// Adds an item at the end, or hands it back for want of memory.
    pub fn push(&mut self, item: T) -> Result<(), T>
        ensures pushed { OnOk result (self.new.items ≡ self.old.items ++ item ∷ []) }
        ensures refused { MatchResult result (λ _. Unit {0}) (λ back. back ≡ item) }
        ensures unchanged { OnErr result (self.new.items ≡ self.old.items) }
        ensures trailing { self.new.trailing ≡ self.old.trailing }
    {
        self.items.push(item)
    }

    /// The number of items.
    pub fn len(&self) -> usize
        ensures { result ≡ length self.now.items }
    {
        self.items.len()
    }

    /// Whether there is no item.
    pub fn is_empty(&self) -> bool
        ensures { IsTrue result ↔ (self.now.items ≡ []) }
    {
        self.items.is_empty()
    }

    /// The item at this place, the first at 0.
    pub fn get(&self, at: usize) -> Option<&T>
        ensures value { option_copied result ≡ slice_get self.now.items at }
        ensures within { OnSome result (at < length self.now.items) }
    {
        self.items.get(at)
    }

    /// The items as a slice.
    pub fn as_slice(&self) -> &[T]
        ensures { result.now ≡ self.now.items }
    {
        self.items.as_slice()
    }

    /// The items from the first to the last.
    pub fn iter(&self) -> slice::Iter<'_, T>
        ensures rest { iter_rest result ≡ self.now.items }
        ensures bound { length (iter_rest result) < 2 ^ 64 }
        ensures runs { IterYieldsInOrder T }
    {
        self.items.iter()
    }
}

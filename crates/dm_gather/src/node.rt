//! Trees in boxes of their own, and lists of trees. Both are private, so that what holds them needs to know nothing of how trees are
//! dropped and how large they are; contracts see the trees.

ghost use Rattle.std.specs.Prelude.{◌≡◌, ◌∷◌, ◌++◌, ◌<◌, ◌↔◌, [], length, IfOk, IsSome, IsTrue};
ghost use Rattle.std.specs.Option.{option_to_list};

use crate::list::Gathers;
use dm_stream::{Made, Seq};
use std::alloc::{AllocError, Global};
use std::marker::Model;

/// A tree in a box.
pub struct Node<T> {
    tree: Box<T>,
}

impl<T> Model for Node<T> {
    ghost Value = { T };

    ghost coded = { T.code };

    ghost view = { λ n. n.tree.value };
}

impl<T: Drop> Drop for Node<T> {
    fn drop(self) {
        let Self { tree: _ } = self;
    }
}

impl<T: Drop> Node<T> {
    /// The node of a tree, or the tree is dropped for want of memory.
    pub fn new(alloc: Global, tree: T) -> Made<Node<T>>
        ensures { IfOk result (λ n. n ≡ tree) }
    {
        let tree = Box::new(alloc, tree)?;
        Ok(Node { tree })
    }

    /// Its tree.
    pub fn as_tree(&self) -> &T
        ensures { result.now ≡ self.now }
    {
        &self.tree
    }

    /// Its tree in its box.
    pub fn into_box(self) -> Box<T>
        ensures { result.value ≡ self }
    {
        let Self { tree } = self;
        tree
    }

    /// Its tree.
    pub fn into_tree(self) -> T
        ensures { result ≡ self }
    {
        Box::into_inner(self.into_box())
    }
}

/// Trees, one behind another.
pub struct Nodes<T> {
    trees: Seq<T>,
}

impl<T> Model for Nodes<T> {
    ghost use Rattle.std.specs.Prelude.{List};
    ghost use Rattle.std.specs.Coded.{coded_list};

    ghost Value = { List T };

    ghost coded = { coded_list T.code };

    ghost view = { λ n. n.trees };
}

impl<T: Drop> Drop for Nodes<T> {
    fn drop(self) {
        let Self { trees: _ } = self;
    }
}

impl<T: Drop> Gathers<Node<T>> for Nodes<T> {
    ghost parts = { λ n. n };

    fn none(alloc: Global) -> Nodes<T> {
        Nodes {
            trees: Seq::new(alloc),
        }
    }

    fn gather(&mut self, part: Node<T>) -> Result<(), AllocError> {
        self.trees.add(part.into_tree())
    }
}

impl<T: Drop> Nodes<T> {
    /// The nodes of these trees.
    pub fn new(trees: Seq<T>) -> Nodes<T>
        ensures { result ≡ trees }
    {
        Nodes { trees }
    }

    /// A tree in front of others.
    pub fn fronted(alloc: Global, first: Node<T>, others: Nodes<T>) -> Made<Nodes<T>>
        ensures { IfOk result (λ all. all ≡ first ∷ others) }
    {
        let trees = fronted(alloc, first.into_tree(), others.into_trees())?;
        Ok(Nodes { trees })
    }

    /// How many there are.
    pub fn len(&self) -> usize
        ensures { result ≡ length self.now }
    {
        self.trees.len()
    }

    /// Whether there is none.
    pub fn is_empty(&self) -> bool
        ensures { IsTrue result ↔ (self.now ≡ []) }
    {
        self.trees.is_empty()
    }

    /// Takes the last one away, where there is one. Where memory is short it is gone.
    pub fn pop(&mut self, alloc: Global) -> Made<Option<Node<T>>>
        ensures taken { IfOk result (λ o. self.old ≡ self.new ++ option_to_list o) }
        ensures some { IfOk result (λ o. IsSome o ↔ (0 < length self.old)) }
    {
        match self.trees.pop() {
            Some(tree) => Ok(Some(Node::new(alloc, tree)?)),
            None => Ok(None),
        }
    }

    /// The trees, as a slice.
    pub fn as_slice(&self) -> &[T]
        ensures { result.now ≡ self.now }
    {
        self.trees.as_slice()
    }

    /// The trees.
    pub fn into_trees(self) -> Seq<T>
        ensures { result ≡ self }
    {
        let Self { trees } = self;
        trees
    }
}

/// The part in front of the others.
pub fn fronted<T: Drop>(alloc: Global, first: T, others: Seq<T>) -> Made<Seq<T>>
    ensures { IfOk result (λ all. all ≡ first ∷ others) }
{
    let mut all = Seq::new(alloc);
    all.add(first)?;
    all.append(others)?;
    Ok(all)
}

/// Drops a part.
pub fn discard<T: Drop>(_part: T) {}

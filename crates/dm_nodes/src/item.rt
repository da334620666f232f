//! Methods and implementations in nodes.

use dm_gather::{Node, Nodes};
use dm_output::{Item, Method};

/// A method.
pub type MethodNode<'a> = Node<Method<'a>>;

/// Methods, one behind another.
pub type MethodNodes<'a> = Nodes<Method<'a>>;

/// An implementation.
pub type ItemNode<'a> = Node<Item<'a>>;

/// Implementations, one behind another.
pub type ItemNodes<'a> = Nodes<Item<'a>>;

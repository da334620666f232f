//! Patterns, and fields with their patterns, in nodes.

use dm_gather::{Node, Nodes};
use dm_output::{NamedPattern, Pattern};

/// A pattern.
pub type PatternNode<'a> = Node<Pattern<'a>>;

/// Patterns, one behind another.
pub type PatternNodes<'a> = Nodes<Pattern<'a>>;

/// A field with its pattern.
pub type NamedNode<'a> = Node<NamedPattern<'a>>;

/// Fields with their patterns, one behind another.
pub type NamedNodes<'a> = Nodes<NamedPattern<'a>>;

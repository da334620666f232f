//! Arms, statements and blocks in nodes.

use dm_gather::{Node, Nodes};
use dm_output::{Arm, ArmBody, Block, Stmt};

/// What stands behind `=>`.
pub type BodyNode<'a> = Node<ArmBody<'a>>;

/// An arm.
pub type ArmNode<'a> = Node<Arm<'a>>;

/// Arms, one behind another.
pub type ArmNodes<'a> = Nodes<Arm<'a>>;

/// A statement.
pub type StmtNode<'a> = Node<Stmt<'a>>;

/// Statements, one behind another.
pub type StmtNodes<'a> = Nodes<Stmt<'a>>;

/// A block.
pub type BlockNode<'a> = Node<Block<'a>>;

//! Expressions, and fields with their values, in nodes.

use dm_gather::{Node, Nodes};
use dm_output::{Expr, NamedExpr};

/// An expression.
pub type ExprNode<'a> = Node<Expr<'a>>;

/// Expressions, one behind another.
pub type ExprNodes<'a> = Nodes<Expr<'a>>;

/// A field with its value.
pub type FieldNode<'a> = Node<NamedExpr<'a>>;

/// Fields with their values, one behind another.
pub type FieldNodes<'a> = Nodes<NamedExpr<'a>>;

//! Fields, arms, statements and blocks of their parts.
#![tactic(auto, using(dm_output::proofs::View::view_steps))]

ghost use Rattle.std.specs.Prelude.{◌≡◌, IfOk, map, option_map};
ghost use Rattle.dm_ast.specs.Tree.{ty_view, path_view};
ghost use Rattle.dm_output.specs.Output as tree;
ghost use Rattle.dm_output.specs.Views.{expr_view, named_expr_view, pattern_view, opaque_view, arm_view, body_view, stmt_view, block_view};
ghost use Rattle.dm_nodes.specs.Boxes.{last_view, IsBoxed};

use crate::block::{ArmNode, BlockNode, BodyNode, StmtNode, StmtNodes};
use crate::expr::{ExprNode, FieldNode};
use dm_ast::{Opaque, Path, Ty};
use dm_output::{Arm, ArmBody, Block, Expr, NamedExpr, Stmt};
use dm_pattern_nodes::node::PatternNodes;
use dm_stream::{Ident, Literal, Made};
use std::alloc::Global;

/// `x: a`
pub fn named_expr<'a>(alloc: Global, name: Ident<'a>, value: ExprNode<'a>) -> Made<FieldNode<'a>>
    ensures { IfOk result (λ f. named_expr_view f ≡ (name.entry, expr_view value.entry)) }
{
    let value = value.into_tree();
    Ok(FieldNode::new(alloc, NamedExpr { name, value })?)
}

/// The tree of an expression that may be there.
fn maybe_tree<'a>(node: Option<ExprNode<'a>>) -> Option<Expr<'a>>
    ensures { result ≡ node.entry }
{
    match node {
        Some(node) => Some(node.into_tree()),
        None => None,
    }
}

/// An arm.
pub fn arm_of<'a>(
    alloc: Global,
    patterns: PatternNodes<'a>,
    behind: (Option<ExprNode<'a>>, BodyNode<'a>),
) -> Made<ArmNode<'a>>
    ensures { IfOk result (λ a. arm_view a ≡ record { patterns = tree.patterns_of (map pattern_view patterns.entry); guard = tree.maybe_expr (option_map expr_view behind.entry.0); body = body_view behind.entry.1 }) }
{
    let (guard, body) = behind;
    let guard = maybe_tree(guard);
    let body = body.into_tree();
    let tree = Arm {
        patterns: patterns.into_trees(),
        guard,
        body,
    };
    Ok(ArmNode::new(alloc, tree)?)
}

/// A block behind `=>`.
pub fn block_body<'a>(alloc: Global, block: BlockNode<'a>) -> Made<BodyNode<'a>>
    ensures { IfOk result (λ b. body_view b ≡ tree.block_body (block_view block.entry)) }
{
    Ok(BodyNode::new(alloc, ArmBody::Block(block.into_tree()))?)
}

/// An expression behind `=>`.
pub fn expr_body<'a>(alloc: Global, value: ExprNode<'a>) -> Made<BodyNode<'a>>
    ensures { IfOk result (λ b. body_view b ≡ tree.expr_body (expr_view value.entry)) }
{
    Ok(BodyNode::new(alloc, ArmBody::Expr(value.into_tree()))?)
}

/// The last expression of a block in its box.
fn boxed_last<'a>(last: Option<ExprNode<'a>>) -> Option<Box<Expr<'a>>>
    ensures { IsBoxed last.entry result }
{
    match last {
        Some(node) => Some(node.into_box()),
        None => None,
    }
}

/// A block.
#[tactic(auto, using(crate::proofs::BoxSteps::box_steps))]
pub fn block_of<'a>(
    alloc: Global,
    stmts: StmtNodes<'a>,
    last: Option<ExprNode<'a>>,
) -> Made<BlockNode<'a>>
    ensures { IfOk result (λ b. block_view b ≡ tree.block (tree.stmts_of (map stmt_view stmts.entry)) (last_view last.entry)) }
{
    let last = boxed_last(last);
    let tree = Block {
        stmts: stmts.into_trees(),
        last,
    };
    Ok(BlockNode::new(alloc, tree)?)
}

/// `let x = a;`
pub fn let_of<'a>(alloc: Global, name: Ident<'a>, value: ExprNode<'a>) -> Made<StmtNode<'a>>
    ensures { IfOk result (λ s. stmt_view s ≡ tree.let_stmt name.entry (expr_view value.entry)) }
{
    Ok(StmtNode::new(alloc, Stmt::Let(name, value.into_tree()))?)
}

/// `let _: T;`
pub fn check_of<'a>(alloc: Global, ty: Ty<'a>) -> Made<StmtNode<'a>>
    ensures { IfOk result (λ s. stmt_view s ≡ tree.check_stmt (ty_view ty.entry)) }
{
    Ok(StmtNode::new(alloc, Stmt::Check(ty))?)
}

/// `use p as _;`
pub fn import_of<'a>(alloc: Global, path: Path<'a>) -> Made<StmtNode<'a>>
    ensures { IfOk result (λ s. stmt_view s ≡ tree.import_stmt (path_view path.entry)) }
{
    Ok(StmtNode::new(alloc, Stmt::Import(path))?)
}

/// `a;`
pub fn do_of<'a>(alloc: Global, value: ExprNode<'a>) -> Made<StmtNode<'a>>
    ensures { IfOk result (λ s. stmt_view s ≡ tree.do_stmt (expr_view value.entry)) }
{
    Ok(StmtNode::new(alloc, Stmt::Expr(value.into_tree()))?)
}

/// `const X: T = (tokens) + n;`
pub fn const_of<'a>(
    alloc: Global,
    name: Ident<'a>,
    behind: (Ty<'a>, (Option<Opaque<'a>>, Literal<'a>)),
) -> Made<StmtNode<'a>>
    ensures { IfOk result (λ s. stmt_view s ≡ tree.const_stmt name.entry (ty_view behind.entry.0) (option_map opaque_view behind.entry.1.0) behind.entry.1.1) }
{
    let (ty, (base, number)) = behind;
    Ok(StmtNode::new(alloc, Stmt::Const(name, ty, base, number))?)
}

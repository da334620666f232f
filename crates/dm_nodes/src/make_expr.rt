//! Expressions of their parts.
#![tactic(auto, using(dm_output::proofs::View::view_steps))]

ghost use Rattle.std.specs.Prelude.{◌≡◌, IfOk, map};
ghost use Rattle.dm_ast.specs.Tree.{path_view, maybe_self_view};
ghost use Rattle.dm_output.specs.Output as tree;
ghost use Rattle.dm_output.specs.Views.{expr_view, named_expr_view, opaque_view, fmt_view, arm_view};

use crate::block::ArmNodes;
use crate::expr::{ExprNode, ExprNodes, FieldNodes};
use dm_ast::Opaque;
use dm_output::{Expr, FmtArgs, Member, PathExpr};
use dm_stream::{Ident, Literal, Made};
use std::alloc::Global;

/// `return a`
pub fn return_of<'a>(alloc: Global, value: ExprNode<'a>) -> Made<ExprNode<'a>>
    ensures { IfOk result (λ e. expr_view e ≡ tree.return_expr (expr_view value.entry)) }
{
    Ok(ExprNode::new(alloc, Expr::Return(value.into_box()))?)
}

/// `*a`
pub fn deref_of<'a>(alloc: Global, value: ExprNode<'a>) -> Made<ExprNode<'a>>
    ensures { IfOk result (λ e. expr_view e ≡ tree.deref (expr_view value.entry)) }
{
    Ok(ExprNode::new(alloc, Expr::Deref(value.into_box()))?)
}

/// `&a` or `&mut a`
pub fn ref_of<'a>(alloc: Global, is_mut: bool, value: ExprNode<'a>) -> Made<ExprNode<'a>>
    ensures { IfOk result (λ e. expr_view e ≡ tree.ref_expr is_mut (expr_view value.entry)) }
{
    Ok(ExprNode::new(alloc, Expr::Ref(is_mut, value.into_box()))?)
}

/// `&(tokens)`
pub fn ref_opaque<'a>(alloc: Global, tokens: Opaque<'a>) -> Made<ExprNode<'a>>
    ensures { IfOk result (λ e. expr_view e ≡ tree.ref_opaque (opaque_view tokens.entry)) }
{
    Ok(ExprNode::new(alloc, Expr::RefOpaque(tokens))?)
}

/// `a == b`
pub fn equal_of<'a>(alloc: Global, left: ExprNode<'a>, right: ExprNode<'a>) -> Made<ExprNode<'a>>
    ensures { IfOk result (λ e. expr_view e ≡ tree.equal (expr_view left.entry) (expr_view right.entry)) }
{
    Ok(ExprNode::new(alloc, Expr::Equal(left.into_box(), right.into_box()))?)
}

/// `a != b`
pub fn unequal_of<'a>(alloc: Global, left: ExprNode<'a>, right: ExprNode<'a>) -> Made<ExprNode<'a>>
    ensures { IfOk result (λ e. expr_view e ≡ tree.unequal (expr_view left.entry) (expr_view right.entry)) }
{
    Ok(ExprNode::new(alloc, Expr::Unequal(left.into_box(), right.into_box()))?)
}

/// `a && b`
pub fn and_of<'a>(alloc: Global, parts: ExprNodes<'a>) -> Made<ExprNode<'a>>
    ensures { IfOk result (λ e. expr_view e ≡ tree.and_expr (tree.exprs_of (map expr_view parts.entry))) }
{
    Ok(ExprNode::new(alloc, Expr::And(parts.into_trees()))?)
}

/// `a || b`
pub fn or_of<'a>(alloc: Global, parts: ExprNodes<'a>) -> Made<ExprNode<'a>>
    ensures { IfOk result (λ e. expr_view e ≡ tree.or_expr (tree.exprs_of (map expr_view parts.entry))) }
{
    Ok(ExprNode::new(alloc, Expr::Or(parts.into_trees()))?)
}

/// `"text"`
pub fn str_of<'a>(alloc: Global, text: Literal<'a>) -> Made<ExprNode<'a>>
    ensures { IfOk result (λ e. expr_view e ≡ tree.str_expr text.entry) }
{
    Ok(ExprNode::new(alloc, Expr::Str(text))?)
}

/// `true` or `false`
pub fn bool_of<'a>(alloc: Global, value: bool) -> Made<ExprNode<'a>>
    ensures { IfOk result (λ e. expr_view e ≡ tree.bool value) }
{
    Ok(ExprNode::new(alloc, Expr::Bool(value))?)
}

/// `unsafe { a }`
pub fn unsafe_of<'a>(alloc: Global, value: ExprNode<'a>) -> Made<ExprNode<'a>>
    ensures { IfOk result (λ e. expr_view e ≡ tree.unsafe_expr (expr_view value.entry)) }
{
    Ok(ExprNode::new(alloc, Expr::Unsafe(value.into_box()))?)
}

/// `match a { arms }`
pub fn match_of<'a>(alloc: Global, value: ExprNode<'a>, arms: ArmNodes<'a>) -> Made<ExprNode<'a>>
    ensures { IfOk result (λ e. expr_view e ≡ tree.match_expr (expr_view value.entry) (tree.arms_of (map arm_view arms.entry))) }
{
    Ok(ExprNode::new(alloc, Expr::Match(value.into_box(), arms.into_trees()))?)
}

/// `(tokens)(a)`
pub fn opaque_call<'a>(alloc: Global, tokens: Opaque<'a>, value: ExprNode<'a>) -> Made<ExprNode<'a>>
    ensures { IfOk result (λ e. expr_view e ≡ tree.opaque_call (opaque_view tokens.entry) (expr_view value.entry)) }
{
    Ok(ExprNode::new(alloc, Expr::OpaqueCall(tokens, value.into_box()))?)
}

/// `(a)`
pub fn paren_of<'a>(alloc: Global, value: ExprNode<'a>) -> Made<ExprNode<'a>>
    ensures { IfOk result (λ e. expr_view e ≡ tree.paren (expr_view value.entry)) }
{
    Ok(ExprNode::new(alloc, Expr::Paren(value.into_box()))?)
}

/// `(a, b)`
pub fn tuple_of<'a>(alloc: Global, parts: ExprNodes<'a>) -> Made<ExprNode<'a>>
    ensures { IfOk result (λ e. expr_view e ≡ tree.tuple (tree.exprs_of (map expr_view parts.entry))) }
{
    Ok(ExprNode::new(alloc, Expr::Tuple(parts.into_trees()))?)
}

/// A path as an expression.
pub fn path_expr<'a>(alloc: Global, path: PathExpr<'a>) -> Made<ExprNode<'a>>
    ensures { IfOk result (λ e. expr_view e ≡ tree.path_expr (maybe_self_view path.entry.qself) (path_view path.entry.path)) }
{
    Ok(ExprNode::new(alloc, Expr::Path(path))?)
}

/// `f(a, b)`
pub fn call_of<'a>(alloc: Global, path: PathExpr<'a>, args: ExprNodes<'a>) -> Made<ExprNode<'a>>
    ensures { IfOk result (λ e. expr_view e ≡ tree.call (maybe_self_view path.entry.qself) (path_view path.entry.path) (tree.exprs_of (map expr_view args.entry))) }
{
    Ok(ExprNode::new(alloc, Expr::Call(path, args.into_trees()))?)
}

/// `f(a, b,)`
pub fn build_of<'a>(alloc: Global, path: PathExpr<'a>, args: ExprNodes<'a>) -> Made<ExprNode<'a>>
    ensures { IfOk result (λ e. expr_view e ≡ tree.build (maybe_self_view path.entry.qself) (path_view path.entry.path) (tree.exprs_of (map expr_view args.entry))) }
{
    Ok(ExprNode::new(alloc, Expr::Build(path, args.into_trees()))?)
}

/// `f { x: a, }`
pub fn built<'a>(alloc: Global, path: PathExpr<'a>, fields: FieldNodes<'a>) -> Made<ExprNode<'a>>
    ensures { IfOk result (λ e. expr_view e ≡ tree.build_named (maybe_self_view path.entry.qself) (path_view path.entry.path) (tree.named_exprs_of (map named_expr_view fields.entry))) }
{
    Ok(ExprNode::new(alloc, Expr::BuildNamed(path, fields.into_trees()))?)
}

/// `a.x`
pub fn member_of<'a>(
    alloc: Global,
    receiver: ExprNode<'a>,
    member: Member<'a>,
) -> Made<ExprNode<'a>>
    ensures { IfOk result (λ e. expr_view e ≡ tree.member (expr_view receiver.entry) member.entry) }
{
    Ok(ExprNode::new(alloc, Expr::Member(receiver.into_box(), member))?)
}

/// `a.f(b, c)`
pub fn method_call_of<'a>(
    alloc: Global,
    receiver: ExprNode<'a>,
    name: Ident<'a>,
    args: ExprNodes<'a>,
) -> Made<ExprNode<'a>>
    ensures { IfOk result (λ e. expr_view e ≡ tree.method_call (expr_view receiver.entry) name.entry (tree.exprs_of (map expr_view args.entry))) }
{
    ExprNode::new(
        alloc,
        Expr::MethodCall(receiver.into_box(), name, args.into_trees()),
    )
}

/// `a.map(|v| b)`
pub fn map_of<'a>(alloc: Global, receiver: ExprNode<'a>, value: ExprNode<'a>) -> Made<ExprNode<'a>>
    ensures { IfOk result (λ e. expr_view e ≡ tree.map_expr (expr_view receiver.entry) (expr_view value.entry)) }
{
    Ok(ExprNode::new(alloc, Expr::Map(receiver.into_box(), value.into_box()))?)
}

/// `a.map_err(tokens)`
pub fn map_err_of<'a>(
    alloc: Global,
    receiver: ExprNode<'a>,
    tokens: Opaque<'a>,
) -> Made<ExprNode<'a>>
    ensures { IfOk result (λ e. expr_view e ≡ tree.map_err (expr_view receiver.entry) (opaque_view tokens.entry)) }
{
    Ok(ExprNode::new(alloc, Expr::MapErr(receiver.into_box(), tokens))?)
}

/// `a?`
pub fn question_of<'a>(alloc: Global, receiver: ExprNode<'a>) -> Made<ExprNode<'a>>
    ensures { IfOk result (λ e. expr_view e ≡ tree.question (expr_view receiver.entry)) }
{
    Ok(ExprNode::new(alloc, Expr::Question(receiver.into_box()))?)
}

/// `derive_more::core::write!(f, format)`
pub fn write_of<'a>(alloc: Global, name: Ident<'a>, format: FmtArgs<'a>) -> Made<ExprNode<'a>>
    ensures { IfOk result (λ e. expr_view e ≡ tree.write_expr name.entry (fmt_view format.entry)) }
{
    Ok(ExprNode::new(alloc, Expr::Write(name, format))?)
}

/// `derive_more::core::format_args!(format)`
pub fn format_args_of<'a>(alloc: Global, format: FmtArgs<'a>) -> Made<ExprNode<'a>>
    ensures { IfOk result (λ e. expr_view e ≡ tree.format_args (fmt_view format.entry)) }
{
    Ok(ExprNode::new(alloc, Expr::FormatArgs(format))?)
}

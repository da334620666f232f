//! Copies that don't recurse: of fields with their values, calls of methods and constants, of copies of the expressions in them.

ghost use Rattle.std.specs.Prelude.{◌≡◌, IfOk, map, option_map};
ghost use Rattle.dm_ast.specs.Tree.{ty_view};
ghost use Rattle.dm_output.specs.declared.expr.ArmBody.TheViews.{out-NamedExpr};
ghost use Rattle.dm_output.specs.Output as tree;
ghost use Rattle.dm_output.specs.Views.{opaque_view, expr_view, named_expr_view, stmt_view};

use crate::node::{made_of_three, made_of_two};
use dm_ast::{Opaque, Ty};
use dm_copy::{CloneIn, both};
use dm_nodes::block::StmtNode;
use dm_nodes::expr::{ExprNode, ExprNodes, FieldNode};
use dm_nodes::make_block::{const_of, named_expr};
use dm_nodes::make_expr::method_call_of;
use dm_output::{Expr, NamedExpr};
use dm_stream::{Ident, Literal, Made, Seq};
use std::alloc::Global;

/// The copy of a field, of a copy of its value.
pub(crate) fn field_of<'a>(
    field: &NamedExpr<'a>,
    alloc: Global,
    value: Made<ExprNode<'a>>,
) -> Made<FieldNode<'a>>
    requires { IfOk value (λ v. expr_view v ≡ expr_view (out-NamedExpr field.now).value) }
    ensures { IfOk result (λ r. named_expr_view r ≡ named_expr_view field.now) }
{
    made_of_two(alloc, field.name.clone_in(alloc), value, named_expr)
}

/// The copy of a call of a method, of copies of its receiver and its arguments.
pub(crate) fn method_call<'a>(
    inner: &Box<Expr<'a>>,
    all: &Seq<Expr<'a>>,
    name: &Ident<'a>,
    alloc: Global,
    receiver: Made<ExprNode<'a>>,
    arguments: Made<ExprNodes<'a>>,
) -> Made<ExprNode<'a>>
    requires receiver { IfOk receiver (λ x. expr_view x ≡ expr_view inner.now.value) }
    requires arguments { IfOk arguments (λ es. map expr_view es ≡ map expr_view all.now) }
    ensures { IfOk result (λ r. expr_view r ≡ tree.method_call (expr_view inner.now.value) name.now (tree.exprs_of (map expr_view all.now))) }
{
    made_of_three(
        alloc,
        receiver,
        name.clone_in(alloc),
        arguments,
        method_call_of,
    )
}

/// The copy of a constant.
pub(crate) fn constant<'a>(
    ty: &Ty<'a>,
    name: &Ident<'a>,
    base: &Option<Opaque<'a>>,
    number: &Literal<'a>,
    alloc: Global,
) -> Made<StmtNode<'a>>
    ensures { IfOk result (λ r. stmt_view r ≡ tree.const_stmt name.now (ty_view ty.now) (option_map opaque_view base.now) number.now) }
{
    let value = both(base.clone_in(alloc), number.clone_in(alloc));
    let behind = both(ty.clone_in(alloc), value);
    made_of_two(alloc, name.clone_in(alloc), behind, const_of)
}

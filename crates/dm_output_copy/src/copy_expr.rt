//! Copies of expressions, statements, blocks and arms, as nodes.

ghost use Rattle.std.specs.Prelude.{IfOk, ◌≡◌, map, option_map};
ghost use Rattle.dm_output.specs.Views.{expr_view, named_expr_view, stmt_view, block_view, arm_view, body_view};

use crate::clone_emitted::CloneEmitted;
use crate::copy_parts::{constant, field_of, method_call};
use crate::copy_pattern::copy_patterns;
use crate::node::{made, made_of_two, with_part};
use dm_copy::{CloneIn, both};
use dm_gather::Gathers;
use dm_nodes::block::{ArmNode, ArmNodes, BlockNode, BodyNode, StmtNode, StmtNodes};
use dm_nodes::expr::{ExprNode, ExprNodes, FieldNodes};
use dm_nodes::make_block::{
    arm_of, block_body, block_of, check_of, do_of, expr_body, import_of, let_of,
};
use dm_nodes::make_expr::{
    and_of, bool_of, build_of, built, call_of, deref_of, equal_of, format_args_of, map_err_of,
    map_of, match_of, member_of, opaque_call, or_of, paren_of, path_expr, question_of, ref_of,
    ref_opaque, return_of, str_of, tuple_of, unequal_of, unsafe_of, write_of,
};
use dm_output::{Arm, ArmBody, Block, Expr, NamedExpr, Stmt};
use dm_stream::Made;
use std::alloc::Global;

#[cycle(copy_expr)]
pub(crate) fn copy_expr<'a>(expr: &Expr<'a>, alloc: Global) -> Made<ExprNode<'a>>
    ensures { IfOk result (λ r. expr_view r ≡ expr_view expr.now) }
{
    match expr {
        Expr::Return(inner) => made(alloc, copy_expr(inner, alloc), return_of),
        Expr::Or(all) => made(alloc, copy_exprs(all.as_slice(), alloc), or_of),
        Expr::And(all) => made(alloc, copy_exprs(all.as_slice(), alloc), and_of),
        Expr::Equal(left, right) => {
            let left = copy_expr(left, alloc);
            made_of_two(alloc, left, copy_expr(right, alloc), equal_of)
        }
        Expr::Unequal(left, right) => {
            let left = copy_expr(left, alloc);
            made_of_two(alloc, left, copy_expr(right, alloc), unequal_of)
        }
        Expr::RefOpaque(tokens) => made(alloc, tokens.clone_in(alloc), ref_opaque),
        Expr::Ref(is_mut, inner) => {
            made_of_two(alloc, Ok(*is_mut), copy_expr(inner, alloc), ref_of)
        }
        Expr::Deref(inner) => made(alloc, copy_expr(inner, alloc), deref_of),
        Expr::Member(inner, member) => {
            let inner = copy_expr(inner, alloc);
            made_of_two(alloc, inner, member.clone_in(alloc), member_of)
        }
        Expr::MethodCall(inner, name, all) => {
            let receiver = copy_expr(inner, alloc);
            let arguments = copy_exprs(all.as_slice(), alloc);
            method_call(inner, all, name, alloc, receiver, arguments)
        }
        Expr::Map(option, value) => {
            let option = copy_expr(option, alloc);
            made_of_two(alloc, option, copy_expr(value, alloc), map_of)
        }
        Expr::MapErr(inner, tokens) => {
            let inner = copy_expr(inner, alloc);
            made_of_two(alloc, inner, tokens.clone_in(alloc), map_err_of)
        }
        Expr::Question(inner) => made(alloc, copy_expr(inner, alloc), question_of),
        Expr::Path(path) => made(alloc, path.clone_in(alloc), path_expr),
        Expr::Call(path, all) => {
            let all = copy_exprs(all.as_slice(), alloc);
            made_of_two(alloc, path.clone_in(alloc), all, call_of)
        }
        Expr::Build(path, all) => {
            let all = copy_exprs(all.as_slice(), alloc);
            made_of_two(alloc, path.clone_in(alloc), all, build_of)
        }
        Expr::BuildNamed(path, all) => {
            let all = copy_fields(all.as_slice(), alloc);
            made_of_two(alloc, path.clone_in(alloc), all, built)
        }
        Expr::Paren(inner) => made(alloc, copy_expr(inner, alloc), paren_of),
        Expr::Tuple(all) => made(alloc, copy_exprs(all.as_slice(), alloc), tuple_of),
        Expr::OpaqueCall(tokens, inner) => {
            let inner = copy_expr(inner, alloc);
            made_of_two(alloc, tokens.clone_in(alloc), inner, opaque_call)
        }
        Expr::Str(text) => made(alloc, text.clone_in(alloc), str_of),
        Expr::Bool(value) => bool_of(alloc, *value),
        Expr::Match(subject, all) => {
            let subject = copy_expr(subject, alloc);
            made_of_two(alloc, subject, copy_arms(all.as_slice(), alloc), match_of)
        }
        Expr::Unsafe(inner) => made(alloc, copy_expr(inner, alloc), unsafe_of),
        Expr::Write(name, format) => {
            let name = name.clone_in(alloc);
            made_of_two(alloc, name, format.clone_in(alloc), write_of)
        }
        Expr::FormatArgs(format) => made(alloc, format.clone_in(alloc), format_args_of),
    }
}

#[cycle(copy_expr)]
fn copy_exprs<'a>(all: &[Expr<'a>], alloc: Global) -> Made<ExprNodes<'a>>
    ensures { IfOk result (λ r. map expr_view r ≡ map expr_view all.now) }
{
    let mut found: ExprNodes<'a> = Gathers::none(alloc);
    for expr in all {
        found = with_part(found, copy_expr(expr, alloc))?;
    }
    Ok(found)
}

#[cycle(copy_expr)]
fn copy_fields<'a>(all: &[NamedExpr<'a>], alloc: Global) -> Made<FieldNodes<'a>>
    ensures { IfOk result (λ r. map named_expr_view r ≡ map named_expr_view all.now) }
{
    let mut found: FieldNodes<'a> = Gathers::none(alloc);
    for field in all {
        let value = copy_expr(&field.value, alloc);
        found = with_part(found, field_of(field, alloc, value))?;
    }
    Ok(found)
}

#[cycle(copy_expr)]
fn copy_maybe<'a>(expr: &Option<Expr<'a>>, alloc: Global) -> Made<Option<ExprNode<'a>>>
    ensures { IfOk result (λ r. option_map expr_view r ≡ option_map expr_view expr.now) }
{
    match expr {
        None => Ok(None),
        Some(expr) => Ok(Some(copy_expr(expr, alloc)?)),
    }
}

#[cycle(copy_expr)]
pub(crate) fn copy_block<'a>(block: &Block<'a>, alloc: Global) -> Made<BlockNode<'a>>
    ensures { IfOk result (λ r. block_view r ≡ block_view block.now) }
{
    let stmts = copy_stmts(block.stmts.as_slice(), alloc)?;
    match &block.last {
        None => Ok(block_of(alloc, stmts, None)?),
        Some(last) => Ok(block_of(alloc, stmts, Some(copy_expr(last, alloc)?))?),
    }
}

#[cycle(copy_expr)]
fn copy_stmts<'a>(all: &[Stmt<'a>], alloc: Global) -> Made<StmtNodes<'a>>
    ensures { IfOk result (λ r. map stmt_view r ≡ map stmt_view all.now) }
{
    let mut found: StmtNodes<'a> = Gathers::none(alloc);
    for stmt in all {
        found = with_part(found, copy_stmt(stmt, alloc))?;
    }
    Ok(found)
}

#[cycle(copy_expr)]
pub(crate) fn copy_stmt<'a>(stmt: &Stmt<'a>, alloc: Global) -> Made<StmtNode<'a>>
    ensures { IfOk result (λ r. stmt_view r ≡ stmt_view stmt.now) }
{
    match stmt {
        Stmt::Let(name, value) => {
            let value = copy_expr(value, alloc);
            made_of_two(alloc, name.clone_in(alloc), value, let_of)
        }
        Stmt::Check(ty) => made(alloc, ty.clone_in(alloc), check_of),
        Stmt::Import(path) => made(alloc, path.clone_in(alloc), import_of),
        Stmt::Expr(value) => made(alloc, copy_expr(value, alloc), do_of),
        Stmt::Const(name, ty, base, number) => constant(ty, name, base, number, alloc),
    }
}

#[cycle(copy_expr)]
fn copy_arms<'a>(all: &[Arm<'a>], alloc: Global) -> Made<ArmNodes<'a>>
    ensures { IfOk result (λ r. map arm_view r ≡ map arm_view all.now) }
{
    let mut found: ArmNodes<'a> = Gathers::none(alloc);
    for arm in all {
        found = with_part(found, copy_arm(arm, alloc))?;
    }
    Ok(found)
}

#[cycle(copy_expr)]
pub(crate) fn copy_arm<'a>(arm: &Arm<'a>, alloc: Global) -> Made<ArmNode<'a>>
    ensures { IfOk result (λ r. arm_view r ≡ arm_view arm.now) }
{
    let body = copy_body(&arm.body, alloc);
    let behind = both(copy_maybe(&arm.guard, alloc), body);
    made_of_two(
        alloc,
        copy_patterns(arm.patterns.as_slice(), alloc),
        behind,
        arm_of,
    )
}

#[cycle(copy_expr)]
pub(crate) fn copy_body<'a>(body: &ArmBody<'a>, alloc: Global) -> Made<BodyNode<'a>>
    ensures { IfOk result (λ r. body_view r ≡ body_view body.now) }
{
    match body {
        ArmBody::Block(block) => made(alloc, copy_block(block, alloc), block_body),
        ArmBody::Expr(value) => made(alloc, copy_expr(value, alloc), expr_body),
    }
}

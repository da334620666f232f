//! Expressions, blocks and arms.
#![tactic(auto, using(dm_print_types::proofs::Laying::print_steps))]

ghost use Rattle.std.specs.Prelude.{◌≡◌, map, codes, cond, OnOk, true};
ghost use Rattle.dm_stream.specs.Trees.{join};
ghost use Rattle.dm_stream.specs.declared.tokens.Delim.TheVariants.{Paren, Brace};
ghost use Rattle.dm_ast.specs.Tree.{maybe_self_view};
ghost use Rattle.dm_ast.specs.TypeTokens as syntax;
ghost use Rattle.dm_output.specs.Output.{ref_expr, map_err, call, build, build_named, opaque_call, unsafe_expr, exprs_of, named_exprs_of, arms_of, stmts_of};
ghost use Rattle.dm_output.specs.Tokens as spec;
ghost use Rattle.dm_output.specs.Views.{opaque_view, expr_view, named_expr_view, arm_view, body_view, block_view, stmt_view};
ghost use Rattle.dm_print_types.specs.Prelude.{path_view, lay};

use crate::format::{format_call, write_call};
use crate::pattern::patterns;
use crate::stmt::{check, constant, import};
use dm_ast::Opaque;
use dm_layout::{Layout, Printed};
use dm_output::{Arm, ArmBody, Block, Expr, Member, NamedExpr, PathExpr, Stmt};
use dm_print_types::path::path_expr;
use dm_print_types::token::{
    close, fixed, joint, literal, name, opaque, open, punct, word, word_if,
};
use dm_stream::{Delim, Ident, Seq};

/// Adds an expression.
#[cycle(print)]
pub fn expr(tree: &Expr<'_>, out: &mut Layout) -> Printed
    ensures { OnOk result (out.new ≡ lay out.old (spec.expr_trees (expr_view tree.now))) }
{
    match tree {
        Expr::Return(inner) => {
            word(out, "return")?;
            expr(inner, out)
        }
        Expr::Or(parts) => chain(parts, '|', out),
        Expr::And(parts) => chain(parts, '&', out),
        Expr::Equal(left, right) => {
            expr(left, out)?;
            compared(right, '=', out)
        }
        Expr::Unequal(left, right) => {
            expr(left, out)?;
            compared(right, '!', out)
        }
        Expr::RefOpaque(tokens) => {
            punct(out, '&')?;
            opaque(out, tokens)
        }
        Expr::Ref(is_mut, inner) => reference(inner, *is_mut, out),
        Expr::Deref(inner) => {
            punct(out, '*')?;
            expr(inner, out)
        }
        Expr::Member(inner, field) => {
            expr(inner, out)?;
            member(field, out)
        }
        Expr::MethodCall(inner, method, arguments) => {
            expr(inner, out)?;
            method_call(arguments, method, out)
        }
        Expr::Map(inner, body) => {
            expr(inner, out)?;
            mapped(body, out)
        }
        Expr::MapErr(inner, function) => map_err(inner, function, out),
        Expr::Question(inner) => {
            expr(inner, out)?;
            punct(out, '?')
        }
        Expr::Path(path) => path_expr(path, out),
        Expr::Call(path, arguments) => call(path, arguments, out),
        Expr::Build(path, arguments) => build(path, arguments, out),
        Expr::BuildNamed(path, fields) => build_named(path, fields, out),
        Expr::Paren(inner) => enclosed(inner, Delim::Paren, out),
        Expr::Tuple(parts) => in_parens(parts, out),
        Expr::OpaqueCall(function, argument) => opaque_call(argument, function, out),
        Expr::Str(text) => literal(out, text),
        Expr::Bool(value) => truth(out, *value),
        Expr::Match(subject, all) => {
            word(out, "match")?;
            expr(subject, out)?;
            in_braces(all, out)
        }
        Expr::Unsafe(inner) => unsafe_block(inner, out),
        Expr::Write(formatter, format) => write_call(format, formatter, out),
        Expr::FormatArgs(format) => format_call(format, out),
    }
}

/// Adds `&a` or `&mut a`.
#[cycle(print)]
fn reference(inner: &Box<Expr<'_>>, is_mut: bool, out: &mut Layout) -> Printed
    ensures { OnOk result (out.new ≡ lay out.old (spec.expr_trees (ref_expr is_mut (expr_view inner.now.value)))) }
{
    punct(out, '&')?;
    word_if(out, is_mut, "mut")?;
    expr(inner, out)
}

/// Adds `.x`.
fn member(field: &Member<'_>, out: &mut Layout) -> Printed
    ensures { OnOk result (out.new ≡ lay out.old (join (spec.punct 46) (spec.member_trees field.now))) }
{
    punct(out, '.')?;
    match field {
        Member::Named(ident) => name(out, ident),
        Member::Index(number) => literal(out, number),
    }
}

/// Adds `a.map_err(tokens)`.
#[cycle(print)]
fn map_err<'a>(inner: &Box<Expr<'a>>, function: &Opaque<'a>, out: &mut Layout) -> Printed
    ensures { OnOk result (out.new ≡ lay out.old (spec.expr_trees (map_err (expr_view inner.now.value) (opaque_view function.now)))) }
{
    expr(inner, out)?;
    fixed(out, ". map_err")?;
    opaque(out, function)
}

fn truth(out: &mut Layout, value: bool) -> Printed
    ensures { OnOk result (out.new ≡ lay out.old (spec.word (cond value (codes "true") (codes "false")))) }
{
    if value {
        return word(out, "true");
    }
    word(out, "false")
}

/// Expressions with an operator of two equal puncts between them.
#[cycle(print)]
fn chain(all: &Seq<Expr<'_>>, ch: char, out: &mut Layout) -> Printed
    ensures { OnOk result (out.new ≡ lay out.old (syntax.spaced (spec.joint ch ch) true (spec.each_expr (exprs_of (map expr_view all.now))))) }
{
    for (i, one) in all.as_slice().iter().enumerate() {
        if i > 0 {
            joint(out, ch, ch)?;
        }
        expr(one, out)?;
    }
    Ok(())
}

/// Adds the punct with `=` behind it, and the right side.
#[cycle(print)]
fn compared(right: &Box<Expr<'_>>, ch: char, out: &mut Layout) -> Printed
    ensures { OnOk result (out.new ≡ lay out.old (join (spec.joint ch 61) (spec.expr_trees (expr_view right.now.value)))) }
{
    joint(out, ch, '=')?;
    expr(right, out)
}

/// Adds `.f(a, b)`.
#[cycle(print)]
fn method_call<'a>(arguments: &Seq<Expr<'a>>, method: &Ident<'a>, out: &mut Layout) -> Printed
    ensures { OnOk result (out.new ≡ lay out.old (join (spec.punct 46) (join (syntax.name method.now) (spec.enclosed Paren (syntax.spaced spec.comma true (spec.each_expr (exprs_of (map expr_view arguments.now)))))))) }
{
    punct(out, '.')?;
    name(out, method)?;
    in_parens(arguments, out)
}

/// Adds `.map(|v| body)`.
#[cycle(print)]
fn mapped(body: &Box<Expr<'_>>, out: &mut Layout) -> Printed
    ensures { OnOk result (out.new ≡ lay out.old (join (spec.punct 46) (join (spec.word (codes "map")) (spec.enclosed Paren (join (spec.punct 124) (join (spec.word (codes "v")) (join (spec.punct 124) (spec.expr_trees (expr_view body.now.value))))))))) }
{
    fixed(out, ". map (| v |")?;
    expr(body, out)?;
    close(out, Delim::Paren)
}

/// Expressions with commas between them.
#[cycle(print)]
fn list(all: &[Expr<'_>], out: &mut Layout) -> Printed
    ensures { OnOk result (out.new ≡ lay out.old (syntax.spaced spec.comma true (spec.each_expr (exprs_of (map expr_view all.now))))) }
{
    for (i, one) in all.iter().enumerate() {
        if i > 0 {
            punct(out, ',')?;
        }
        expr(one, out)?;
    }
    Ok(())
}

/// The same in parentheses.
#[cycle(print)]
fn in_parens(all: &Seq<Expr<'_>>, out: &mut Layout) -> Printed
    ensures { OnOk result (out.new ≡ lay out.old (spec.enclosed Paren (syntax.spaced spec.comma true (spec.each_expr (exprs_of (map expr_view all.now)))))) }
{
    open(out, Delim::Paren)?;
    list(all.as_slice(), out)?;
    close(out, Delim::Paren)
}

/// Adds `f(a, b)`.
#[cycle(print)]
fn call<'a>(path: &PathExpr<'a>, arguments: &Seq<Expr<'a>>, out: &mut Layout) -> Printed
    ensures { OnOk result (out.new ≡ lay out.old (spec.expr_trees (call (maybe_self_view path.now.qself) (path_view path.now.path) (exprs_of (map expr_view arguments.now))))) }
{
    path_expr(path, out)?;
    in_parens(arguments, out)
}

/// Expressions, each with a comma behind it.
#[cycle(print)]
fn ended(all: &[Expr<'_>], out: &mut Layout) -> Printed
    ensures { OnOk result (out.new ≡ lay out.old (spec.ended (spec.each_expr (exprs_of (map expr_view all.now))))) }
{
    for one in all {
        expr(one, out)?;
        punct(out, ',')?;
    }
    Ok(())
}

/// Adds `f(a, b,)`.
#[cycle(print)]
fn build<'a>(path: &PathExpr<'a>, arguments: &Seq<Expr<'a>>, out: &mut Layout) -> Printed
    ensures { OnOk result (out.new ≡ lay out.old (spec.expr_trees (build (maybe_self_view path.now.qself) (path_view path.now.path) (exprs_of (map expr_view arguments.now))))) }
{
    path_expr(path, out)?;
    open(out, Delim::Paren)?;
    ended(arguments.as_slice(), out)?;
    close(out, Delim::Paren)
}

/// Fields with their values, each with a comma behind it.
#[cycle(print)]
fn named(all: &[NamedExpr<'_>], out: &mut Layout) -> Printed
    ensures { OnOk result (out.new ≡ lay out.old (spec.ended (spec.each_named_expr (named_exprs_of (map named_expr_view all.now))))) }
{
    for one in all {
        name(out, &one.name)?;
        punct(out, ':')?;
        expr(&one.value, out)?;
        punct(out, ',')?;
    }
    Ok(())
}

/// Adds `f { x: a, y: b, }`.
#[cycle(print)]
fn build_named<'a>(path: &PathExpr<'a>, fields: &Seq<NamedExpr<'a>>, out: &mut Layout) -> Printed
    ensures { OnOk result (out.new ≡ lay out.old (spec.expr_trees (build_named (maybe_self_view path.now.qself) (path_view path.now.path) (named_exprs_of (map named_expr_view fields.now))))) }
{
    path_expr(path, out)?;
    open(out, Delim::Brace)?;
    named(fields.as_slice(), out)?;
    close(out, Delim::Brace)
}

/// Adds an expression in a group.
#[cycle(print)]
fn enclosed(inner: &Box<Expr<'_>>, delim: Delim, out: &mut Layout) -> Printed
    ensures { OnOk result (out.new ≡ lay out.old (spec.enclosed delim (spec.expr_trees (expr_view inner.now.value)))) }
{
    open(out, delim)?;
    expr(inner, out)?;
    close(out, delim)
}

/// Adds `(tokens)(a)`.
#[cycle(print)]
fn opaque_call<'a>(argument: &Box<Expr<'a>>, function: &Opaque<'a>, out: &mut Layout) -> Printed
    ensures { OnOk result (out.new ≡ lay out.old (spec.expr_trees (opaque_call (opaque_view function.now) (expr_view argument.now.value)))) }
{
    opaque(out, function)?;
    enclosed(argument, Delim::Paren, out)
}

/// Adds `unsafe { a }`.
#[cycle(print)]
fn unsafe_block(inner: &Box<Expr<'_>>, out: &mut Layout) -> Printed
    ensures { OnOk result (out.new ≡ lay out.old (spec.expr_trees (unsafe_expr (expr_view inner.now.value)))) }
{
    word(out, "unsafe")?;
    enclosed(inner, Delim::Brace, out)
}

/// Adds the arms of a match.
#[cycle(print)]
pub fn arms(all: &[Arm<'_>], out: &mut Layout) -> Printed
    ensures { OnOk result (out.new ≡ lay out.old (spec.arms_trees (arms_of (map arm_view all.now)))) }
{
    for one in all {
        arm(one, out)?;
    }
    Ok(())
}

/// The same in braces.
#[cycle(print)]
fn in_braces(all: &Seq<Arm<'_>>, out: &mut Layout) -> Printed
    ensures { OnOk result (out.new ≡ lay out.old (spec.enclosed Brace (spec.arms_trees (arms_of (map arm_view all.now))))) }
{
    open(out, Delim::Brace)?;
    arms(all.as_slice(), out)?;
    close(out, Delim::Brace)
}

#[cycle(print)]
fn arm(tree: &Arm<'_>, out: &mut Layout) -> Printed
    ensures { OnOk result (out.new ≡ lay out.old (spec.arm_trees (arm_view tree.now))) }
{
    patterns(tree.patterns.as_slice(), out)?;
    if let Some(test) = &tree.guard {
        word(out, "if")?;
        expr(test, out)?;
    }
    joint(out, '=', '>')?;
    body(&tree.body, out)?;
    punct(out, ',')
}

#[cycle(print)]
fn body(tree: &ArmBody<'_>, out: &mut Layout) -> Printed
    ensures { OnOk result (out.new ≡ lay out.old (spec.body_trees (body_view tree.now))) }
{
    match tree {
        ArmBody::Block(inner) => block(inner, out),
        ArmBody::Expr(inner) => expr(inner, out),
    }
}

/// Adds a block.
#[cycle(print)]
pub(crate) fn block(tree: &Block<'_>, out: &mut Layout) -> Printed
    ensures { OnOk result (out.new ≡ lay out.old (spec.block_trees (block_view tree.now))) }
{
    open(out, Delim::Brace)?;
    stmts(tree.stmts.as_slice(), out)?;
    if let Some(last) = &tree.last {
        expr(last, out)?;
    }
    close(out, Delim::Brace)
}

#[cycle(print)]
fn stmts(all: &[Stmt<'_>], out: &mut Layout) -> Printed
    ensures { OnOk result (out.new ≡ lay out.old (spec.stmts_trees (stmts_of (map stmt_view all.now)))) }
{
    for one in all {
        stmt(one, out)?;
    }
    Ok(())
}

#[cycle(print)]
fn stmt(tree: &Stmt<'_>, out: &mut Layout) -> Printed
    ensures { OnOk result (out.new ≡ lay out.old (spec.stmt_trees (stmt_view tree.now))) }
{
    match tree {
        Stmt::Let(ident, value) => {
            word(out, "let")?;
            name(out, ident)?;
            punct(out, '=')?;
            expr(value, out)?;
            punct(out, ';')
        }
        Stmt::Check(ty) => check(ty, out),
        Stmt::Import(path) => import(path, out),
        Stmt::Expr(value) => {
            expr(value, out)?;
            punct(out, ';')
        }
        Stmt::Const(ident, ty, base, number) => constant(ty, ident, base, number, out),
    }
}

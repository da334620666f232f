//! Expressions, blocks and arms.
#![tactic(auto, using(crate::proofs::Following::level_steps))]

ghost use Rattle.std.specs.Prelude.{◌≡◌, ◌+◌, ◌∷◌, ◌++◌, [], cond, map, option_map, true};
ghost use Rattle.dm_output.specs.Output.{ref_expr, maybe_expr, exprs_of, named_exprs_of, arms_of, stmts_of};
ghost use Rattle.dm_output.specs.Views.{opaque_view, expr_view, named_expr_view, arm_view, body_view, block_view, stmt_view};
ghost use Rattle.dm_levels.specs.Behind.{seen};
ghost use Rattle.dm_levels.specs.Levels as spec;
ghost use Rattle.dm_type_levels.specs.Passing.{Passes, pass_then};
ghost use Rattle.dm_type_levels.specs.TypeLevels.{grouped_levels, spaced_levels};

use crate::format::{format_call, write_call};
use crate::parts::{opaque, path_expr, three};
use crate::pattern::patterns;
use crate::stmt::{check, constant, import};
use dm_ast::Opaque;
use dm_output::{Arm, ArmBody, Block, Expr, NamedExpr, Stmt};
use dm_stream::{Entry, Seq};
use dm_type_levels::parts::{joiner, separator};
use dm_type_levels::pass::{Behind, pair, token, token_if};

#[cycle(expr)]
fn expr<'t, 'a>(tree: &Expr<'_>, level: usize, rest: &'t [Entry<'a>]) -> Behind<'t, 'a>
    ensures { Passes (spec.expr_levels level (expr_view tree.now)) rest.now result }
{
    match tree {
        Expr::Return(inner) => operand(inner, level, rest),
        Expr::Or(parts) => chain(parts.as_slice(), level, rest),
        Expr::And(parts) => chain(parts.as_slice(), level, rest),
        Expr::Equal(left, right) => {
            let rest = expr(left, level, rest)?;
            compared(right, level, rest)
        }
        Expr::Unequal(left, right) => {
            let rest = expr(left, level, rest)?;
            compared(right, level, rest)
        }
        Expr::RefOpaque(tokens) => opaque_operand(tokens, level, rest),
        Expr::Ref(is_mut, inner) => reference(inner, *is_mut, level, rest),
        Expr::Deref(inner) => operand(inner, level, rest),
        Expr::Member(inner, _) => {
            let rest = expr(inner, level, rest)?;
            pair(level, rest)
        }
        Expr::MethodCall(inner, _, arguments) => {
            let rest = expr(inner, level, rest)?;
            method_call(arguments, level, rest)
        }
        Expr::Map(inner, body) => {
            let rest = expr(inner, level, rest)?;
            mapped(body, level, rest)
        }
        Expr::MapErr(inner, function) => {
            let rest = expr(inner, level, rest)?;
            opaque_argument(function, level, rest)
        }
        Expr::Question(inner) => {
            let rest = expr(inner, level, rest)?;
            token(level, rest)
        }
        Expr::Path(path) => path_expr(path, level, rest),
        Expr::Call(path, arguments) => {
            let rest = path_expr(path, level, rest)?;
            in_parens(arguments, level, rest)
        }
        Expr::Build(path, arguments) => {
            let rest = path_expr(path, level, rest)?;
            ended_in_parens(arguments, level, rest)
        }
        Expr::BuildNamed(path, fields) => {
            let rest = path_expr(path, level, rest)?;
            named_in_braces(fields, level, rest)
        }
        Expr::Paren(inner) => enclosed(inner, level, rest),
        Expr::Tuple(parts) => in_parens(parts, level, rest),
        Expr::OpaqueCall(function, argument) => {
            let rest = opaque(function, level, rest)?;
            enclosed(argument, level, rest)
        }
        Expr::Str(_) => token(level, rest),
        Expr::Bool(_) => token(level, rest),
        Expr::Match(subject, all) => {
            let rest = token(level, rest)?;
            let rest = expr(subject, level, rest)?;
            arms_in_braces(all, level, rest)
        }
        Expr::Unsafe(inner) => {
            let rest = token(level, rest)?;
            enclosed(inner, level, rest)
        }
        Expr::Write(formatter, format) => write_call(format, formatter, level, rest),
        Expr::FormatArgs(format) => format_call(format, level, rest),
    }
}

/// `*` or `return`, and its operand.
#[cycle(expr)]
fn operand<'t, 'a>(inner: &Box<Expr<'_>>, level: usize, rest: &'t [Entry<'a>]) -> Behind<'t, 'a>
    ensures { Passes (level ∷ spec.expr_levels (level + 1) (expr_view inner.now.value)) rest.now result }
{
    let rest = token(level, rest)?;
    expr(inner, level + 1, rest)
}

/// `&(tokens)`
fn opaque_operand<'t, 'a>(
    tokens: &Opaque<'_>,
    level: usize,
    rest: &'t [Entry<'a>],
) -> Behind<'t, 'a>
    ensures { Passes (level ∷ spec.opaque_levels (level + 1) (opaque_view tokens.now)) rest.now result }
{
    let rest = token(level, rest)?;
    opaque(tokens, level + 1, rest)
}

/// `&a` or `&mut a`
#[cycle(expr)]
fn reference<'t, 'a>(
    inner: &Box<Expr<'_>>,
    is_mut: bool,
    level: usize,
    rest: &'t [Entry<'a>],
) -> Behind<'t, 'a>
    ensures { Passes (spec.expr_levels level (ref_expr is_mut (expr_view inner.now.value))) rest.now result }
{
    let rest = token(level, rest)?;
    let rest = token_if(is_mut, level + 1, rest)?;
    expr(inner, level + 1, rest)
}

/// Expressions with an operator of two puncts between them.
#[cycle(expr)]
fn chain<'t, 'a>(all: &[Expr<'_>], level: usize, rest: &'t [Entry<'a>]) -> Behind<'t, 'a>
    ensures { Passes (spaced_levels (level ∷ level ∷ []) true (spec.each_expr level (exprs_of (map expr_view all.now)))) rest.now result }
{
    let mut at = Ok(rest);
    for (i, one) in all.iter().enumerate() {
        at = chained(one, i == 0, level, at);
    }
    at
}

/// An expression with the operator before it, but not before the first.
#[cycle(expr)]
fn chained<'t, 'a>(one: &Expr<'_>, first: bool, level: usize, at: Behind<'t, 'a>) -> Behind<'t, 'a>
    ensures { seen result ≡ pass_then (cond first [] (level ∷ level ∷ []) ++ spec.expr_levels level (expr_view one.now)) (seen at.entry) }
{
    let rest = joiner(first, level, at?)?;
    expr(one, level, rest)
}

/// An operator of two puncts, and the right side.
#[cycle(expr)]
fn compared<'t, 'a>(right: &Box<Expr<'_>>, level: usize, rest: &'t [Entry<'a>]) -> Behind<'t, 'a>
    ensures { Passes (level ∷ level ∷ spec.expr_levels level (expr_view right.now.value)) rest.now result }
{
    let rest = pair(level, rest)?;
    expr(right, level, rest)
}

/// `.f(a, b)`
#[cycle(expr)]
fn method_call<'t, 'a>(
    arguments: &Seq<Expr<'_>>,
    level: usize,
    rest: &'t [Entry<'a>],
) -> Behind<'t, 'a>
    ensures { Passes (level ∷ level ∷ spec.list_levels level (spec.each_expr (level + 1) (exprs_of (map expr_view arguments.now)))) rest.now result }
{
    let rest = pair(level, rest)?;
    in_parens(arguments, level, rest)
}

/// `.f(tokens)`
fn opaque_argument<'t, 'a>(
    tokens: &Opaque<'_>,
    level: usize,
    rest: &'t [Entry<'a>],
) -> Behind<'t, 'a>
    ensures { Passes (level ∷ level ∷ spec.opaque_levels level (opaque_view tokens.now)) rest.now result }
{
    let rest = pair(level, rest)?;
    opaque(tokens, level, rest)
}

/// `.map(|v| body)`
#[cycle(expr)]
fn mapped<'t, 'a>(body: &Box<Expr<'_>>, level: usize, rest: &'t [Entry<'a>]) -> Behind<'t, 'a>
    ensures { Passes (level ∷ level ∷ grouped_levels level ((level + 1) ∷ (level + 1) ∷ (level + 1) ∷ spec.expr_levels (level + 1) (expr_view body.now.value))) rest.now result }
{
    let rest = three(level, rest)?;
    let rest = closure(body, level + 1, rest)?;
    token(level, rest)
}

/// `|v| body`
#[cycle(expr)]
fn closure<'t, 'a>(body: &Box<Expr<'_>>, level: usize, rest: &'t [Entry<'a>]) -> Behind<'t, 'a>
    ensures { Passes (level ∷ level ∷ level ∷ spec.expr_levels level (expr_view body.now.value)) rest.now result }
{
    let rest = three(level, rest)?;
    expr(body, level, rest)
}

/// Expressions with commas between them.
#[cycle(expr)]
fn list<'t, 'a>(all: &[Expr<'_>], level: usize, rest: &'t [Entry<'a>]) -> Behind<'t, 'a>
    ensures { Passes (spaced_levels (level ∷ []) true (spec.each_expr level (exprs_of (map expr_view all.now)))) rest.now result }
{
    let mut at = Ok(rest);
    for (i, one) in all.iter().enumerate() {
        at = listed(one, i == 0, level, at);
    }
    at
}

/// An expression with a comma before it, but not before the first.
#[cycle(expr)]
fn listed<'t, 'a>(one: &Expr<'_>, first: bool, level: usize, at: Behind<'t, 'a>) -> Behind<'t, 'a>
    ensures { seen result ≡ pass_then (cond first [] (level ∷ []) ++ spec.expr_levels level (expr_view one.now)) (seen at.entry) }
{
    let rest = separator(first, level, at?)?;
    expr(one, level, rest)
}

/// The same in parentheses.
#[cycle(expr)]
fn in_parens<'t, 'a>(all: &Seq<Expr<'_>>, level: usize, rest: &'t [Entry<'a>]) -> Behind<'t, 'a>
    ensures { Passes (spec.list_levels level (spec.each_expr (level + 1) (exprs_of (map expr_view all.now)))) rest.now result }
{
    let rest = token(level, rest)?;
    let rest = list(all.as_slice(), level + 1, rest)?;
    token(level, rest)
}

/// Expressions, each with a comma behind it.
#[cycle(expr)]
fn ended<'t, 'a>(all: &[Expr<'_>], level: usize, rest: &'t [Entry<'a>]) -> Behind<'t, 'a>
    ensures { Passes (spec.ended_levels level (spec.each_expr level (exprs_of (map expr_view all.now)))) rest.now result }
{
    let mut at = Ok(rest);
    for one in all {
        at = ended_one(one, level, at);
    }
    at
}

#[cycle(expr)]
fn ended_one<'t, 'a>(one: &Expr<'_>, level: usize, at: Behind<'t, 'a>) -> Behind<'t, 'a>
    ensures { seen result ≡ pass_then (spec.expr_levels level (expr_view one.now) ++ level ∷ []) (seen at.entry) }
{
    let rest = expr(one, level, at?)?;
    token(level, rest)
}

/// The same in parentheses.
#[cycle(expr)]
fn ended_in_parens<'t, 'a>(
    all: &Seq<Expr<'_>>,
    level: usize,
    rest: &'t [Entry<'a>],
) -> Behind<'t, 'a>
    ensures { Passes (grouped_levels level (spec.ended_levels (level + 1) (spec.each_expr (level + 1) (exprs_of (map expr_view all.now))))) rest.now result }
{
    let rest = token(level, rest)?;
    let rest = ended(all.as_slice(), level + 1, rest)?;
    token(level, rest)
}

/// Fields with their values, each with a comma behind it.
#[cycle(expr)]
fn named<'t, 'a>(all: &[NamedExpr<'_>], level: usize, rest: &'t [Entry<'a>]) -> Behind<'t, 'a>
    ensures { Passes (spec.ended_levels level (spec.each_named_expr level (named_exprs_of (map named_expr_view all.now)))) rest.now result }
{
    let mut at = Ok(rest);
    for one in all {
        at = named_one(one, level, at);
    }
    at
}

#[cycle(expr)]
#[tactic(auto, using(crate::proofs::Following::block_steps))]
fn named_one<'t, 'a>(one: &NamedExpr<'_>, level: usize, at: Behind<'t, 'a>) -> Behind<'t, 'a>
    ensures { seen result ≡ pass_then ((level ∷ level ∷ spec.expr_levels level (named_expr_view one.now).1) ++ level ∷ []) (seen at.entry) }
{
    let rest = pair(level, at?)?;
    let rest = expr(&one.value, level, rest)?;
    token(level, rest)
}

/// The same in braces.
#[cycle(expr)]
fn named_in_braces<'t, 'a>(
    all: &Seq<NamedExpr<'_>>,
    level: usize,
    rest: &'t [Entry<'a>],
) -> Behind<'t, 'a>
    ensures { Passes (grouped_levels level (spec.ended_levels (level + 1) (spec.each_named_expr (level + 1) (named_exprs_of (map named_expr_view all.now))))) rest.now result }
{
    let rest = token(level, rest)?;
    let rest = named(all.as_slice(), level + 1, rest)?;
    token(level, rest)
}

/// An expression in a group.
#[cycle(expr)]
fn enclosed<'t, 'a>(inner: &Box<Expr<'_>>, level: usize, rest: &'t [Entry<'a>]) -> Behind<'t, 'a>
    ensures { Passes (grouped_levels level (spec.expr_levels (level + 1) (expr_view inner.now.value))) rest.now result }
{
    let rest = token(level, rest)?;
    let rest = expr(inner, level + 1, rest)?;
    token(level, rest)
}

/// The arms of a match.
#[cycle(expr)]
fn arms<'t, 'a>(all: &[Arm<'_>], level: usize, rest: &'t [Entry<'a>]) -> Behind<'t, 'a>
    ensures { Passes (spec.arms_levels level (arms_of (map arm_view all.now))) rest.now result }
{
    let mut at = Ok(rest);
    for one in all {
        at = arm(one, level, at);
    }
    at
}

/// The same in braces.
#[cycle(expr)]
fn arms_in_braces<'t, 'a>(all: &Seq<Arm<'_>>, level: usize, rest: &'t [Entry<'a>]) -> Behind<'t, 'a>
    ensures { Passes (grouped_levels level (spec.arms_levels (level + 1) (arms_of (map arm_view all.now)))) rest.now result }
{
    let rest = token(level, rest)?;
    let rest = arms(all.as_slice(), level + 1, rest)?;
    token(level, rest)
}

#[cycle(expr)]
#[tactic(auto, using(crate::proofs::Following::block_steps))]
fn arm<'t, 'a>(tree: &Arm<'_>, level: usize, at: Behind<'t, 'a>) -> Behind<'t, 'a>
    ensures { seen result ≡ pass_then (spec.arm_levels level (arm_view tree.now)) (seen at.entry) }
{
    let rest = patterns(tree.patterns.as_slice(), level, at?)?;
    let rest = guard(&tree.guard, level, rest)?;
    behind_guard(&tree.body, level, rest)
}

/// `if` and the guard, where there is one.
#[cycle(expr)]
fn guard<'t, 'a>(test: &Option<Expr<'_>>, level: usize, rest: &'t [Entry<'a>]) -> Behind<'t, 'a>
    ensures { Passes (spec.guard_levels level (maybe_expr (option_map expr_view test.now))) rest.now result }
{
    match test {
        None => Ok(rest),
        Some(test) => {
            let rest = token(level, rest)?;
            expr(test, level, rest)
        }
    }
}

/// `=>`, the body and a comma.
#[cycle(expr)]
fn behind_guard<'t, 'a>(tree: &ArmBody<'_>, level: usize, rest: &'t [Entry<'a>]) -> Behind<'t, 'a>
    ensures { Passes (level ∷ level ∷ (spec.body_levels level (body_view tree.now) ++ level ∷ [])) rest.now result }
{
    let rest = pair(level, rest)?;
    let rest = body(tree, level, rest)?;
    token(level, rest)
}

#[cycle(expr)]
#[tactic(auto, using(crate::proofs::Following::block_steps))]
fn body<'t, 'a>(tree: &ArmBody<'_>, level: usize, rest: &'t [Entry<'a>]) -> Behind<'t, 'a>
    ensures { Passes (spec.body_levels level (body_view tree.now)) rest.now result }
{
    match tree {
        ArmBody::Block(inner) => block(inner, level, rest),
        ArmBody::Expr(inner) => expr(inner, level, rest),
    }
}

/// A block with its braces.
#[cycle(expr)]
pub(crate) fn block<'t, 'a>(tree: &Block<'_>, level: usize, rest: &'t [Entry<'a>]) -> Behind<'t, 'a>
    ensures { Passes (spec.block_levels level (block_view tree.now)) rest.now result }
{
    let rest = token(level, rest)?;
    let rest = inside(tree, level + 1, rest)?;
    token(level, rest)
}

/// What stands between the braces.
#[cycle(expr)]
#[tactic(auto, using(crate::proofs::Following::block_steps))]
fn inside<'t, 'a>(tree: &Block<'_>, level: usize, rest: &'t [Entry<'a>]) -> Behind<'t, 'a>
    ensures { Passes (spec.inside_levels level (block_view tree.now)) rest.now result }
{
    let rest = stmts(tree.stmts.as_slice(), level, rest)?;
    match &tree.last {
        None => Ok(rest),
        Some(last) => expr(last, level, rest),
    }
}

#[cycle(expr)]
fn stmts<'t, 'a>(all: &[Stmt<'_>], level: usize, rest: &'t [Entry<'a>]) -> Behind<'t, 'a>
    ensures { Passes (spec.stmts_levels level (stmts_of (map stmt_view all.now))) rest.now result }
{
    let mut at = Ok(rest);
    for one in all {
        at = stmt_behind(one, level, at);
    }
    at
}

#[cycle(expr)]
fn stmt_behind<'t, 'a>(one: &Stmt<'_>, level: usize, at: Behind<'t, 'a>) -> Behind<'t, 'a>
    ensures { seen result ≡ pass_then (spec.stmt_levels level (stmt_view one.now)) (seen at.entry) }
{
    stmt(one, level, at?)
}

#[cycle(expr)]
#[tactic(auto, using(crate::proofs::Following::block_steps))]
fn stmt<'t, 'a>(tree: &Stmt<'_>, level: usize, rest: &'t [Entry<'a>]) -> Behind<'t, 'a>
    ensures { Passes (spec.stmt_levels level (stmt_view tree.now)) rest.now result }
{
    match tree {
        Stmt::Let(_, value) => {
            let rest = three(level, rest)?;
            let rest = expr(value, level, rest)?;
            token(level, rest)
        }
        Stmt::Check(ty) => check(ty, level, rest),
        Stmt::Import(path) => import(path, level, rest),
        Stmt::Expr(value) => {
            let rest = expr(value, level, rest)?;
            token(level, rest)
        }
        Stmt::Const(ident, ty, base, number) => constant(ty, ident, base, number, level, rest),
    }
}

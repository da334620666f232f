//! Statements without expressions.
#![tactic(auto, using(dm_print_types::proofs::Laying::print_steps))]

ghost use Rattle.std.specs.Prelude.{◌≡◌, codes, None, OnOk, option_map};
ghost use Rattle.dm_stream.specs.Trees.{join};
ghost use Rattle.dm_ast.specs.TypeTokens as syntax;
ghost use Rattle.dm_output.specs.Output.{check_stmt, import_stmt, const_stmt};
ghost use Rattle.dm_output.specs.Tokens as spec;
ghost use Rattle.dm_output.specs.Views.{opaque_view};
ghost use Rattle.dm_print_types.specs.Prelude.{ty_view, path_view, lay};

use dm_ast::{Opaque, Path, Ty};
use dm_layout::{Layout, Printed};
use dm_print_types::path::{path, ty};
use dm_print_types::token::{fixed, literal, name, opaque, punct, word};
use dm_stream::{Ident, Literal};

/// Adds `let _: T;`.
pub(crate) fn check(of: &Ty<'_>, out: &mut Layout) -> Printed
    ensures { OnOk result (out.new ≡ lay out.old (spec.stmt_trees (check_stmt (ty_view of.now)))) }
{
    fixed(out, "let _ :")?;
    ty(of, out)?;
    punct(out, ';')
}

/// Adds `use p as _;`.
pub(crate) fn import(of: &Path<'_>, out: &mut Layout) -> Printed
    ensures { OnOk result (out.new ≡ lay out.old (spec.stmt_trees (import_stmt (path_view of.now)))) }
{
    word(out, "use")?;
    path(of, out)?;
    fixed(out, "as _ ;")
}

/// Adds `const X: T = base + number;`.
pub(crate) fn constant<'a>(
    of: &Ty<'a>,
    ident: &Ident<'a>,
    from: &Option<Opaque<'a>>,
    number: &Literal<'a>,
    out: &mut Layout,
) -> Printed
    ensures { OnOk result (out.new ≡ lay out.old (spec.stmt_trees (const_stmt ident.now (ty_view of.now) (option_map opaque_view from.now) number.now))) }
{
    constant_front(of, ident, out)?;
    base(from, out)?;
    punct(out, '+')?;
    literal(out, number)?;
    punct(out, ';')
}

/// Adds `const X: T =`.
fn constant_front<'a>(of: &Ty<'a>, ident: &Ident<'a>, out: &mut Layout) -> Printed
    ensures { OnOk result (out.new ≡ lay out.old (join (spec.word (codes "const")) (join (syntax.name ident.now) (join spec.colon (join (syntax.type_trees (ty_view of.now)) spec.assigns))))) }
{
    word(out, "const")?;
    name(out, ident)?;
    punct(out, ':')?;
    ty(of, out)?;
    punct(out, '=')
}

/// Adds the tokens in parentheses, or 0 where there are none.
fn base(from: &Option<Opaque<'_>>, out: &mut Layout) -> Printed
    ensures { OnOk result (out.new ≡ lay out.old (spec.base_trees (option_map opaque_view from.now))) }
{
    match from {
        None => zero(out),
        Some(tokens) => opaque(out, tokens),
    }
}

#[tactic(auto, using(dm_print_types::proofs::Laying::token_steps))]
fn zero(out: &mut Layout) -> Printed
    ensures { OnOk result (out.new ≡ lay out.old (spec.base_trees None)) }
{
    out.word("0")
}

//! Formats, and the calls of macros that take them.
#![tactic(auto, using(dm_print_types::proofs::Laying::print_steps))]

ghost use Rattle.std.specs.Prelude.{◌≡◌, map, OnOk, false};
ghost use Rattle.dm_ast.specs.TypeTokens as syntax;
ghost use Rattle.dm_output.specs.Output as output;
ghost use Rattle.dm_output.specs.Tokens as spec;
ghost use Rattle.dm_output.specs.Views.{fmt_view, fmt_arg_view};
ghost use Rattle.dm_print_types.specs.Laying.{lay};

use dm_layout::{Layout, Printed};
use dm_output::{FmtArg, FmtArgs};
use dm_print_types::token::{close, fixed, literal, name, punct, stream};
use dm_stream::{Delim, Ident};

/// Adds `derive_more::core::write!(formatter, format)`.
pub(crate) fn write_call<'a>(
    format: &FmtArgs<'a>,
    formatter: &Ident<'a>,
    out: &mut Layout,
) -> Printed
    ensures { OnOk result (out.new ≡ lay out.old (spec.expr_trees (output.write_expr formatter.now (fmt_view format.now)))) }
{
    fixed(out, "derive_more :: core :: write ! (")?;
    name(out, formatter)?;
    punct(out, ',')?;
    formatted(format, out)?;
    close(out, Delim::Paren)
}

/// Adds `derive_more::core::format_args!(format)`.
pub(crate) fn format_call(format: &FmtArgs<'_>, out: &mut Layout) -> Printed
    ensures { OnOk result (out.new ≡ lay out.old (spec.expr_trees (output.format_args (fmt_view format.now)))) }
{
    fixed(out, "derive_more :: core :: format_args ! (")?;
    formatted(format, out)?;
    close(out, Delim::Paren)
}

/// Adds the literal, and the arguments behind it.
fn formatted(format: &FmtArgs<'_>, out: &mut Layout) -> Printed
    ensures { OnOk result (out.new ≡ lay out.old (spec.fmt_trees (fmt_view format.now))) }
{
    literal(out, &format.lit)?;
    arguments(format.args.as_slice(), out)
}

/// Adds arguments, each behind a comma.
fn arguments(all: &[FmtArg<'_>], out: &mut Layout) -> Printed
    ensures { OnOk result (out.new ≡ lay out.old (syntax.spaced spec.comma false (map spec.fmt_arg_trees (map fmt_arg_view all.now)))) }
{
    for one in all {
        punct(out, ',')?;
        argument(one, out)?;
    }
    Ok(())
}

fn argument(tree: &FmtArg<'_>, out: &mut Layout) -> Printed
    ensures { OnOk result (out.new ≡ lay out.old (spec.fmt_arg_trees (fmt_arg_view tree.now))) }
{
    alias(&tree.alias, out)?;
    stream(out, &tree.value.tokens)
}

fn alias(alias: &Option<Ident<'_>>, out: &mut Layout) -> Printed
    ensures { OnOk result (out.new ≡ lay out.old (spec.alias_trees alias.now)) }
{
    match alias {
        None => Ok(()),
        Some(alias) => {
            name(out, alias)?;
            punct(out, '=')
        }
    }
}

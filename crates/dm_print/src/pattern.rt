//! Patterns.
#![tactic(auto, using(dm_print_types::proofs::Laying::print_steps))]

ghost use Rattle.std.specs.Prelude.{◌≡◌, map, OnOk, true};
ghost use Rattle.dm_ast.specs.TypeTokens as syntax;
ghost use Rattle.dm_output.specs.Output.{patterns_of, named_of};
ghost use Rattle.dm_output.specs.Tokens as spec;
ghost use Rattle.dm_output.specs.Views.{pattern_view, named_view};
ghost use Rattle.dm_print_types.specs.Laying.{lay};

use dm_layout::{Layout, Printed};
use dm_output::{Binding, NamedPattern, Pattern};
use dm_print_types::path::path;
use dm_print_types::token::{close, joint_if, literal, name, open, punct, word};
use dm_stream::Delim;

fn binding(out: &mut Layout, how: Binding) -> Printed
    ensures { OnOk result (out.new ≡ lay out.old (spec.binding_trees how)) }
{
    match how {
        Binding::Plain => Ok(()),
        Binding::Ref => word(out, "ref"),
        Binding::RefMut => {
            word(out, "ref")?;
            word(out, "mut")
        }
    }
}

#[cycle(pattern)]
fn pattern(tree: &Pattern<'_>, out: &mut Layout) -> Printed
    ensures { OnOk result (out.new ≡ lay out.old (spec.pattern_trees (pattern_view tree.now))) }
{
    match tree {
        Pattern::Wild => word(out, "_"),
        Pattern::Bind(how, ident) => {
            binding(out, *how)?;
            name(out, ident)
        }
        Pattern::Str(text) => literal(out, text),
        Pattern::Path(of) => path(of, out),
        Pattern::Tuple(of, fields) => {
            path(of, out)?;
            open(out, Delim::Paren)?;
            ended(fields.as_slice(), out)?;
            close(out, Delim::Paren)
        }
        Pattern::Named(of, fields, rest) => {
            path(of, out)?;
            open(out, Delim::Brace)?;
            named(fields.as_slice(), out)?;
            joint_if(out, *rest, '.', '.')?;
            close(out, Delim::Brace)
        }
        Pattern::Pair(first, second) => {
            open(out, Delim::Paren)?;
            pattern(first, out)?;
            punct(out, ',')?;
            pattern(second, out)?;
            close(out, Delim::Paren)
        }
    }
}

/// Patterns, each with a comma behind it.
#[cycle(pattern)]
fn ended(all: &[Pattern<'_>], out: &mut Layout) -> Printed
    ensures { OnOk result (out.new ≡ lay out.old (spec.ended (spec.each_pattern (patterns_of (map pattern_view all.now))))) }
{
    for one in all {
        pattern(one, out)?;
        punct(out, ',')?;
    }
    Ok(())
}

/// Fields, each with a comma behind it.
#[cycle(pattern)]
fn named(all: &[NamedPattern<'_>], out: &mut Layout) -> Printed
    ensures { OnOk result (out.new ≡ lay out.old (spec.ended (spec.each_named (named_of (map named_view all.now))))) }
{
    for one in all {
        name(out, &one.name)?;
        punct(out, ':')?;
        pattern(&one.pattern, out)?;
        punct(out, ',')?;
    }
    Ok(())
}

/// Patterns with `|` between them.
pub fn patterns(all: &[Pattern<'_>], out: &mut Layout) -> Printed
    ensures { OnOk result (out.new ≡ lay out.old (syntax.spaced (spec.punct 124) true (spec.each_pattern (patterns_of (map pattern_view all.now))))) }
{
    for (i, one) in all.iter().enumerate() {
        if i > 0 {
            punct(out, '|')?;
        }
        pattern(one, out)?;
    }
    Ok(())
}

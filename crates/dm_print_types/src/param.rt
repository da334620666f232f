//! Parameters and predicates.
#![tactic(auto, using(crate::proofs::Laying::print_steps))]

ghost use Rattle.std.specs.Prelude.{◌≡◌, map, OnOk, Some, true, option_map};
ghost use Rattle.dm_ast.specs.Declarations.{listed};
ghost use Rattle.dm_ast.specs.TypeTokens as syntax;
ghost use Rattle.dm_output.specs.Tokens as spec;
ghost use Rattle.dm_print_types.specs.Prelude.{nowhere, ty_view, bound_view, param_view, predicate_view, lay};

use crate::path::ty;
use crate::token::{lifetime, name, punct, punct_if, stream, word};
use dm_ast::{Attribute, Bound, ConstArg, GenericParam, Ty, WherePredicate};
use dm_layout::{Layout, Printed};
use dm_quote::{write_attributes, write_bounds, write_const, write_for};
use dm_stream::{Lifetime, Punctuated, Span, TokenStream};

fn attributes(all: &[Attribute<'_>], out: &mut Layout) -> Printed
    ensures { OnOk result (out.new ≡ lay out.old (syntax.attributes_trees all.now)) }
{
    let mut tokens = TokenStream::new(out.allocator());
    write_attributes(&mut tokens, all)?;
    stream(out, &tokens)
}

/// A colon, and bounds with `+` between them.
fn bounds(all: &Punctuated<Bound<'_>>, out: &mut Layout) -> Printed
    ensures { OnOk result (out.new ≡ lay out.old (spec.maybe_bounds_trees (Some (listed bound_view all.now)))) }
{
    punct(out, ':')?;
    let mut tokens = TokenStream::new(out.allocator());
    write_bounds(
        &mut tokens,
        all.items.as_slice(),
        all.trailing,
        Span::nowhere(),
    )?;
    stream(out, &tokens)
}

fn maybe_bounds(all: &Option<Punctuated<Bound<'_>>>, out: &mut Layout) -> Printed
    ensures { OnOk result (out.new ≡ lay out.old (spec.maybe_bounds_trees (option_map (listed bound_view) all.now))) }
{
    match all {
        None => Ok(()),
        Some(all) => bounds(all, out),
    }
}

/// A colon, and lifetimes with `+` between them.
fn lifetimes(all: &Punctuated<Lifetime<'_>>, out: &mut Layout) -> Printed
    ensures { OnOk result (out.new ≡ lay out.old (spec.maybe_lifetimes_trees (Some all.now))) }
{
    punct(out, ':')?;
    joined_lifetimes(all.items.as_slice(), out)?;
    punct_if(out, all.trailing, '+')
}

fn maybe_lifetimes(all: &Option<Punctuated<Lifetime<'_>>>, out: &mut Layout) -> Printed
    ensures { OnOk result (out.new ≡ lay out.old (spec.maybe_lifetimes_trees all.now)) }
{
    match all {
        None => Ok(()),
        Some(all) => lifetimes(all, out),
    }
}

fn joined_lifetimes(all: &[Lifetime<'_>], out: &mut Layout) -> Printed
    ensures { OnOk result (out.new ≡ lay out.old (syntax.spaced (spec.punct 43) true (map syntax.lifetime all.now))) }
{
    for (i, one) in all.iter().enumerate() {
        if i > 0 {
            punct(out, '+')?;
        }
        lifetime(out, one)?;
    }
    Ok(())
}

fn default_type(value: &Option<Ty<'_>>, out: &mut Layout) -> Printed
    ensures { OnOk result (out.new ≡ lay out.old (spec.default_type_trees (option_map ty_view value.now))) }
{
    match value {
        None => Ok(()),
        Some(value) => {
            punct(out, '=')?;
            ty(value, out)
        }
    }
}

fn default_const(value: &Option<ConstArg<'_>>, out: &mut Layout) -> Printed
    ensures { OnOk result (out.new ≡ lay out.old (spec.default_const_trees value.now)) }
{
    match value {
        None => Ok(()),
        Some(value) => {
            punct(out, '=')?;
            let mut tokens = TokenStream::new(out.allocator());
            write_const(&mut tokens, value, Span::nowhere())?;
            stream(out, &tokens)
        }
    }
}

pub fn param(tree: &GenericParam<'_>, out: &mut Layout) -> Printed
    ensures { OnOk result (out.new ≡ lay out.old (spec.param_trees (param_view tree.now))) }
{
    match tree {
        GenericParam::Lifetime(param) => {
            attributes(param.attrs.as_slice(), out)?;
            lifetime(out, &param.lifetime)?;
            maybe_lifetimes(&param.bounds, out)
        }
        GenericParam::Ty(param) => {
            attributes(param.attrs.as_slice(), out)?;
            name(out, &param.ident)?;
            maybe_bounds(&param.bounds, out)?;
            default_type(&param.default_ty, out)
        }
        GenericParam::Const(param) => {
            attributes(param.attrs.as_slice(), out)?;
            word(out, "const")?;
            name(out, &param.ident)?;
            punct(out, ':')?;
            ty(&param.ty, out)?;
            default_const(&param.default_value, out)
        }
    }
}

fn for_lifetimes(all: &Option<Punctuated<Lifetime<'_>>>, out: &mut Layout) -> Printed
    ensures { OnOk result (out.new ≡ lay out.old (syntax.for_trees nowhere all.now)) }
{
    let mut tokens = TokenStream::new(out.allocator());
    write_for(&mut tokens, all, Span::nowhere())?;
    stream(out, &tokens)
}

pub fn predicate(tree: &WherePredicate<'_>, out: &mut Layout) -> Printed
    ensures { OnOk result (out.new ≡ lay out.old (spec.predicate_trees (predicate_view tree.now))) }
{
    match tree {
        WherePredicate::Lifetime(of, all) => {
            lifetime(out, of)?;
            lifetimes(all, out)
        }
        WherePredicate::Ty(all, of, limits) => {
            for_lifetimes(all, out)?;
            ty(of, out)?;
            bounds(limits, out)
        }
    }
}

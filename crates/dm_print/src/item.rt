//! Implementations and methods.
#![tactic(auto, using(dm_print_types::proofs::Laying::print_steps))]

ghost use Rattle.std.specs.Prelude.{◌≡◌, map, OnOk, true, option_map};
ghost use Rattle.dm_ast.specs.TypeTokens as syntax;
ghost use Rattle.dm_output.specs.Tokens as spec;
ghost use Rattle.dm_output.specs.Views.{item_view, method_view, assoc_view, method_param_view};
ghost use Rattle.dm_print_types.specs.Prelude.{ty_view, path_view, param_view, predicate_view, lay};

use crate::attr::attrs;
use crate::expr::block;
use dm_ast::{GenericParam, Path, Ty, WherePredicate};
use dm_layout::{Layout, Printed};
use dm_output::{Assoc, Item, Method, MethodParam, Receiver};
use dm_print_types::param::{param, predicate};
use dm_print_types::path::{path, ty};
use dm_print_types::token::{close, joint, name, open, punct, word, word_if};
use dm_stream::Delim;

/// Parameters with commas between them.
fn joined_params(all: &[GenericParam<'_>], out: &mut Layout) -> Printed
    ensures { OnOk result (out.new ≡ lay out.old (syntax.spaced spec.comma true (map spec.param_trees (map param_view all.now)))) }
{
    for (i, one) in all.iter().enumerate() {
        if i > 0 {
            punct(out, ',')?;
        }
        param(one, out)?;
    }
    Ok(())
}

/// Adds an implementation's parameters, where it has some: `<'a, T>`.
pub fn params(all: &[GenericParam<'_>], out: &mut Layout) -> Printed
    ensures { OnOk result (out.new ≡ lay out.old (spec.params_trees (map param_view all.now))) }
{
    if all.is_empty() {
        return Ok(());
    }
    punct(out, '<')?;
    joined_params(all, out)?;
    punct(out, '>')
}

/// Predicates with commas between them.
fn joined_predicates(all: &[WherePredicate<'_>], out: &mut Layout) -> Printed
    ensures { OnOk result (out.new ≡ lay out.old (syntax.spaced spec.comma true (map spec.predicate_trees (map predicate_view all.now)))) }
{
    for (i, one) in all.iter().enumerate() {
        if i > 0 {
            punct(out, ',')?;
        }
        predicate(one, out)?;
    }
    Ok(())
}

/// Adds an implementation's predicates, where it has some: `where T: A, U: B`.
pub fn predicates(all: &[WherePredicate<'_>], out: &mut Layout) -> Printed
    ensures { OnOk result (out.new ≡ lay out.old (spec.where_trees (map predicate_view all.now))) }
{
    if all.is_empty() {
        return Ok(());
    }
    word(out, "where")?;
    joined_predicates(all, out)
}

fn trait_path(of: &Option<Path<'_>>, out: &mut Layout) -> Printed
    ensures { OnOk result (out.new ≡ lay out.old (spec.trait_trees (option_map path_view of.now))) }
{
    match of {
        None => Ok(()),
        Some(of) => {
            path(of, out)?;
            word(out, "for")
        }
    }
}

fn assoc(tree: &Assoc<'_>, out: &mut Layout) -> Printed
    ensures { OnOk result (out.new ≡ lay out.old (spec.assoc_trees (assoc_view tree.now))) }
{
    word(out, "type")?;
    name(out, &tree.name)?;
    punct(out, '=')?;
    ty(&tree.ty, out)?;
    punct(out, ';')
}

fn assocs(all: &[Assoc<'_>], out: &mut Layout) -> Printed
    ensures { OnOk result (out.new ≡ lay out.old (spec.in_turn (map spec.assoc_trees (map assoc_view all.now)))) }
{
    for one in all {
        assoc(one, out)?;
    }
    Ok(())
}

fn receiver(out: &mut Layout, kind: Receiver) -> Printed
    ensures { OnOk result (out.new ≡ lay out.old (spec.receiver_trees kind)) }
{
    match kind {
        Receiver::Value => word(out, "self"),
        Receiver::Ref => {
            punct(out, '&')?;
            word(out, "self")
        }
        Receiver::RefMut => {
            punct(out, '&')?;
            word(out, "mut")?;
            word(out, "self")
        }
    }
}

fn method_param(tree: &MethodParam<'_>, out: &mut Layout) -> Printed
    ensures { OnOk result (out.new ≡ lay out.old (spec.method_param_trees (method_param_view tree.now))) }
{
    name(out, &tree.name)?;
    punct(out, ':')?;
    ty(&tree.ty, out)
}

fn inputs(method: &Method<'_>, out: &mut Layout) -> Printed
    ensures { OnOk result (out.new ≡ lay out.old (spec.inputs_trees method.now.receiver (option_map method_param_view method.now.param))) }
{
    match (method.receiver, &method.param) {
        (None, None) => Ok(()),
        (None, Some(param)) => method_param(param, out),
        (Some(kind), None) => receiver(out, kind),
        (Some(kind), Some(param)) => {
            receiver(out, kind)?;
            punct(out, ',')?;
            method_param(param, out)
        }
    }
}

fn output(of: &Option<Ty<'_>>, out: &mut Layout) -> Printed
    ensures { OnOk result (out.new ≡ lay out.old (spec.output_trees (option_map ty_view of.now))) }
{
    match of {
        None => Ok(()),
        Some(of) => {
            joint(out, '-', '>')?;
            ty(of, out)
        }
    }
}

/// Adds all of a method in front of its body.
fn signature(tree: &Method<'_>, out: &mut Layout) -> Printed
    ensures { OnOk result (out.new ≡ lay out.old (spec.signature_trees (method_view tree.now))) }
{
    attrs(out, tree.attrs.as_slice())?;
    word_if(out, tree.is_const, "const")?;
    word(out, "fn")?;
    name(out, &tree.name)?;
    open(out, Delim::Paren)?;
    inputs(tree, out)?;
    close(out, Delim::Paren)?;
    output(&tree.output, out)
}

fn method(tree: &Method<'_>, out: &mut Layout) -> Printed
    ensures { OnOk result (out.new ≡ lay out.old (spec.method_trees (method_view tree.now))) }
{
    signature(tree, out)?;
    block(&tree.body, out)
}

fn methods(all: &[Method<'_>], out: &mut Layout) -> Printed
    ensures { OnOk result (out.new ≡ lay out.old (spec.in_turn (map spec.method_trees (map method_view all.now)))) }
{
    for one in all {
        method(one, out)?;
    }
    Ok(())
}

/// Adds all of an implementation in front of its brace.
fn head(tree: &Item<'_>, out: &mut Layout) -> Printed
    ensures { OnOk result (out.new ≡ lay out.old (spec.head_trees (item_view tree.now))) }
{
    attrs(out, tree.attrs.as_slice())?;
    word(out, "impl")?;
    params(tree.params.as_slice(), out)?;
    trait_path(&tree.trait_path, out)?;
    ty(&tree.ty, out)?;
    predicates(tree.predicates.as_slice(), out)
}

/// Adds an implementation.
pub fn item(tree: &Item<'_>, out: &mut Layout) -> Printed
    ensures { OnOk result (out.new ≡ lay out.old (spec.item_trees (item_view tree.now))) }
{
    head(tree, out)?;
    open(out, Delim::Brace)?;
    assocs(tree.assocs.as_slice(), out)?;
    methods(tree.methods.as_slice(), out)?;
    close(out, Delim::Brace)
}

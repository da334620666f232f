//! Implementations and methods.
#![tactic(auto, using(crate::proofs::Following::level_steps))]

ghost use Rattle.std.specs.Prelude.{◌≡◌, ◌+◌, ◌∷◌, ◌++◌, [], cond, map, option_map, true};
ghost use Rattle.dm_ast.specs.Tree.{ty_view, path_view};
ghost use Rattle.dm_ast.specs.Declarations.{param_view, predicate_view};
ghost use Rattle.dm_output.specs.Views.{item_view, method_view, assoc_view, method_param_view};
ghost use Rattle.dm_levels.specs.Behind.{seen};
ghost use Rattle.dm_levels.specs.Levels as spec;
ghost use Rattle.dm_levels.specs.Levels.{deep_in, items_levels};
ghost use Rattle.dm_type_levels.specs.Passing.{Passes, given, pass_then};
ghost use Rattle.dm_type_levels.specs.TypeLevels.{grouped_levels, spaced_levels, type_levels, param_levels, predicate_levels};

use crate::attr::attrs;
use crate::expr::block;
use crate::parts::three;
use dm_ast::{GenericParam, Path, Ty, WherePredicate};
use dm_output::{Assoc, Item, Method, MethodParam, Receiver};
use dm_stream::{Entry, Span};
use dm_type_levels::param::{param, predicate};
use dm_type_levels::parts::separator;
use dm_type_levels::pass::{Behind, pair, token, token_if};
use dm_type_levels::ty::{path, ty};

/// Parameters with commas between them.
fn joined_params<'t, 'a>(
    all: &[GenericParam<'_>],
    level: usize,
    rest: &'t [Entry<'a>],
) -> Behind<'t, 'a>
    ensures { Passes (spaced_levels (level ∷ []) true (map (param_levels level) (map param_view all.now))) rest.now result }
{
    let mut at = Ok(rest);
    for (i, one) in all.iter().enumerate() {
        at = next_param(one, i == 0, level, at);
    }
    at
}

/// A parameter with a comma before it, but not before the first.
fn next_param<'t, 'a>(
    one: &GenericParam<'_>,
    first: bool,
    level: usize,
    at: Behind<'t, 'a>,
) -> Behind<'t, 'a>
    ensures { seen result ≡ pass_then (cond first [] (level ∷ []) ++ param_levels level (param_view one.now)) (seen at.entry) }
{
    let rest = separator(first, level, at?)?;
    param(one, level, rest)
}

fn params<'t, 'a>(all: &[GenericParam<'_>], level: usize, rest: &'t [Entry<'a>]) -> Behind<'t, 'a>
    ensures { Passes (spec.params_levels level (map param_view all.now)) rest.now result }
{
    if all.is_empty() {
        return Ok(rest);
    }
    let rest = token(level, rest)?;
    let rest = joined_params(all, level + 1, rest)?;
    token(level, rest)
}

/// Predicates with commas between them.
fn joined_predicates<'t, 'a>(
    all: &[WherePredicate<'_>],
    level: usize,
    rest: &'t [Entry<'a>],
) -> Behind<'t, 'a>
    ensures { Passes (spaced_levels (level ∷ []) true (map (predicate_levels level) (map predicate_view all.now))) rest.now result }
{
    let mut at = Ok(rest);
    for (i, one) in all.iter().enumerate() {
        at = next_predicate(one, i == 0, level, at);
    }
    at
}

/// A predicate with a comma before it, but not before the first.
fn next_predicate<'t, 'a>(
    one: &WherePredicate<'_>,
    first: bool,
    level: usize,
    at: Behind<'t, 'a>,
) -> Behind<'t, 'a>
    ensures { seen result ≡ pass_then (cond first [] (level ∷ []) ++ predicate_levels level (predicate_view one.now)) (seen at.entry) }
{
    let rest = separator(first, level, at?)?;
    predicate(one, level, rest)
}

fn predicates<'t, 'a>(
    all: &[WherePredicate<'_>],
    level: usize,
    rest: &'t [Entry<'a>],
) -> Behind<'t, 'a>
    ensures { Passes (spec.where_levels level (map predicate_view all.now)) rest.now result }
{
    if all.is_empty() {
        return Ok(rest);
    }
    let rest = token(level, rest)?;
    joined_predicates(all, level, rest)
}

fn trait_path<'t, 'a>(of: &Option<Path<'_>>, level: usize, rest: &'t [Entry<'a>]) -> Behind<'t, 'a>
    ensures { Passes (spec.trait_levels level (option_map path_view of.now)) rest.now result }
{
    match of {
        None => Ok(rest),
        Some(of) => {
            let rest = path(of, level, rest)?;
            token(level, rest)
        }
    }
}

fn assoc<'t, 'a>(tree: &Assoc<'_>, level: usize, at: Behind<'t, 'a>) -> Behind<'t, 'a>
    ensures { seen result ≡ pass_then (spec.assoc_levels level (assoc_view tree.now)) (seen at.entry) }
{
    let rest = three(level, at?)?;
    let rest = ty(&tree.ty, level, rest)?;
    token(level, rest)
}

fn assocs<'t, 'a>(all: &[Assoc<'_>], level: usize, rest: &'t [Entry<'a>]) -> Behind<'t, 'a>
    ensures { Passes (spec.in_turn (map (spec.assoc_levels level) (map assoc_view all.now))) rest.now result }
{
    let mut at = Ok(rest);
    for one in all {
        at = assoc(one, level, at);
    }
    at
}

fn receiver<'t, 'a>(kind: Receiver, level: usize, rest: &'t [Entry<'a>]) -> Behind<'t, 'a>
    ensures { Passes (spec.receiver_levels level kind) rest.now result }
{
    match kind {
        Receiver::Value => token(level, rest),
        Receiver::Ref => pair(level, rest),
        Receiver::RefMut => three(level, rest),
    }
}

fn method_param<'t, 'a>(
    tree: &MethodParam<'_>,
    level: usize,
    rest: &'t [Entry<'a>],
) -> Behind<'t, 'a>
    ensures { Passes (spec.method_param_levels level (method_param_view tree.now)) rest.now result }
{
    let rest = pair(level, rest)?;
    ty(&tree.ty, level, rest)
}

fn inputs<'t, 'a>(method: &Method<'_>, level: usize, rest: &'t [Entry<'a>]) -> Behind<'t, 'a>
    ensures { Passes (spec.inputs_levels level method.now.receiver (option_map method_param_view method.now.param)) rest.now result }
{
    match (method.receiver, &method.param) {
        (None, None) => Ok(rest),
        (None, Some(param)) => method_param(param, level, rest),
        (Some(kind), None) => receiver(kind, level, rest),
        (Some(kind), Some(param)) => {
            let rest = receiver(kind, level, rest)?;
            let rest = token(level, rest)?;
            method_param(param, level, rest)
        }
    }
}

fn output<'t, 'a>(of: &Option<Ty<'_>>, level: usize, rest: &'t [Entry<'a>]) -> Behind<'t, 'a>
    ensures { Passes (spec.output_levels level (option_map ty_view of.now)) rest.now result }
{
    match of {
        None => Ok(rest),
        Some(of) => {
            let rest = pair(level, rest)?;
            ty(of, level, rest)
        }
    }
}

/// The inputs in parentheses.
fn inputs_in_parens<'t, 'a>(
    method: &Method<'_>,
    level: usize,
    rest: &'t [Entry<'a>],
) -> Behind<'t, 'a>
    ensures { Passes (grouped_levels level (spec.inputs_levels (level + 1) method.now.receiver (option_map method_param_view method.now.param))) rest.now result }
{
    let rest = token(level, rest)?;
    let rest = inputs(method, level + 1, rest)?;
    token(level, rest)
}

/// The inputs in parentheses, and the output.
fn types_of<'t, 'a>(method: &Method<'_>, level: usize, rest: &'t [Entry<'a>]) -> Behind<'t, 'a>
    ensures { Passes (grouped_levels level (spec.inputs_levels (level + 1) method.now.receiver (option_map method_param_view method.now.param)) ++ spec.output_levels level (option_map ty_view method.now.output)) rest.now result }
{
    let rest = inputs_in_parens(method, level, rest)?;
    output(&method.output, level, rest)
}

/// `const`, where it is there, `fn` and the name.
fn named<'t, 'a>(is_const: bool, level: usize, rest: &'t [Entry<'a>]) -> Behind<'t, 'a>
    ensures { Passes (given is_const (level ∷ []) ++ level ∷ level ∷ []) rest.now result }
{
    let rest = token_if(is_const, level, rest)?;
    pair(level, rest)
}

/// All of a method in front of its body.
fn signature<'t, 'a>(tree: &Method<'_>, level: usize, rest: &'t [Entry<'a>]) -> Behind<'t, 'a>
    ensures { Passes (spec.signature_levels level (method_view tree.now)) rest.now result }
{
    let rest = attrs(tree.attrs.as_slice(), level, rest)?;
    let rest = named(tree.is_const, level, rest)?;
    types_of(tree, level, rest)
}

fn method<'t, 'a>(tree: &Method<'_>, level: usize, at: Behind<'t, 'a>) -> Behind<'t, 'a>
    ensures { seen result ≡ pass_then (spec.method_levels level (method_view tree.now)) (seen at.entry) }
{
    let rest = signature(tree, level, at?)?;
    block(&tree.body, level, rest)
}

fn methods<'t, 'a>(all: &[Method<'_>], level: usize, rest: &'t [Entry<'a>]) -> Behind<'t, 'a>
    ensures { Passes (spec.in_turn (map (spec.method_levels level) (map method_view all.now))) rest.now result }
{
    let mut at = Ok(rest);
    for one in all {
        at = method(one, level, at);
    }
    at
}

/// The type, and the predicates.
fn type_and_predicates<'t, 'a>(tree: &Item<'_>, rest: &'t [Entry<'a>]) -> Behind<'t, 'a>
    ensures { Passes (type_levels 0 (ty_view tree.now.ty) ++ spec.where_levels 0 (map predicate_view tree.now.predicates)) rest.now result }
{
    let rest = ty(&tree.ty, 0, rest)?;
    predicates(tree.predicates.as_slice(), 0, rest)
}

/// The trait, where there is one, the type and the predicates.
fn behind_params<'t, 'a>(tree: &Item<'_>, rest: &'t [Entry<'a>]) -> Behind<'t, 'a>
    ensures { Passes (spec.trait_levels 0 (option_map path_view tree.now.trait_path) ++ (type_levels 0 (ty_view tree.now.ty) ++ spec.where_levels 0 (map predicate_view tree.now.predicates))) rest.now result }
{
    let rest = trait_path(&tree.trait_path, 0, rest)?;
    type_and_predicates(tree, rest)
}

/// `impl`, and the parameters, where there are any.
fn impl_params<'t, 'a>(tree: &Item<'_>, rest: &'t [Entry<'a>]) -> Behind<'t, 'a>
    ensures { Passes (0 ∷ spec.params_levels 0 (map param_view tree.now.params)) rest.now result }
{
    let rest = token(0, rest)?;
    params(tree.params.as_slice(), 0, rest)
}

/// All of an implementation in front of its brace.
fn head<'t, 'a>(tree: &Item<'_>, rest: &'t [Entry<'a>]) -> Behind<'t, 'a>
    ensures { Passes (spec.head_levels 0 (item_view tree.now)) rest.now result }
{
    let rest = attrs(tree.attrs.as_slice(), 0, rest)?;
    let rest = impl_params(tree, rest)?;
    behind_params(tree, rest)
}

/// What stands between the braces of an implementation.
fn inside<'t, 'a>(tree: &Item<'_>, rest: &'t [Entry<'a>]) -> Behind<'t, 'a>
    ensures { Passes (spec.in_turn (map (spec.assoc_levels 1) (map assoc_view tree.now.assocs)) ++ spec.in_turn (map (spec.method_levels 1) (map method_view tree.now.methods))) rest.now result }
{
    let rest = assocs(tree.assocs.as_slice(), 1, rest)?;
    methods(tree.methods.as_slice(), 1, rest)
}

/// The same with the braces.
fn in_braces<'t, 'a>(tree: &Item<'_>, rest: &'t [Entry<'a>]) -> Behind<'t, 'a>
    ensures { Passes (grouped_levels 0 (spec.in_turn (map (spec.assoc_levels 1) (map assoc_view tree.now.assocs)) ++ spec.in_turn (map (spec.method_levels 1) (map method_view tree.now.methods)))) rest.now result }
{
    let rest = token(0, rest)?;
    let rest = inside(tree, rest)?;
    token(0, rest)
}

fn item<'t, 'a>(tree: &Item<'_>, at: Behind<'t, 'a>) -> Behind<'t, 'a>
    ensures { seen result ≡ pass_then (spec.item_levels (item_view tree.now)) (seen at.entry) }
{
    let rest = head(tree, at?)?;
    in_braces(tree, rest)
}

fn all_items<'t, 'a>(all: &[Item<'_>], rest: &'t [Entry<'a>]) -> Behind<'t, 'a>
    ensures { Passes (items_levels (map item_view all.now)) rest.now result }
{
    let mut at = Ok(rest);
    for one in all {
        at = item(one, at);
    }
    at
}

/// The range of the first entry that stands too deep, where the entries are those of the text of these implementations. What they are is
/// not read.
pub fn first_deep(items: &[Item<'_>], entries: &[Entry<'_>]) -> Option<Span>
    ensures { result ≡ deep_in (items_levels (map item_view items.now)) entries.now }
{
    match all_items(items, entries) {
        Ok(_) => None,
        Err(span) => Some(span),
    }
}

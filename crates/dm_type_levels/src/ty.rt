//! The levels of types, paths and bounds.
#![tactic(auto, using(crate::proofs::TypeSteps::type_steps))]

ghost use Rattle.std.specs.Prelude.{◌≡◌, ◌≤◌, OnOk, [], ◌∷◌, ◌++◌, ◌+◌, map, take, drop, option_map, true, false};
ghost use Rattle.dm_ast.specs.Spelling.{deepest};
ghost use Rattle.dm_ast.specs.Tree as tree;
ghost use Rattle.dm_type_levels.specs.TypeLevels as spec;
ghost use Rattle.dm_type_levels.specs.Passing.{Passes, given};

use crate::parts::{
    abi, attributes, constant, for_lifetimes, group, input_name, joiner, maybe_lifetime, pair_if,
    plain, separator, stream,
};
use crate::pass::{Ahead, Behind, pair, token, token_if};
use dm_ast::{
    BareFn, Bound, ConstArg, FnArg, GenericArgument, Opaque, Path, PathArguments, PathSegment,
    PlainPath, QSelf, TraitBound, Ty, TyNode,
};
use dm_stream::{Entry, Lifetime, Literal, Punctuated, TokenStream};

/// The entries behind a type, which stands at this level.
#[cycle(levels)]
pub fn ty<'t, 'a>(ty: &Ty<'_>, level: usize, rest: &'t [Entry<'a>]) -> Behind<'t, 'a>
    ensures { Passes (spec.type_levels level (tree.ty_view ty.now)) rest.now result }
{
    node(&ty.node, level, rest)
}

#[cycle(levels)]
fn node<'t, 'a>(node: &TyNode<'_>, level: usize, rest: &'t [Entry<'a>]) -> Behind<'t, 'a>
    ensures { Passes (spec.node_levels level (tree.node_view node.now)) rest.now result }
{
    match node {
        TyNode::Paren(inner) | TyNode::Slice(inner) => enclosed(inner, level, rest),
        TyNode::Tuple(all) => tuple(all.items.as_slice(), all.trailing, level, rest),
        TyNode::Array(inner, size) => array(inner, size, level, rest),
        TyNode::Reference(name, is_mut, inner) => reference(name, *is_mut, inner, level, rest),
        TyNode::Pointer(_, inner) => pointer(inner, level, rest),
        TyNode::BareFn(found) => function(found, level, rest),
        TyNode::TraitObject(all) | TyNode::ImplTrait(all) => {
            bounded(all.items.as_slice(), all.trailing, level, rest)
        }
        TyNode::Infer | TyNode::Never => token(level, rest),
        TyNode::Path(qself, found) => match qself {
            None => path(found, level, rest),
            Some(qself) => {
                let rest = self_type(qself, level, rest)?;
                let all = found.segments.as_slice();
                behind_self(all, qself.position, found.leading_colon, level, rest)
            }
        },
        TyNode::Macro(name, _, tokens) => macro_call(name, tokens, level, rest),
    }
}

#[cycle(levels)]
fn enclosed<'t, 'a>(inner: &Ty<'_>, level: usize, rest: &'t [Entry<'a>]) -> Behind<'t, 'a>
    ensures { Passes (spec.grouped_levels level (spec.type_levels (level + 1) (tree.ty_view inner.now))) rest.now result }
{
    let rest = token(level, rest)?;
    let rest = ty(inner, level + 1, rest)?;
    token(level, rest)
}

#[cycle(levels)]
fn array_inside<'t, 'a>(
    inner: &Ty<'_>,
    size: &Opaque<'_>,
    level: usize,
    rest: &'t [Entry<'a>],
) -> Behind<'t, 'a>
    ensures { Passes (spec.type_levels level (tree.ty_view inner.now) ++ level ∷ spec.trees_levels level size.now.tokens.trees) rest.now result }
{
    let rest = ty(inner, level, rest)?;
    let rest = token(level, rest)?;
    stream(&size.tokens, level, rest)
}

#[cycle(levels)]
fn array<'t, 'a>(
    inner: &Ty<'_>,
    size: &Opaque<'_>,
    level: usize,
    rest: &'t [Entry<'a>],
) -> Behind<'t, 'a>
    ensures { Passes (spec.node_levels level (tree.array (tree.ty_view inner.now) size.now)) rest.now result }
{
    let rest = token(level, rest)?;
    let rest = array_inside(inner, size, level + 1, rest)?;
    token(level, rest)
}

#[cycle(levels)]
fn reference_inside<'t, 'a>(
    name: &Option<Lifetime<'_>>,
    is_mut: bool,
    inner: &Ty<'_>,
    level: usize,
    rest: &'t [Entry<'a>],
) -> Behind<'t, 'a>
    ensures { Passes (spec.maybe_levels level name.now ++ (given is_mut (level ∷ []) ++ spec.type_levels level (tree.ty_view inner.now))) rest.now result }
{
    let rest = maybe_lifetime(name, level, rest)?;
    let rest = token_if(is_mut, level, rest)?;
    ty(inner, level, rest)
}

#[cycle(levels)]
fn reference<'t, 'a>(
    name: &Option<Lifetime<'_>>,
    is_mut: bool,
    inner: &Ty<'_>,
    level: usize,
    rest: &'t [Entry<'a>],
) -> Behind<'t, 'a>
    ensures { Passes (spec.node_levels level (tree.reference name.now is_mut (tree.ty_view inner.now))) rest.now result }
{
    let rest = token(level, rest)?;
    reference_inside(name, is_mut, inner, level + 1, rest)
}

/// Behind a pointer's `*` stands `const` or `mut`.
#[cycle(levels)]
fn pointer<'t, 'a>(inner: &Ty<'_>, level: usize, rest: &'t [Entry<'a>]) -> Behind<'t, 'a>
    ensures { Passes (level ∷ (level + 1) ∷ spec.type_levels (level + 1) (tree.ty_view inner.now)) rest.now result }
{
    let rest = token(level, rest)?;
    let rest = token(level + 1, rest)?;
    ty(inner, level + 1, rest)
}

/// The entries behind `dyn` or `impl`, and bounds.
#[cycle(levels)]
fn bounded<'t, 'a>(
    all: &[Bound<'_>],
    trailing: bool,
    level: usize,
    rest: &'t [Entry<'a>],
) -> Behind<'t, 'a>
    ensures { Passes (level ∷ spec.listed_levels (level + 1) (spec.each_bound (level + 1) (tree.bounds_of (map tree.bound_view all.now))) trailing) rest.now result }
{
    let rest = token(level, rest)?;
    bounds(all, trailing, level + 1, rest)
}

fn macro_call<'t, 'a>(
    name: &PlainPath<'_>,
    tokens: &TokenStream<'_>,
    level: usize,
    rest: &'t [Entry<'a>],
) -> Behind<'t, 'a>
    ensures { Passes (spec.plain_levels level name.now ++ level ∷ spec.grouped_levels level (spec.trees_levels (level + 1) tokens.now.trees)) rest.now result }
{
    let rest = plain(name, level, rest)?;
    let rest = token(level, rest)?;
    group(tokens, level, rest)
}

#[cycle(levels)]
fn tuple<'t, 'a>(
    all: &[Ty<'_>],
    trailing: bool,
    level: usize,
    rest: &'t [Entry<'a>],
) -> Behind<'t, 'a>
    ensures { Passes (spec.grouped_levels level (spec.listed_levels (level + 1) (spec.each_type (level + 1) (tree.types_of (map tree.ty_view all.now))) trailing)) rest.now result }
{
    let rest = token(level, rest)?;
    let rest = types(all, trailing, level + 1, rest)?;
    token(level, rest)
}

#[cycle(levels)]
fn types<'t, 'a>(
    all: &[Ty<'_>],
    trailing: bool,
    level: usize,
    rest: &'t [Entry<'a>],
) -> Behind<'t, 'a>
    ensures { Passes (spec.listed_levels level (spec.each_type level (tree.types_of (map tree.ty_view all.now))) trailing) rest.now result }
{
    let rest = spaced_types(all, level, rest)?;
    token_if(trailing, level, rest)
}

#[cycle(levels)]
fn spaced_types<'t, 'a>(all: &[Ty<'_>], level: usize, rest: &'t [Entry<'a>]) -> Behind<'t, 'a>
    ensures { Passes (spec.spaced_levels (level ∷ []) true (spec.each_type level (tree.types_of (map tree.ty_view all.now)))) rest.now result }
{
    let mut at = Ahead { left: rest };
    for (i, item) in all.iter().enumerate() {
        let next = separator(i == 0, level, at.left)?;
        let left = ty(item, level, next)?;
        at = Ahead { left };
    }
    Ok(at.left)
}

/// The entries behind bounds with `+` between them, and one after the last where `trailing`.
#[cycle(levels)]
pub fn bounds<'t, 'a>(
    all: &[Bound<'_>],
    trailing: bool,
    level: usize,
    rest: &'t [Entry<'a>],
) -> Behind<'t, 'a>
    ensures { Passes (spec.listed_levels level (spec.each_bound level (tree.bounds_of (map tree.bound_view all.now))) trailing) rest.now result }
{
    let rest = spaced_bounds(all, level, rest)?;
    token_if(trailing, level, rest)
}

#[cycle(levels)]
fn spaced_bounds<'t, 'a>(all: &[Bound<'_>], level: usize, rest: &'t [Entry<'a>]) -> Behind<'t, 'a>
    ensures { Passes (spec.spaced_levels (level ∷ []) true (spec.each_bound level (tree.bounds_of (map tree.bound_view all.now)))) rest.now result }
{
    let mut at = Ahead { left: rest };
    for (i, item) in all.iter().enumerate() {
        let next = separator(i == 0, level, at.left)?;
        let left = bound(item, level, next)?;
        at = Ahead { left };
    }
    Ok(at.left)
}

#[cycle(levels)]
fn bound<'t, 'a>(bound: &Bound<'_>, level: usize, rest: &'t [Entry<'a>]) -> Behind<'t, 'a>
    ensures { Passes (spec.bound_levels level (tree.bound_view bound.now)) rest.now result }
{
    match bound {
        Bound::Lifetime(_) => token(level, rest),
        Bound::Trait(found) => trait_bound(found, level, rest),
    }
}

#[cycle(levels)]
fn trait_bound<'t, 'a>(
    bound: &TraitBound<'_>,
    level: usize,
    rest: &'t [Entry<'a>],
) -> Behind<'t, 'a>
    ensures { Passes (spec.trait_bound_levels level (tree.trait_view bound.now)) rest.now result }
{
    if !bound.parens {
        return bare_bound(bound.maybe, &bound.lifetimes, &bound.path, level, rest);
    }
    let rest = token(level, rest)?;
    let rest = bare_bound(bound.maybe, &bound.lifetimes, &bound.path, level + 1, rest)?;
    token(level, rest)
}

/// The entries behind a trait as a bound, but for its parentheses.
#[cycle(levels)]
fn bare_bound<'t, 'a>(
    maybe: bool,
    lifetimes: &Option<Punctuated<Lifetime<'_>>>,
    path: &Path<'_>,
    level: usize,
    rest: &'t [Entry<'a>],
) -> Behind<'t, 'a>
    ensures { Passes (spec.bare_levels level maybe lifetimes.now (spec.path_levels level (tree.path_view path.now))) rest.now result }
{
    let rest = token_if(maybe, level, rest)?;
    let rest = for_lifetimes(lifetimes, level, rest)?;
    self::path(path, level, rest)
}

#[cycle(levels)]
fn function<'t, 'a>(found: &BareFn<'_>, level: usize, rest: &'t [Entry<'a>]) -> Behind<'t, 'a>
    ensures { Passes (spec.fn_levels level (tree.fn_view found.now)) rest.now result }
{
    let rest = fn_front(&found.lifetimes, found.is_unsafe, &found.abi, level, rest)?;
    let rest = token(level, rest)?;
    let inputs = &found.inputs;
    let rest = parameters(inputs.items.as_slice(), inputs.trailing, level + 1, rest)?;
    match &found.output {
        None => Ok(rest),
        Some(output) => fn_output(output, level + 1, rest),
    }
}

/// The entries behind what stands before `fn`.
fn fn_front<'t, 'a>(
    lifetimes: &Option<Punctuated<Lifetime<'_>>>,
    is_unsafe: bool,
    called: &Option<Option<Literal<'_>>>,
    level: usize,
    rest: &'t [Entry<'a>],
) -> Behind<'t, 'a>
    ensures { Passes (spec.for_levels level lifetimes.now ++ (given is_unsafe (level ∷ []) ++ spec.abi_levels level called.now)) rest.now result }
{
    let rest = for_lifetimes(lifetimes, level, rest)?;
    let rest = token_if(is_unsafe, level, rest)?;
    abi(called, level, rest)
}

#[cycle(levels)]
fn fn_output<'t, 'a>(output: &Ty<'_>, level: usize, rest: &'t [Entry<'a>]) -> Behind<'t, 'a>
    ensures { Passes (spec.output_levels level level (tree.some_type (tree.ty_view output.now))) rest.now result }
{
    let rest = pair(level, rest)?;
    ty(output, level, rest)
}

#[cycle(levels)]
fn parameters<'t, 'a>(
    all: &[FnArg<'_>],
    trailing: bool,
    level: usize,
    rest: &'t [Entry<'a>],
) -> Behind<'t, 'a>
    ensures { Passes (spec.grouped_levels level (spec.listed_levels (level + 1) (spec.each_input (level + 1) (tree.inputs_of (map tree.input_view all.now))) trailing)) rest.now result }
{
    let rest = token(level, rest)?;
    let rest = inputs(all, trailing, level + 1, rest)?;
    token(level, rest)
}

#[cycle(levels)]
fn inputs<'t, 'a>(
    all: &[FnArg<'_>],
    trailing: bool,
    level: usize,
    rest: &'t [Entry<'a>],
) -> Behind<'t, 'a>
    ensures { Passes (spec.listed_levels level (spec.each_input level (tree.inputs_of (map tree.input_view all.now))) trailing) rest.now result }
{
    let rest = spaced_inputs(all, level, rest)?;
    token_if(trailing, level, rest)
}

#[cycle(levels)]
fn spaced_inputs<'t, 'a>(all: &[FnArg<'_>], level: usize, rest: &'t [Entry<'a>]) -> Behind<'t, 'a>
    ensures { Passes (spec.spaced_levels (level ∷ []) true (spec.each_input level (tree.inputs_of (map tree.input_view all.now)))) rest.now result }
{
    let mut at = Ahead { left: rest };
    for (i, item) in all.iter().enumerate() {
        let next = separator(i == 0, level, at.left)?;
        let left = input(item, level, next)?;
        at = Ahead { left };
    }
    Ok(at.left)
}

#[cycle(levels)]
fn input<'t, 'a>(input: &FnArg<'_>, level: usize, rest: &'t [Entry<'a>]) -> Behind<'t, 'a>
    ensures { Passes (spec.input_levels level (tree.input_view input.now)) rest.now result }
{
    let rest = attributes(input.attrs.as_slice(), level, rest)?;
    let rest = input_name(&input.name, level, rest)?;
    ty(&input.ty, level, rest)
}

/// The entries behind a path.
#[cycle(levels)]
pub fn path<'t, 'a>(path: &Path<'_>, level: usize, rest: &'t [Entry<'a>]) -> Behind<'t, 'a>
    ensures { Passes (spec.path_levels level (tree.path_view path.now)) rest.now result }
{
    let rest = pair_if(path.leading_colon, level, rest)?;
    segments(path.segments.as_slice(), level, rest)
}

/// The entries behind `<Self`.
#[cycle(levels)]
fn self_type<'t, 'a>(qself: &QSelf<'_>, level: usize, rest: &'t [Entry<'a>]) -> Behind<'t, 'a>
    ensures gives { Passes (level ∷ spec.type_levels (level + 1) (tree.ty_view qself.now.ty)) rest.now result }
    ensures within { OnOk result (level ≤ deepest) }
{
    let rest = token(level, rest)?;
    ty(&qself.ty, level + 1, rest)
}

/// The entries behind what stands behind `<Self`.
#[cycle(levels)]
fn behind_self<'t, 'a>(
    all: &[PathSegment<'_>],
    position: usize,
    leading_colon: bool,
    level: usize,
    rest: &'t [Entry<'a>],
) -> Behind<'t, 'a>
    requires { level ≤ deepest }
    ensures { Passes (spec.as_levels (level + 1) position leading_colon (spec.each_segment (level + 1) (tree.segments_of (map tree.segment_view all.now))) ++ level ∷ spec.spaced_levels (spec.two level) false (drop position (spec.each_segment level (tree.segments_of (map tree.segment_view all.now))))) rest.now result }
{
    let rest = as_trait(all, position, leading_colon, level + 1, rest)?;
    let rest = token(level, rest)?;
    later(all, position, level, rest)
}

#[cycle(levels)]
fn as_trait<'t, 'a>(
    all: &[PathSegment<'_>],
    position: usize,
    leading_colon: bool,
    level: usize,
    rest: &'t [Entry<'a>],
) -> Behind<'t, 'a>
    ensures { Passes (spec.as_levels level position leading_colon (spec.each_segment level (tree.segments_of (map tree.segment_view all.now)))) rest.now result }
{
    if position == 0 {
        return Ok(rest);
    }
    let rest = token(level, rest)?;
    let rest = pair_if(leading_colon, level, rest)?;
    first(all, position, level, rest)
}

#[cycle(levels)]
fn segments<'t, 'a>(all: &[PathSegment<'_>], level: usize, rest: &'t [Entry<'a>]) -> Behind<'t, 'a>
    ensures { Passes (spec.spaced_levels (spec.two level) true (spec.each_segment level (tree.segments_of (map tree.segment_view all.now)))) rest.now result }
{
    let mut at = Ahead { left: rest };
    for (i, item) in all.iter().enumerate() {
        let next = joiner(i == 0, level, at.left)?;
        let left = segment(item, level, next)?;
        at = Ahead { left };
    }
    Ok(at.left)
}

/// The entries behind the first `position` segments, or all.
#[cycle(levels)]
fn first<'t, 'a>(
    all: &[PathSegment<'_>],
    position: usize,
    level: usize,
    rest: &'t [Entry<'a>],
) -> Behind<'t, 'a>
    ensures { Passes (spec.spaced_levels (spec.two level) true (take position (spec.each_segment level (tree.segments_of (map tree.segment_view all.now))))) rest.now result }
{
    let mut at = Ahead { left: rest };
    for (i, item) in all.iter().enumerate() {
        if i >= position {
            return Ok(at.left);
        }
        let next = joiner(i == 0, level, at.left)?;
        let left = segment(item, level, next)?;
        at = Ahead { left };
    }
    Ok(at.left)
}

/// The entries behind the segments after the first `position`, each with `::` before it.
#[cycle(levels)]
fn later<'t, 'a>(
    all: &[PathSegment<'_>],
    position: usize,
    level: usize,
    rest: &'t [Entry<'a>],
) -> Behind<'t, 'a>
    ensures { Passes (spec.spaced_levels (spec.two level) false (drop position (spec.each_segment level (tree.segments_of (map tree.segment_view all.now))))) rest.now result }
{
    let mut at = Ahead { left: rest };
    for (i, item) in all.iter().enumerate() {
        if i < position {
            continue;
        }
        let next = pair(level, at.left)?;
        let left = segment(item, level, next)?;
        at = Ahead { left };
    }
    Ok(at.left)
}

#[cycle(levels)]
fn segment<'t, 'a>(segment: &PathSegment<'_>, level: usize, rest: &'t [Entry<'a>]) -> Behind<'t, 'a>
    ensures { Passes (spec.segment_levels level (tree.segment_view segment.now)) rest.now result }
{
    let rest = token(level, rest)?;
    arguments(&segment.arguments, level, rest)
}

#[cycle(levels)]
fn arguments<'t, 'a>(
    arguments: &PathArguments<'_>,
    level: usize,
    rest: &'t [Entry<'a>],
) -> Behind<'t, 'a>
    ensures { Passes (spec.arguments_levels level (tree.arguments_view arguments.now)) rest.now result }
{
    match arguments {
        PathArguments::Absent => Ok(rest),
        PathArguments::Angle(colons, all) => {
            let rest = pair_if(*colons, level, rest)?;
            angle(all.items.as_slice(), all.trailing, level, rest)
        }
        PathArguments::Paren(all, output) => {
            let rest = tuple(all.items.as_slice(), all.trailing, level, rest)?;
            match output {
                None => Ok(rest),
                Some(found) => path_output(found, level, rest),
            }
        }
    }
}

#[cycle(levels)]
fn path_output<'t, 'a>(output: &Ty<'_>, level: usize, rest: &'t [Entry<'a>]) -> Behind<'t, 'a>
    ensures { Passes (spec.output_levels level (level + 1) (tree.some_type (tree.ty_view output.now))) rest.now result }
{
    let rest = pair(level, rest)?;
    ty(output, level + 1, rest)
}

#[cycle(levels)]
fn angle<'t, 'a>(
    all: &[GenericArgument<'_>],
    trailing: bool,
    level: usize,
    rest: &'t [Entry<'a>],
) -> Behind<'t, 'a>
    ensures { Passes (spec.angle_levels level (spec.each_argument (level + 1) (tree.arguments_of (map tree.argument_view all.now))) trailing) rest.now result }
{
    let rest = token(level, rest)?;
    let rest = angle_inside(all, trailing, level + 1, rest)?;
    token(level, rest)
}

#[cycle(levels)]
fn angle_inside<'t, 'a>(
    all: &[GenericArgument<'_>],
    trailing: bool,
    level: usize,
    rest: &'t [Entry<'a>],
) -> Behind<'t, 'a>
    ensures { Passes (spec.listed_levels level (spec.each_argument level (tree.arguments_of (map tree.argument_view all.now))) trailing) rest.now result }
{
    let rest = spaced_arguments(all, level, rest)?;
    token_if(trailing, level, rest)
}

#[cycle(levels)]
fn spaced_arguments<'t, 'a>(
    all: &[GenericArgument<'_>],
    level: usize,
    rest: &'t [Entry<'a>],
) -> Behind<'t, 'a>
    ensures { Passes (spec.spaced_levels (level ∷ []) true (spec.each_argument level (tree.arguments_of (map tree.argument_view all.now)))) rest.now result }
{
    let mut at = Ahead { left: rest };
    for (i, item) in all.iter().enumerate() {
        let next = separator(i == 0, level, at.left)?;
        let left = argument(item, level, next)?;
        at = Ahead { left };
    }
    Ok(at.left)
}

/// The entries behind `= Type`.
#[cycle(levels)]
pub fn equal_type<'t, 'a>(ty: &Ty<'_>, level: usize, rest: &'t [Entry<'a>]) -> Behind<'t, 'a>
    ensures { Passes (level ∷ spec.type_levels level (tree.ty_view ty.now)) rest.now result }
{
    let rest = token(level, rest)?;
    self::ty(ty, level, rest)
}

/// The entries behind `= value`.
pub fn equal_const<'t, 'a>(
    value: &ConstArg<'_>,
    level: usize,
    rest: &'t [Entry<'a>],
) -> Behind<'t, 'a>
    ensures { Passes (level ∷ spec.const_levels level value.now) rest.now result }
{
    let rest = token(level, rest)?;
    constant(value, level, rest)
}

/// The entries behind a colon and bounds.
#[cycle(levels)]
pub fn constraint<'t, 'a>(
    all: &[Bound<'_>],
    trailing: bool,
    level: usize,
    rest: &'t [Entry<'a>],
) -> Behind<'t, 'a>
    ensures { Passes (level ∷ spec.listed_levels level (spec.each_bound level (tree.bounds_of (map tree.bound_view all.now))) trailing) rest.now result }
{
    let rest = token(level, rest)?;
    bounds(all, trailing, level, rest)
}

#[cycle(levels)]
fn argument<'t, 'a>(
    argument: &GenericArgument<'_>,
    level: usize,
    rest: &'t [Entry<'a>],
) -> Behind<'t, 'a>
    ensures { Passes (spec.argument_levels level (tree.argument_view argument.now)) rest.now result }
{
    match argument {
        GenericArgument::Lifetime(_) => token(level, rest),
        GenericArgument::Ty(found) => ty(found, level, rest),
        GenericArgument::Const(value) => constant(value, level, rest),
        GenericArgument::AssocTy(_, arguments, found) => {
            let rest = token(level, rest)?;
            match arguments {
                None => equal_type(found, level, rest),
                Some(all) => {
                    let rest = angle(all.items.as_slice(), all.trailing, level, rest)?;
                    equal_type(found, level, rest)
                }
            }
        }
        GenericArgument::AssocConst(_, arguments, value) => {
            let rest = token(level, rest)?;
            match arguments {
                None => equal_const(value, level, rest),
                Some(all) => {
                    let rest = angle(all.items.as_slice(), all.trailing, level, rest)?;
                    equal_const(value, level, rest)
                }
            }
        }
        GenericArgument::Constraint(_, arguments, bounds) => {
            let rest = token(level, rest)?;
            match arguments {
                None => constraint(bounds.items.as_slice(), bounds.trailing, level, rest),
                Some(all) => {
                    let rest = angle(all.items.as_slice(), all.trailing, level, rest)?;
                    constraint(bounds.items.as_slice(), bounds.trailing, level, rest)
                }
            }
        }
    }
}

/// The entries behind a path or a qualified one.
pub fn path_expr<'t, 'a>(
    path: &Path<'_>,
    qself: &Option<Box<QSelf<'_>>>,
    level: usize,
    rest: &'t [Entry<'a>],
) -> Behind<'t, 'a>
    ensures { Passes (spec.path_expr_levels level (tree.maybe_self_view qself.now) (tree.path_view path.now)) rest.now result }
{
    match qself {
        None => self::path(path, level, rest),
        Some(qself) => {
            let rest = self_type(qself, level, rest)?;
            let all = path.segments.as_slice();
            behind_self(all, qself.position, path.leading_colon, level, rest)
        }
    }
}

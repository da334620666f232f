//! The first place in a type where something stands that may not stand.
#![tactic(auto, using(crate::proofs::NamePlaces::place_steps))]

ghost use Rattle.std.specs.Prelude.{◌≡◌, map, ◌∷◌, []};
ghost use Rattle.dm_ast.specs.Tree as tree;
ghost use Rattle.dm_ast.specs.Names as names;
ghost use Rattle.dm_names.specs.NamePlaces.{first_place};

use dm_ast::{
    BareFn, Bound, FnArg, GenericArgument, Path, PathArguments, PathSegment, QSelf, TraitBound, Ty,
    TyNode,
};
use dm_stream::{Lifetime, Punctuated, Span};

/// What is looked for.
#[derive(Clone, Copy)]
pub enum Wanted {
    /// Macro types.
    MacroType,
    /// Reserved names.
    Reserved,
    /// Any of these.
    Either,
}

fn macro_place(wanted: Wanted, span: Span) -> Option<Span>
    ensures { result ≡ first_place wanted (names.macro_at span ∷ []) }
{
    match wanted {
        Wanted::MacroType | Wanted::Either => Some(span),
        Wanted::Reserved => None,
    }
}

/// The place of a name that doesn't stand among the types.
pub fn plain_place(wanted: Wanted, name: &str, span: Span) -> Option<Span>
    ensures { result ≡ first_place wanted (names.name_at names.bound name.now span ∷ []) }
{
    match wanted {
        Wanted::MacroType => None,
        Wanted::Reserved | Wanted::Either => {
            if name.starts_with("__") {
                Some(span)
            } else {
                None
            }
        }
    }
}

fn in_lifetimes(wanted: Wanted, all: &[Lifetime<'_>]) -> Option<Span>
    ensures { result ≡ first_place wanted (map (λ l. names.name_at names.bound l.name l.span) all.now) }
{
    for item in all {
        if let Some(span) = plain_place(wanted, item.name.as_str(), item.span) {
            return Some(span);
        }
    }
    None
}

/// In the lifetimes of a `for`.
pub fn in_for(wanted: Wanted, lifetimes: &Option<Punctuated<Lifetime<'_>>>) -> Option<Span>
    ensures { result ≡ first_place wanted (names.in_for lifetimes.now) }
{
    match lifetimes {
        None => None,
        Some(all) => in_lifetimes(wanted, all.items.as_slice()),
    }
}

/// In a type.
#[cycle(places)]
pub fn in_type(wanted: Wanted, ty: &Ty<'_>) -> Option<Span>
    ensures { result ≡ first_place wanted (names.in_type (tree.ty_view ty.now)) }
{
    in_node(wanted, &ty.node, ty.span)
}

#[cycle(places)]
fn in_node(wanted: Wanted, node: &TyNode<'_>, span: Span) -> Option<Span>
    ensures { result ≡ first_place wanted (names.in_node (tree.node_view node.now) span) }
{
    match node {
        TyNode::Paren(inner) => in_type(wanted, inner),
        TyNode::Tuple(all) => in_types(wanted, all.items.as_slice()),
        TyNode::Slice(inner) => in_type(wanted, inner),
        TyNode::Array(inner, _) => in_type(wanted, inner),
        TyNode::Reference(_, _, inner) => in_type(wanted, inner),
        TyNode::Pointer(_, inner) => in_type(wanted, inner),
        TyNode::BareFn(function) => in_function(wanted, function),
        TyNode::TraitObject(all) => in_bounds(wanted, all.items.as_slice()),
        TyNode::ImplTrait(all) => in_bounds(wanted, all.items.as_slice()),
        TyNode::Infer => None,
        TyNode::Never => None,
        TyNode::Path(qself, path) => match qself {
            None => in_path(wanted, path),
            Some(qself) => in_self(wanted, qself).or(in_path(wanted, path)),
        },
        TyNode::Macro(_, _, _) => macro_place(wanted, span),
    }
}

#[cycle(places)]
fn in_self(wanted: Wanted, qself: &QSelf<'_>) -> Option<Span>
    ensures { result ≡ first_place wanted (names.in_type (tree.ty_view qself.now.ty)) }
{
    in_type(wanted, &qself.ty)
}

#[cycle(places)]
fn in_types(wanted: Wanted, all: &[Ty<'_>]) -> Option<Span>
    ensures { result ≡ first_place wanted (names.in_types (tree.types_of (map tree.ty_view all.now))) }
{
    for item in all {
        if let Some(span) = in_type(wanted, item) {
            return Some(span);
        }
    }
    None
}

#[cycle(places)]
fn in_function(wanted: Wanted, function: &BareFn<'_>) -> Option<Span>
    ensures { result ≡ first_place wanted (names.in_function (tree.fn_view function.now)) }
{
    let lifetimes = in_for(wanted, &function.lifetimes);
    let inputs = in_inputs(wanted, function.inputs.items.as_slice());
    match &function.output {
        None => lifetimes.or(inputs),
        Some(ty) => lifetimes.or(inputs.or(in_type(wanted, ty))),
    }
}

#[cycle(places)]
fn in_inputs(wanted: Wanted, all: &[FnArg<'_>]) -> Option<Span>
    ensures { result ≡ first_place wanted (names.in_inputs (tree.inputs_of (map tree.input_view all.now))) }
{
    for item in all {
        if let Some(span) = in_input(wanted, item) {
            return Some(span);
        }
    }
    None
}

#[cycle(places)]
fn in_input(wanted: Wanted, input: &FnArg<'_>) -> Option<Span>
    ensures { result ≡ first_place wanted (names.in_input (tree.input_view input.now)) }
{
    in_type(wanted, &input.ty)
}

/// In bounds.
#[cycle(places)]
pub fn in_bounds(wanted: Wanted, all: &[Bound<'_>]) -> Option<Span>
    ensures { result ≡ first_place wanted (names.in_bounds (tree.bounds_of (map tree.bound_view all.now))) }
{
    for item in all {
        if let Some(span) = in_bound(wanted, item) {
            return Some(span);
        }
    }
    None
}

#[cycle(places)]
fn in_bound(wanted: Wanted, bound: &Bound<'_>) -> Option<Span>
    ensures { result ≡ first_place wanted (names.in_bound (tree.bound_view bound.now)) }
{
    match bound {
        Bound::Lifetime(_) => None,
        Bound::Trait(bound) => in_trait(wanted, bound),
    }
}

#[cycle(places)]
fn in_trait(wanted: Wanted, bound: &TraitBound<'_>) -> Option<Span>
    ensures { result ≡ first_place wanted (names.in_trait (tree.trait_view bound.now)) }
{
    in_for(wanted, &bound.lifetimes).or(in_path(wanted, &bound.path))
}

#[cycle(places)]
fn in_path(wanted: Wanted, path: &Path<'_>) -> Option<Span>
    ensures { result ≡ first_place wanted (names.in_path (tree.path_view path.now)) }
{
    in_segments(wanted, path.segments.as_slice())
}

#[cycle(places)]
fn in_segments(wanted: Wanted, all: &[PathSegment<'_>]) -> Option<Span>
    ensures { result ≡ first_place wanted (names.in_segments (tree.segments_of (map tree.segment_view all.now))) }
{
    for item in all {
        if let Some(span) = in_segment(wanted, item) {
            return Some(span);
        }
    }
    None
}

#[cycle(places)]
fn in_segment(wanted: Wanted, segment: &PathSegment<'_>) -> Option<Span>
    ensures { result ≡ first_place wanted (names.in_segment (tree.segment_view segment.now)) }
{
    in_segment_arguments(wanted, &segment.arguments)
}

#[cycle(places)]
fn in_segment_arguments(wanted: Wanted, arguments: &PathArguments<'_>) -> Option<Span>
    ensures { result ≡ first_place wanted (names.in_segment_arguments (tree.arguments_view arguments.now)) }
{
    match arguments {
        PathArguments::Absent => None,
        PathArguments::Angle(_, all) => in_arguments(wanted, all.items.as_slice()),
        PathArguments::Paren(all, output) => {
            let types = in_types(wanted, all.items.as_slice());
            match output {
                None => types,
                Some(ty) => types.or(in_type(wanted, ty)),
            }
        }
    }
}

#[cycle(places)]
fn in_arguments(wanted: Wanted, all: &[GenericArgument<'_>]) -> Option<Span>
    ensures { result ≡ first_place wanted (names.in_arguments (tree.arguments_of (map tree.argument_view all.now))) }
{
    for item in all {
        if let Some(span) = in_argument(wanted, item) {
            return Some(span);
        }
    }
    None
}

#[cycle(places)]
fn in_argument(wanted: Wanted, argument: &GenericArgument<'_>) -> Option<Span>
    ensures { result ≡ first_place wanted (names.in_argument (tree.argument_view argument.now)) }
{
    match argument {
        GenericArgument::Lifetime(_) => None,
        GenericArgument::Ty(ty) => in_type(wanted, ty),
        GenericArgument::Const(_) => None,
        GenericArgument::AssocTy(_, arguments, ty) => match arguments {
            None => in_type(wanted, ty),
            Some(all) => in_arguments(wanted, all.items.as_slice()).or(in_type(wanted, ty)),
        },
        GenericArgument::AssocConst(_, arguments, _) => match arguments {
            None => None,
            Some(all) => in_arguments(wanted, all.items.as_slice()),
        },
        GenericArgument::Constraint(_, arguments, bounds) => {
            let bounded = in_bounds(wanted, bounds.items.as_slice());
            match arguments {
                None => bounded,
                Some(all) => in_arguments(wanted, all.items.as_slice()).or(bounded),
            }
        }
    }
}

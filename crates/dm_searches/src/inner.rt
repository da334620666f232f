//! The type that a path type wraps.
#![tactic(auto, using(crate::proofs::Segments::last_steps))]

ghost use Rattle.std.specs.Prelude.{◌≡◌, map, is_some};
ghost use Rattle.std.specs.Option.{option_map};
ghost use Rattle.dm_ast.specs.Tree as tree;
ghost use Rattle.dm_searches.specs.Inner as spec;

use dm_ast::{GenericArgument, Path, PathArguments, PathSegment, Ty, TyNode};

fn type_in<'x, 'a>(argument: &'x GenericArgument<'a>) -> Option<&'x Ty<'a>>
    ensures { option_map (λ r. tree.ty_view r.now) result ≡ spec.type_in (tree.argument_view argument.now) }
{
    match argument {
        GenericArgument::Lifetime(_) => None,
        GenericArgument::Ty(ty) => Some(ty),
        GenericArgument::Const(_) => None,
        GenericArgument::AssocTy(_, _, _) => None,
        GenericArgument::AssocConst(_, _, _) => None,
        GenericArgument::Constraint(_, _, _) => None,
    }
}

fn first_type<'x, 'a>(all: &'x [GenericArgument<'a>]) -> Option<&'x Ty<'a>>
    ensures { option_map (λ r. tree.ty_view r.now) result ≡ spec.first_type (tree.arguments_of (map tree.argument_view all.now)) }
{
    match all {
        [] => None,
        [first, ..] => type_in(first),
    }
}

fn wrapped<'x, 'a>(arguments: &'x PathArguments<'a>) -> Option<&'x Ty<'a>>
    ensures { option_map (λ r. tree.ty_view r.now) result ≡ spec.wrapped (tree.arguments_view arguments.now) }
{
    match arguments {
        PathArguments::Absent => None,
        PathArguments::Angle(_, all) => first_type(all.items.as_slice()),
        PathArguments::Paren(_, _) => None,
    }
}

/// What a segment wraps, if it is named `Option` or `any_name` counts.
fn segment_inner<'x, 'a>(segment: &'x PathSegment<'a>, any_name: bool) -> Option<&'x Ty<'a>>
    ensures { option_map (λ r. tree.ty_view r.now) result ≡ spec.segment_inner any_name (tree.segment_view segment.now) }
{
    if any_name || segment.ident.name.as_str() == "Option" {
        wrapped(&segment.arguments)
    } else {
        None
    }
}

/// What the last segment wraps, by `segment_inner`.
fn last_inner<'x, 'a>(all: &'x [PathSegment<'a>], any_name: bool) -> Option<&'x Ty<'a>>
    ensures { option_map (λ r. tree.ty_view r.now) result ≡ spec.last_inner any_name (tree.segments_of (map tree.segment_view all.now)) }
{
    match all.split_last() {
        None => None,
        Some((last, _)) => segment_inner(last, any_name),
    }
}

/// What a path type wraps; in parentheses only what an `Option` wraps.
fn node_inner<'x, 'a>(node: &'x TyNode<'a>, any_name: bool) -> Option<&'x Ty<'a>>
    ensures { option_map (λ r. tree.ty_view r.now) result ≡ spec.node_inner any_name (tree.node_view node.now) }
{
    match node {
        TyNode::Paren(inner) => node_inner(&inner.node, false),
        TyNode::Path(_, path) => last_inner(path.segments.as_slice(), any_name),
        TyNode::Tuple(_)
        | TyNode::Slice(_)
        | TyNode::Array(_, _)
        | TyNode::Reference(_, _, _)
        | TyNode::Pointer(_, _) => None,
        TyNode::BareFn(_) | TyNode::TraitObject(_) | TyNode::ImplTrait(_) => None,
        TyNode::Infer | TyNode::Never | TyNode::Macro(_, _, _) => None,
    }
}

/// Whether the type is an `Option`, as far as its text says: `get_option_inner` gives a type.
pub fn is_option(ty: &Ty<'_>) -> bool
    ensures { result ≡ is_some (spec.option_inner (tree.ty_view ty.now)) }
{
    get_option_inner(ty).is_some()
}

/// The `T` of `Option<T>`: the first argument of a path type's last segment, where that is named `Option` and the argument is a type.
/// A type in parentheses gives what the type inside gives.
pub fn get_option_inner<'x, 'a>(ty: &'x Ty<'a>) -> Option<&'x Ty<'a>>
    ensures { option_map (λ r. tree.ty_view r.now) result ≡ spec.option_inner (tree.ty_view ty.now) }
{
    node_inner(&ty.node, false)
}

/// The `T` of `Name<T>`, with any name: the first argument of a path type's last segment, where it is a type. A type in parentheses
/// gives what `get_option_inner` gives for the type inside.
pub fn get_inner<'x, 'a>(ty: &'x Ty<'a>) -> Option<&'x Ty<'a>>
    ensures { option_map (λ r. tree.ty_view r.now) result ≡ spec.inner (tree.ty_view ty.now) }
{
    node_inner(&ty.node, true)
}

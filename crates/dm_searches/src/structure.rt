//! Types that stand inside others.
#![tactic(auto, using(dm_ast::proofs::View::view_steps))]

ghost use Rattle.std.specs.Prelude.{◌≡◌, map};
ghost use Rattle.dm_ast.specs.Tree.{
  types_of,
  segments_of,
  arguments_of,
  ty_view,
  node_view,
  path_view,
  segment_view,
  arguments_view,
  argument_view,
};
ghost use Rattle.dm_searches.specs.Inside as spec;

use dm_ast::{GenericArgument, Path, PathArguments, PathSegment, Ty, TyNode};
use dm_same::same_type;

/// Whether a type is `needle`, by the tokens that both are spelled with, or `needle` stands in it so: as the element of parentheses, of an
/// array, a slice, a reference or a pointer, in a part of a tuple, or in a type between the `<` and `>` of a path. Nothing else counts:
/// not the inputs and the output of a function type, nor the bounds of a `dyn` or an `impl`.
#[cycle(structure)]
pub fn contains_type_structurally(ty: &Ty<'_>, needle: &Ty<'_>) -> bool
    ensures { result ≡ spec.inside (ty_view needle.now) (ty_view ty.now) }
{
    same_type(ty, needle) || in_node(&ty.node, needle)
}

#[cycle(structure)]
fn in_node(node: &TyNode<'_>, needle: &Ty<'_>) -> bool
    ensures { result ≡ spec.in_node (ty_view needle.now) (node_view node.now) }
{
    match node {
        TyNode::Paren(inner) => contains_type_structurally(inner, needle),
        TyNode::Tuple(all) => in_types(all.items.as_slice(), needle),
        TyNode::Slice(inner) => contains_type_structurally(inner, needle),
        TyNode::Array(inner, _) => contains_type_structurally(inner, needle),
        TyNode::Reference(_, _, inner) => contains_type_structurally(inner, needle),
        TyNode::Pointer(_, inner) => contains_type_structurally(inner, needle),
        TyNode::BareFn(_) => false,
        TyNode::TraitObject(_) => false,
        TyNode::ImplTrait(_) => false,
        TyNode::Infer => false,
        TyNode::Never => false,
        TyNode::Path(_, path) => in_path(path, needle),
        TyNode::Macro(_, _, _) => false,
    }
}

#[cycle(structure)]
fn in_types(all: &[Ty<'_>], needle: &Ty<'_>) -> bool
    ensures { result ≡ spec.in_types (ty_view needle.now) (types_of (map ty_view all.now)) }
{
    for item in all {
        if contains_type_structurally(item, needle) {
            return true;
        }
    }
    false
}

#[cycle(structure)]
fn in_path(path: &Path<'_>, needle: &Ty<'_>) -> bool
    ensures { result ≡ spec.in_path (ty_view needle.now) (path_view path.now) }
{
    in_segments(path.segments.as_slice(), needle)
}

#[cycle(structure)]
fn in_segments(all: &[PathSegment<'_>], needle: &Ty<'_>) -> bool
    ensures { result ≡ spec.in_segments (ty_view needle.now) (segments_of (map segment_view all.now)) }
{
    for item in all {
        if in_segment(item, needle) {
            return true;
        }
    }
    false
}

#[cycle(structure)]
fn in_segment(segment: &PathSegment<'_>, needle: &Ty<'_>) -> bool
    ensures { result ≡ spec.in_segment (ty_view needle.now) (segment_view segment.now) }
{
    in_segment_arguments(&segment.arguments, needle)
}

#[cycle(structure)]
fn in_segment_arguments(arguments: &PathArguments<'_>, needle: &Ty<'_>) -> bool
    ensures { result ≡ spec.in_segment_arguments (ty_view needle.now) (arguments_view arguments.now) }
{
    match arguments {
        PathArguments::Absent => false,
        PathArguments::Angle(_, all) => in_arguments(all.items.as_slice(), needle),
        PathArguments::Paren(_, _) => false,
    }
}

#[cycle(structure)]
fn in_arguments(all: &[GenericArgument<'_>], needle: &Ty<'_>) -> bool
    ensures { result ≡ spec.in_arguments (ty_view needle.now) (arguments_of (map argument_view all.now)) }
{
    for item in all {
        if in_argument(item, needle) {
            return true;
        }
    }
    false
}

#[cycle(structure)]
fn in_argument(argument: &GenericArgument<'_>, needle: &Ty<'_>) -> bool
    ensures { result ≡ spec.in_argument (ty_view needle.now) (argument_view argument.now) }
{
    match argument {
        GenericArgument::Lifetime(_) => false,
        GenericArgument::Ty(ty) => contains_type_structurally(ty, needle),
        GenericArgument::Const(_) => false,
        GenericArgument::AssocTy(_, _, _) => false,
        GenericArgument::AssocConst(_, _, _) => false,
        GenericArgument::Constraint(_, _, _) => false,
    }
}

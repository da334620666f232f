//! Names used in path types.
#![tactic(auto, using(dm_ast::proofs::View::view_steps))]

ghost use Rattle.std.specs.Prelude.{◌≡◌, map};
ghost use Rattle.std.specs.Option.{option_map};
ghost use Rattle.dm_ast.specs.Tree as tree;
ghost use Rattle.dm_searches.specs.Uses as spec;

use crate::holds::{Holds, any_holds};
use dm_ast::{GenericArgument, Path, PathArguments, PathSegment, QSelf, Ty, TyNode};
use dm_stream::{Ident, Text};
use indexmap::IndexSet;

fn is_key<'a>(ident: &Ident<'a>, params: &IndexSet<Text<'a>>) -> bool
    ensures { result ≡ spec.is_key params.now.keys ident.now }
{
    params.contains(&ident.name)
}

/// Whether the first name of a path is one of these.
fn is_first<'a>(all: &[PathSegment<'a>], params: &IndexSet<Text<'a>>) -> bool
    ensures { result ≡ spec.is_first params.now.keys (tree.segments_of (map tree.segment_view all.now)) }
{
    match all {
        [] => false,
        [first, ..] => is_key(&first.ident, params),
    }
}

/// Whether a type parameter is used in a type, compared without `r#`.
///
/// In a path type these count: the name of the first segment, with arguments or without; the qualified self and each type argument,
/// where a parameter is used in these; and the name of a constraint, as `Item` in `Item: Copy`. In a reference its element counts.
/// No other type uses one.
pub fn is_type_parameter_used_in_type<'a>(params: &IndexSet<Text<'a>>, ty: &Ty<'a>) -> bool
    ensures { result ≡ spec.uses params.now.keys (tree.ty_view ty.now) }
{
    in_type(ty, params)
}

/// The type, without one outer reference, where `is_type_parameter_used_in_type` says that a parameter is used in it.
pub fn get_if_type_parameter_used_in_type<'x, 'a>(
    params: &IndexSet<Text<'a>>,
    ty: &'x Ty<'a>,
) -> Option<&'x Ty<'a>>
    ensures { option_map (λ r. tree.ty_view r.now) result ≡ spec.used_type params.now.keys (tree.ty_view ty.now) }
{
    if in_type(ty, params) {
        Some(behind_reference(ty))
    } else {
        None
    }
}

fn behind_reference<'x, 'a>(ty: &'x Ty<'a>) -> &'x Ty<'a>
    ensures { tree.ty_view result.now ≡ spec.behind_reference (tree.ty_view ty.now) }
{
    match &ty.node {
        TyNode::Reference(_, _, inner) => inner,
        TyNode::Paren(_) => ty,
        TyNode::Tuple(_) => ty,
        TyNode::Slice(_) => ty,
        TyNode::Array(_, _) => ty,
        TyNode::Pointer(_, _) => ty,
        TyNode::BareFn(_) => ty,
        TyNode::TraitObject(_) => ty,
        TyNode::ImplTrait(_) => ty,
        TyNode::Infer => ty,
        TyNode::Never => ty,
        TyNode::Path(_, _) => ty,
        TyNode::Macro(_, _, _) => ty,
    }
}

#[cycle(uses)]
fn in_type<'a>(ty: &Ty<'a>, params: &IndexSet<Text<'a>>) -> bool
    ensures { result ≡ spec.uses params.now.keys (tree.ty_view ty.now) }
{
    match &ty.node {
        TyNode::Reference(_, _, inner) => in_type(inner, params),
        TyNode::Path(qself, path) => match qself {
            None => in_path(path, params),
            Some(qself) => in_self(qself, params) || in_path(path, params),
        },
        TyNode::Paren(_) => false,
        TyNode::Tuple(_) => false,
        TyNode::Slice(_) => false,
        TyNode::Array(_, _) => false,
        TyNode::Pointer(_, _) => false,
        TyNode::BareFn(_) => false,
        TyNode::TraitObject(_) => false,
        TyNode::ImplTrait(_) => false,
        TyNode::Infer => false,
        TyNode::Never => false,
        TyNode::Macro(_, _, _) => false,
    }
}

#[cycle(uses)]
fn in_self<'a>(qself: &QSelf<'a>, params: &IndexSet<Text<'a>>) -> bool
    ensures { result ≡ spec.uses params.now.keys (tree.ty_view qself.now.ty) }
{
    in_type(&qself.ty, params)
}

#[cycle(uses)]
fn in_path<'a>(path: &Path<'a>, params: &IndexSet<Text<'a>>) -> bool
    ensures { result ≡ spec.in_path params.now.keys (tree.path_view path.now) }
{
    is_first(path.segments.as_slice(), params) || any_holds(&path.segments, params)
}

impl<'p, 'a> Holds<&'p IndexSet<Text<'a>>> for PathSegment<'a> {
    ghost held = { λ params s. spec.in_segment params.now.keys (tree.segment_view s) };

    #[cycle(uses)]
    fn holds(&self, params: &'p IndexSet<Text<'a>>) -> bool {
        match &self.arguments {
            PathArguments::Absent => false,
            PathArguments::Angle(_, all) => any_holds(&all.items, params),
            PathArguments::Paren(_, _) => false,
        }
    }
}

impl<'p, 'a> Holds<&'p IndexSet<Text<'a>>> for GenericArgument<'a> {
    ghost held = { λ params a. spec.in_argument params.now.keys (tree.argument_view a) };

    #[cycle(uses)]
    fn holds(&self, params: &'p IndexSet<Text<'a>>) -> bool {
        match self {
            GenericArgument::Lifetime(_) => false,
            GenericArgument::Ty(ty) => in_type(ty, params),
            GenericArgument::Const(_) => false,
            GenericArgument::AssocTy(_, _, _) => false,
            GenericArgument::AssocConst(_, _, _) => false,
            GenericArgument::Constraint(name, _, _) => is_key(name, params),
        }
    }
}

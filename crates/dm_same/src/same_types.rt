//! Whether two types are spelled alike.
#![tactic(auto, using(crate::proofs::Comparing::alike_steps))]

ghost use Rattle.std.specs.Prelude.{◌≡◌, map, ◌&&◌, nat_eq};
ghost use Rattle.dm_ast.specs.Tree.{
  ty_view,
  node_view,
  bound_view,
  trait_view,
  fn_view,
  input_view,
  path_view,
  segment_view,
  arguments_view,
  argument_view,
  types_of,
  bounds_of,
  inputs_of,
  segments_of,
  arguments_of,
  paren,
  tuple,
  slice,
  array,
  reference,
  pointer,
  bare_fn,
  trait_object,
  impl_trait,
  macro_type,
};
ghost use Rattle.dm_same.specs.Shapes.{shape_view, given_view, same_binding};
ghost use Rattle.dm_same.specs.SameTypes as same;

use crate::alike::{Alike, all_alike, flags_alike, options_alike};
use dm_ast::{
    BareFn, Bound, ConstArg, FnArg, GenericArgument, Opaque, Path, PathArguments, PathSegment,
    PlainPath, QSelf, TraitBound, Ty, TyNode,
};
use dm_stream::{Delim, Ident, Lifetime, Punctuated, TokenStream};

/// What a type is, with its parts lent.
#[derive(Clone, Copy)]
enum Shape<'x, 'a> {
    Paren(&'x Ty<'a>),
    Tuple(&'x Punctuated<Ty<'a>>),
    Slice(&'x Ty<'a>),
    Array(&'x Ty<'a>, &'x Opaque<'a>),
    Reference(&'x Option<Lifetime<'a>>, bool, &'x Ty<'a>),
    Pointer(bool, &'x Ty<'a>),
    BareFn(&'x BareFn<'a>),
    TraitObject(&'x Punctuated<Bound<'a>>),
    ImplTrait(&'x Punctuated<Bound<'a>>),
    Infer,
    Never,
    Path(&'x Path<'a>),
    Qualified(&'x QSelf<'a>, &'x Path<'a>),
    Macro(&'x PlainPath<'a>, Delim, &'x TokenStream<'a>),
}

fn shape_of<'x, 'a>(node: &'x TyNode<'a>) -> Shape<'x, 'a>
    ensures { shape_view result ≡ node_view node.now }
{
    match node {
        TyNode::Paren(inner) => Shape::Paren(inner),
        TyNode::Tuple(all) => Shape::Tuple(all),
        TyNode::Slice(inner) => Shape::Slice(inner),
        TyNode::Array(inner, size) => Shape::Array(inner, size),
        TyNode::Reference(name, is_mut, inner) => Shape::Reference(name, *is_mut, inner),
        TyNode::Pointer(is_mut, inner) => Shape::Pointer(*is_mut, inner),
        TyNode::BareFn(function) => Shape::BareFn(function),
        TyNode::TraitObject(all) => Shape::TraitObject(all),
        TyNode::ImplTrait(all) => Shape::ImplTrait(all),
        TyNode::Infer => Shape::Infer,
        TyNode::Never => Shape::Never,
        TyNode::Path(qself, path) => match qself {
            None => Shape::Path(path),
            Some(qself) => Shape::Qualified(qself, path),
        },
        TyNode::Macro(path, delim, tokens) => Shape::Macro(path, *delim, tokens),
    }
}

/// Whether two types are the same part for part: they have the same tokens, wherever these stand. Spacing counts only between tokens that
/// are not read.
#[cycle(same)]
pub fn same_type(a: &Ty<'_>, b: &Ty<'_>) -> bool
    ensures { result ≡ same.same_type (ty_view a.now) (ty_view b.now) }
{
    node_eq(&a.node, &b.node)
}

#[cycle(same)]
fn node_eq(a: &TyNode<'_>, b: &TyNode<'_>) -> bool
    ensures { result ≡ same.same_node (node_view a.now) (node_view b.now) }
{
    let other = shape_of(b);
    match a {
        TyNode::Paren(inner) => paren_eq(inner, other),
        TyNode::Tuple(all) => tuple_eq(all.items.as_slice(), all.trailing, other),
        TyNode::Slice(inner) => slice_eq(inner, other),
        TyNode::Array(inner, size) => array_eq(inner, size, other),
        TyNode::Reference(name, is_mut, inner) => reference_eq(name, *is_mut, inner, other),
        TyNode::Pointer(is_mut, inner) => pointer_eq(*is_mut, inner, other),
        TyNode::BareFn(function) => function_eq(function, other),
        TyNode::TraitObject(all) => object_eq(all.items.as_slice(), all.trailing, other),
        TyNode::ImplTrait(all) => implied_eq(all.items.as_slice(), all.trailing, other),
        TyNode::Infer => matches!(other, Shape::Infer),
        TyNode::Never => matches!(other, Shape::Never),
        TyNode::Path(qself, path) => match qself {
            None => match other {
                Shape::Path(found) => path_eq(path, found),
                _ => false,
            },
            Some(qself) => match other {
                Shape::Qualified(of, found) => self_eq(qself, of) && path_eq(path, found),
                _ => false,
            },
        },
        TyNode::Macro(path, delim, tokens) => macro_eq(path, *delim, tokens, other),
    }
}

#[cycle(same)]
fn paren_eq(inner: &Ty<'_>, other: Shape<'_, '_>) -> bool
    ensures { result ≡ same.same_node (paren (ty_view inner.now)) (shape_view other.entry) }
{
    match other {
        Shape::Paren(found) => same_type(inner, found),
        _ => false,
    }
}

#[cycle(same)]
fn tuple_eq(all: &[Ty<'_>], trailing: bool, other: Shape<'_, '_>) -> bool
    ensures { result ≡ same.same_node (tuple (types_of (map ty_view all.now)) trailing) (shape_view other.entry) }
{
    match other {
        Shape::Tuple(found) => {
            types_eq(all, found.items.as_slice()) && flags_alike(trailing, found.trailing)
        }
        _ => false,
    }
}

#[cycle(same)]
fn slice_eq(inner: &Ty<'_>, other: Shape<'_, '_>) -> bool
    ensures { result ≡ same.same_node (slice (ty_view inner.now)) (shape_view other.entry) }
{
    match other {
        Shape::Slice(found) => same_type(inner, found),
        _ => false,
    }
}

#[cycle(same)]
fn array_eq(inner: &Ty<'_>, size: &Opaque<'_>, other: Shape<'_, '_>) -> bool
    ensures { result ≡ same.same_node (array (ty_view inner.now) size.now) (shape_view other.entry) }
{
    match other {
        Shape::Array(found, length) => same_type(inner, found) && size.tokens.alike(&length.tokens),
        _ => false,
    }
}

#[cycle(same)]
fn reference_eq(
    name: &Option<Lifetime<'_>>,
    is_mut: bool,
    inner: &Ty<'_>,
    other: Shape<'_, '_>,
) -> bool
    ensures { result ≡ same.same_node (reference name.now is_mut (ty_view inner.now)) (shape_view other.entry) }
{
    match other {
        Shape::Reference(label, mutable, found) => {
            options_alike(name, label) && flags_alike(is_mut, mutable) && same_type(inner, found)
        }
        _ => false,
    }
}

#[cycle(same)]
fn pointer_eq(is_mut: bool, inner: &Ty<'_>, other: Shape<'_, '_>) -> bool
    ensures { result ≡ same.same_node (pointer is_mut (ty_view inner.now)) (shape_view other.entry) }
{
    match other {
        Shape::Pointer(mutable, found) => flags_alike(is_mut, mutable) && same_type(inner, found),
        _ => false,
    }
}

#[cycle(same)]
fn function_eq(function: &BareFn<'_>, other: Shape<'_, '_>) -> bool
    ensures { result ≡ same.same_node (bare_fn (fn_view function.now)) (shape_view other.entry) }
{
    match other {
        Shape::BareFn(found) => fn_eq(function, found),
        _ => false,
    }
}

#[cycle(same)]
fn object_eq(all: &[Bound<'_>], trailing: bool, other: Shape<'_, '_>) -> bool
    ensures { result ≡ same.same_node (trait_object (bounds_of (map bound_view all.now)) trailing) (shape_view other.entry) }
{
    match other {
        Shape::TraitObject(found) => {
            bounds_eq(all, found.items.as_slice()) && flags_alike(trailing, found.trailing)
        }
        _ => false,
    }
}

#[cycle(same)]
fn implied_eq(all: &[Bound<'_>], trailing: bool, other: Shape<'_, '_>) -> bool
    ensures { result ≡ same.same_node (impl_trait (bounds_of (map bound_view all.now)) trailing) (shape_view other.entry) }
{
    match other {
        Shape::ImplTrait(found) => {
            bounds_eq(all, found.items.as_slice()) && flags_alike(trailing, found.trailing)
        }
        _ => false,
    }
}

fn macro_eq(
    path: &PlainPath<'_>,
    delim: Delim,
    tokens: &TokenStream<'_>,
    other: Shape<'_, '_>,
) -> bool
    ensures { result ≡ same.same_node (macro_type path.now delim tokens.now) (shape_view other.entry) }
{
    match other {
        Shape::Macro(found, around, inside) => {
            path.alike(found) && delim == around && tokens.alike(inside)
        }
        _ => false,
    }
}

#[cycle(same)]
fn types_eq(a: &[Ty<'_>], b: &[Ty<'_>]) -> bool
    ensures { result ≡ same.all_same (λ x y. same.same_type (ty_view x) (ty_view y)) a.now b.now }
{
    if a.len() != b.len() {
        return false;
    }
    for (i, item) in a.iter().enumerate() {
        if !same_type(item, &b[i]) {
            return false;
        }
    }
    true
}

#[cycle(same)]
fn self_eq(a: &QSelf<'_>, b: &QSelf<'_>) -> bool
    ensures { result ≡ (same.same_type (ty_view a.now.ty) (ty_view b.now.ty) && nat_eq a.now.position b.now.position) }
{
    same_type(&a.ty, &b.ty) && a.position == b.position
}

#[cycle(same)]
fn bounds_eq(a: &[Bound<'_>], b: &[Bound<'_>]) -> bool
    ensures { result ≡ same.all_same (λ x y. same.same_bound (bound_view x) (bound_view y)) a.now b.now }
{
    if a.len() != b.len() {
        return false;
    }
    for (i, item) in a.iter().enumerate() {
        if !bound_eq(item, &b[i]) {
            return false;
        }
    }
    true
}

#[cycle(same)]
fn some_bounds_eq(all: &[Bound<'_>], trailing: bool, other: &Punctuated<Bound<'_>>) -> bool
    ensures { result ≡ (same.same_bounds (bounds_of (map bound_view all.now)) (bounds_of (map bound_view other.now.items)) && same.same_flag trailing other.now.trailing) }
{
    bounds_eq(all, other.items.as_slice()) && flags_alike(trailing, other.trailing)
}

#[cycle(same)]
fn bound_eq(a: &Bound<'_>, b: &Bound<'_>) -> bool
    ensures { result ≡ same.same_bound (bound_view a.now) (bound_view b.now) }
{
    match a {
        Bound::Lifetime(x) => match b {
            Bound::Lifetime(y) => x.alike(y),
            Bound::Trait(_) => false,
        },
        Bound::Trait(x) => match b {
            Bound::Lifetime(_) => false,
            Bound::Trait(y) => trait_bound_eq(x, y),
        },
    }
}

#[cycle(same)]
fn trait_bound_eq(a: &TraitBound<'_>, b: &TraitBound<'_>) -> bool
    ensures { result ≡ same.same_trait_bound (trait_view a.now) (trait_view b.now) }
{
    flags_alike(a.parens, b.parens)
        && flags_alike(a.maybe, b.maybe)
        && options_alike(&a.lifetimes, &b.lifetimes)
        && path_eq(&a.path, &b.path)
}

#[cycle(same)]
fn fn_eq(a: &BareFn<'_>, b: &BareFn<'_>) -> bool
    ensures { result ≡ same.same_fn (fn_view a.now) (fn_view b.now) }
{
    let inputs_same = options_alike(&a.lifetimes, &b.lifetimes)
        && flags_alike(a.is_unsafe, b.is_unsafe)
        && options_alike(&a.abi, &b.abi)
        && inputs_eq(a.inputs.items.as_slice(), b.inputs.items.as_slice())
        && flags_alike(a.inputs.trailing, b.inputs.trailing);
    match (&a.output, &b.output) {
        (None, None) => inputs_same,
        (Some(x), Some(y)) => inputs_same && same_type(x, y),
        (None, Some(_)) => false,
        (Some(_), None) => false,
    }
}

#[cycle(same)]
fn inputs_eq(a: &[FnArg<'_>], b: &[FnArg<'_>]) -> bool
    ensures { result ≡ same.all_same (λ x y. same.same_input (input_view x) (input_view y)) a.now b.now }
{
    if a.len() != b.len() {
        return false;
    }
    for (i, item) in a.iter().enumerate() {
        if !input_eq(item, &b[i]) {
            return false;
        }
    }
    true
}

#[cycle(same)]
fn input_eq(a: &FnArg<'_>, b: &FnArg<'_>) -> bool
    ensures { result ≡ same.same_input (input_view a.now) (input_view b.now) }
{
    all_alike(a.attrs.as_slice(), b.attrs.as_slice())
        && options_alike(&a.name, &b.name)
        && same_type(&a.ty, &b.ty)
}

#[cycle(same)]
fn path_eq(a: &Path<'_>, b: &Path<'_>) -> bool
    ensures { result ≡ same.same_path (path_view a.now) (path_view b.now) }
{
    flags_alike(a.leading_colon, b.leading_colon)
        && segments_eq(a.segments.as_slice(), b.segments.as_slice())
}

#[cycle(same)]
fn segments_eq(a: &[PathSegment<'_>], b: &[PathSegment<'_>]) -> bool
    ensures { result ≡ same.all_same (λ x y. same.same_segment (segment_view x) (segment_view y)) a.now b.now }
{
    if a.len() != b.len() {
        return false;
    }
    for (i, item) in a.iter().enumerate() {
        if !segment_eq(item, &b[i]) {
            return false;
        }
    }
    true
}

#[cycle(same)]
fn segment_eq(a: &PathSegment<'_>, b: &PathSegment<'_>) -> bool
    ensures { result ≡ same.same_segment (segment_view a.now) (segment_view b.now) }
{
    a.ident.alike(&b.ident) && arguments_of_eq(&a.arguments, &b.arguments)
}

#[cycle(same)]
fn arguments_of_eq(a: &PathArguments<'_>, b: &PathArguments<'_>) -> bool
    ensures { result ≡ same.same_arguments_of (arguments_view a.now) (arguments_view b.now) }
{
    match a {
        PathArguments::Absent => match b {
            PathArguments::Absent => true,
            PathArguments::Angle(_, _) => false,
            PathArguments::Paren(_, _) => false,
        },
        PathArguments::Angle(colons, xs) => match b {
            PathArguments::Absent => false,
            PathArguments::Angle(double, ys) => {
                flags_alike(*colons, *double)
                    && arguments_eq(xs.items.as_slice(), ys.items.as_slice())
                    && flags_alike(xs.trailing, ys.trailing)
            }
            PathArguments::Paren(_, _) => false,
        },
        PathArguments::Paren(xs, output) => match b {
            PathArguments::Absent => false,
            PathArguments::Angle(_, _) => false,
            PathArguments::Paren(ys, found) => {
                let inputs_same = types_eq(xs.items.as_slice(), ys.items.as_slice())
                    && flags_alike(xs.trailing, ys.trailing);
                match (output, found) {
                    (None, None) => inputs_same,
                    (Some(x), Some(y)) => inputs_same && same_type(x, y),
                    (None, Some(_)) => false,
                    (Some(_), None) => false,
                }
            }
        },
    }
}

/// What a generic argument is, with its parts lent.
#[derive(Clone, Copy)]
enum Given<'x, 'a> {
    Lifetime(&'x Lifetime<'a>),
    Ty(&'x Ty<'a>),
    Const(&'x ConstArg<'a>),
    AssocTy(&'x Ident<'a>, &'x Option<Punctuated<GenericArgument<'a>>>, &'x Ty<'a>),
    AssocConst(&'x Ident<'a>, &'x Option<Punctuated<GenericArgument<'a>>>, &'x ConstArg<'a>),
    Constraint(
        &'x Ident<'a>,
        &'x Option<Punctuated<GenericArgument<'a>>>,
        &'x Punctuated<Bound<'a>>,
    ),
}

fn given_of<'x, 'a>(argument: &'x GenericArgument<'a>) -> Given<'x, 'a>
    ensures { given_view result ≡ argument_view argument.now }
{
    match argument {
        GenericArgument::Lifetime(name) => Given::Lifetime(name),
        GenericArgument::Ty(ty) => Given::Ty(ty),
        GenericArgument::Const(value) => Given::Const(value),
        GenericArgument::AssocTy(label, all, ty) => Given::AssocTy(label, all, ty),
        GenericArgument::AssocConst(label, all, value) => Given::AssocConst(label, all, value),
        GenericArgument::Constraint(label, all, bounds) => Given::Constraint(label, all, bounds),
    }
}

#[cycle(same)]
fn arguments_eq(a: &[GenericArgument<'_>], b: &[GenericArgument<'_>]) -> bool
    ensures { result ≡ same.all_same (λ x y. same.same_argument (argument_view x) (argument_view y)) a.now b.now }
{
    if a.len() != b.len() {
        return false;
    }
    for (i, item) in a.iter().enumerate() {
        if !argument_eq(item, &b[i]) {
            return false;
        }
    }
    true
}

#[cycle(same)]
fn argument_eq(a: &GenericArgument<'_>, b: &GenericArgument<'_>) -> bool
    ensures { result ≡ same.same_argument (argument_view a.now) (argument_view b.now) }
{
    let other = given_of(b);
    match a {
        GenericArgument::Lifetime(x) => match other {
            Given::Lifetime(y) => x.alike(y),
            _ => false,
        },
        GenericArgument::Ty(x) => match other {
            Given::Ty(y) => same_type(x, y),
            _ => false,
        },
        GenericArgument::Const(x) => match other {
            Given::Const(y) => x.alike(y),
            _ => false,
        },
        GenericArgument::AssocTy(_, _, _) => binding_eq(a, other),
        GenericArgument::AssocConst(_, _, _) => binding_eq(a, other),
        GenericArgument::Constraint(_, _, _) => binding_eq(a, other),
    }
}

/// Whether arguments with a name are alike.
#[cycle(same)]
fn binding_eq(a: &GenericArgument<'_>, other: Given<'_, '_>) -> bool
    ensures { result ≡ same_binding (argument_view a.now) (given_view other.entry) }
{
    match a {
        GenericArgument::Lifetime(_) => true,
        GenericArgument::Ty(_) => true,
        GenericArgument::Const(_) => true,
        GenericArgument::AssocTy(label, all, ty) => match other {
            Given::AssocTy(name, found, of) => {
                let same_angles = match (all, found) {
                    (None, None) => true,
                    (Some(xs), Some(ys)) => angle_eq(xs.items.as_slice(), xs.trailing, ys),
                    (None, Some(_)) => false,
                    (Some(_), None) => false,
                };
                label.alike(name) && same_angles && same_type(ty, of)
            }
            _ => false,
        },
        GenericArgument::AssocConst(label, all, value) => match other {
            Given::AssocConst(name, found, of) => {
                let same_angles = match (all, found) {
                    (None, None) => true,
                    (Some(xs), Some(ys)) => angle_eq(xs.items.as_slice(), xs.trailing, ys),
                    (None, Some(_)) => false,
                    (Some(_), None) => false,
                };
                label.alike(name) && same_angles && value.alike(of)
            }
            _ => false,
        },
        GenericArgument::Constraint(label, all, bounds) => match other {
            Given::Constraint(name, found, of) => match (all, found) {
                (None, None) => {
                    label.alike(name)
                        && some_bounds_eq(bounds.items.as_slice(), bounds.trailing, of)
                }
                (Some(xs), Some(ys)) => {
                    label.alike(name)
                        && angle_eq(xs.items.as_slice(), xs.trailing, ys)
                        && some_bounds_eq(bounds.items.as_slice(), bounds.trailing, of)
                }
                (None, Some(_)) => false,
                (Some(_), None) => false,
            },
            _ => false,
        },
    }
}

/// Whether lists between `<` and `>` are alike.
#[cycle(same)]
fn angle_eq(
    all: &[GenericArgument<'_>],
    trailing: bool,
    other: &Punctuated<GenericArgument<'_>>,
) -> bool
    ensures { result ≡ (same.same_arguments (arguments_of (map argument_view all.now)) (arguments_of (map argument_view other.now.items)) && same.same_flag trailing other.now.trailing) }
{
    arguments_eq(all, other.items.as_slice()) && flags_alike(trailing, other.trailing)
}

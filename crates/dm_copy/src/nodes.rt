//! Types and their parts, put together from results of the functions that copy, so that those own nothing. A clause says what the
//! whole is, whatever the parts are. No function here recurses.
#![tactic(auto, using(crate::proofs::Copies::copy_steps))]

ghost use Rattle.std.specs.Prelude.{◌≡◌, ℕ, Ok, IfOk, IsSomeAnd, List, Bool, Option, map, option_map};
ghost use Rattle.dm_ast.specs.declared.plain.Opaque.{Opaque};
ghost use Rattle.dm_ast.specs.declared.plain.ConstArg.{ConstArg};
ghost use Rattle.dm_ast.specs.declared.plain.Attribute.{Attribute};
ghost use Rattle.dm_ast.specs.declared.plain.PlainPath.{PlainPath};
ghost use Rattle.dm_stream.specs.Trees.{Stream};
ghost use Rattle.dm_stream.specs.declared.tokens.Ident.{Ident};
ghost use Rattle.dm_stream.specs.declared.tokens.Lifetime.{Lifetime};
ghost use Rattle.dm_stream.specs.declared.tokens.Literal.{Literal};
ghost use Rattle.dm_ast.specs.Tree as tree;

use crate::clone_in::CloneIn;
use crate::joined::{both, boxed};
use dm_ast::{
    Attribute, BareFn, Bound, ConstArg, FnArg, GenericArgument, Opaque, Path, PathArguments,
    PathSegment, PlainPath, QSelf, TraitBound, Ty, TyNode,
};
use dm_stream::{Delim, Ident, Lifetime, Literal, Made, Punctuated, Seq, Span, TokenStream};
use std::alloc::{AllocError, Global};

pub(crate) fn ty_of<'a>(made: Result<TyNode<'a>, AllocError>, span: Span) -> Made<Ty<'a>>
    ensures { (k : tree.TypeNode) → IfOk made.entry (λ p. tree.node_view p ≡ k) → IfOk result (λ r. tree.ty_view r ≡ tree.type_tree k span) }
{
    match made {
        Ok(node) => Ok(Ty { node, span }),
        Err(error) => Err(error),
    }
}

/// `[T; N]`, with a copy of `N`.
pub(crate) fn array_of<'a>(
    made: Result<Ty<'a>, AllocError>,
    size: &Opaque<'a>,
    alloc: Global,
) -> Made<TyNode<'a>>
    ensures { (x : tree.TypeTree) → IfOk made.entry (λ p. tree.ty_view p ≡ x) → IfOk result (λ r. tree.node_view r ≡ tree.array x size.now) }
{
    match both(boxed(alloc, made), size.clone_in(alloc)) {
        Ok((inner, size)) => Ok(TyNode::Array(inner, size)),
        Err(error) => Err(error),
    }
}

/// `&'a mut T`, with a copy of the lifetime.
pub(crate) fn reference_of<'a>(
    made: Result<Ty<'a>, AllocError>,
    name: &Option<Lifetime<'a>>,
    is_mut: bool,
    alloc: Global,
) -> Made<TyNode<'a>>
    ensures { (x : tree.TypeTree) → IfOk made.entry (λ p. tree.ty_view p ≡ x) → IfOk result (λ r. tree.node_view r ≡ tree.reference name.now is_mut x) }
{
    match both(boxed(alloc, made), name.clone_in(alloc)) {
        Ok((inner, name)) => Ok(TyNode::Reference(name, is_mut, inner)),
        Err(error) => Err(error),
    }
}

/// `A::B`.
pub(crate) fn path_type_of<'a>(made: Result<Path<'a>, AllocError>) -> Made<TyNode<'a>>
    ensures { (x : tree.PathTree) → IfOk made.entry (λ p. tree.path_view p ≡ x) → IfOk result (λ r. tree.node_view r ≡ tree.path tree.no_self x) }
{
    match made {
        Ok(path) => Ok(TyNode::Path(None, path)),
        Err(error) => Err(error),
    }
}

/// The type in `<T as A::B>::C`.
pub(crate) fn qself_of<'a>(made: Result<Ty<'a>, AllocError>, position: usize) -> Made<QSelf<'a>>
    ensures { (x : tree.TypeTree) → IfOk made.entry (λ p. tree.ty_view p ≡ x) → IfOk result (λ r. tree.self_view r ≡ (x, position)) }
{
    match made {
        Ok(ty) => Ok(QSelf { ty, position }),
        Err(error) => Err(error),
    }
}

/// `<T as A::B>::C`.
pub(crate) fn qualified_of<'a>(
    made: Result<(Box<QSelf<'a>>, Path<'a>), AllocError>,
) -> Made<TyNode<'a>>
    ensures { (x : tree.TypeTree × ℕ) → (y : tree.PathTree) → IfOk made.entry (λ p. (tree.self_view p.0.value ≡ x) × (tree.path_view p.1 ≡ y)) → IfOk result (λ r. tree.node_view r ≡ tree.path (tree.some_self x.0 x.1) y) }
{
    match made {
        Ok((qself, path)) => Ok(TyNode::Path(Some(qself), path)),
        Err(error) => Err(error),
    }
}

/// A macro call.
pub(crate) fn macro_of<'a>(
    made: Result<(PlainPath<'a>, TokenStream<'a>), AllocError>,
    delim: Delim,
) -> Made<TyNode<'a>>
    ensures { (m : PlainPath) → (ts : Stream) → IfOk made.entry (λ p. (p.0 ≡ m) × (p.1 ≡ ts)) → IfOk result (λ r. tree.node_view r ≡ tree.macro_type m delim ts) }
{
    match made {
        Ok((path, tokens)) => Ok(TyNode::Macro(path, delim, tokens)),
        Err(error) => Err(error),
    }
}

/// A trait of a bound.
pub(crate) fn trait_of<'a>(
    made: Result<(Path<'a>, Option<Punctuated<Lifetime<'a>>>), AllocError>,
    parens: bool,
    maybe: bool,
) -> Made<TraitBound<'a>>
    ensures { (x : tree.PathTree) → (ls : tree.Lifetimes) → IfOk made.entry (λ p. (tree.path_view p.0 ≡ x) × (p.1 ≡ ls)) → IfOk result (λ r. tree.trait_view r ≡ tree.trait_bound parens maybe ls x) }
{
    match made {
        Ok((path, lifetimes)) => Ok(TraitBound {
            parens,
            maybe,
            lifetimes,
            path,
        }),
        Err(error) => Err(error),
    }
}

/// What was made, as what may be missing.
pub(crate) fn some_of<T: Drop>(made: Result<T, AllocError>) -> Made<Option<T>>
    ensures { IfOk result (λ r. IsSomeAnd r (λ t. made ≡ Ok t)) }
{
    match made {
        Ok(value) => Ok(Some(value)),
        Err(error) => Err(error),
    }
}

/// A function type of its parameters and its output, its lifetimes and its `extern`.
pub(crate) fn fn_of<'a>(
    made: Result<
        (
            (Punctuated<FnArg<'a>>, Option<Ty<'a>>),
            (
                Option<Punctuated<Lifetime<'a>>>,
                Option<Option<Literal<'a>>>,
            ),
        ),
        AllocError,
    >,
    is_unsafe: bool,
) -> Made<BareFn<'a>>
    ensures { (xs : List tree.InputTree) → (trailing : Bool) → (o : Option tree.TypeTree) → (ls : tree.Lifetimes) → (abi : Option (Option Literal)) → IfOk made.entry (λ p. (((map tree.input_view p.0.0.items ≡ xs) × (p.0.0.trailing ≡ trailing)) × (option_map tree.ty_view p.0.1 ≡ o)) × ((p.1.0 ≡ ls) × (p.1.1 ≡ abi))) → IfOk result (λ r. tree.fn_view r ≡ tree.fn_tree ls is_unsafe abi (tree.inputs_of xs) trailing (tree.maybe_type o)) }
{
    match made {
        Ok(((inputs, output), (lifetimes, abi))) => Ok(BareFn {
            lifetimes,
            is_unsafe,
            abi,
            inputs,
            output,
        }),
        Err(error) => Err(error),
    }
}

/// A parameter of a function type.
pub(crate) fn input_of<'a>(
    made: Result<(Ty<'a>, (Seq<Attribute<'a>>, Option<Ident<'a>>)), AllocError>,
) -> Made<FnArg<'a>>
    ensures { (x : tree.TypeTree) → (attrs : List Attribute) → (i : Option Ident) → IfOk made.entry (λ p. (tree.ty_view p.0 ≡ x) × ((p.1.0 ≡ attrs) × (p.1.1 ≡ i))) → IfOk result (λ r. tree.input_view r ≡ tree.input attrs i x) }
{
    match made {
        Ok((ty, (attrs, name))) => Ok(FnArg { attrs, name, ty }),
        Err(error) => Err(error),
    }
}

pub(crate) fn path_of<'a>(
    made: Result<Seq<PathSegment<'a>>, AllocError>,
    leading_colon: bool,
) -> Made<Path<'a>>
    ensures { (ss : List tree.SegmentTree) → IfOk made.entry (λ p. map tree.segment_view p ≡ ss) → IfOk result (λ r. tree.path_view r ≡ tree.path_tree leading_colon (tree.segments_of ss)) }
{
    match made {
        Ok(segments) => Ok(Path {
            leading_colon,
            segments,
        }),
        Err(error) => Err(error),
    }
}

pub(crate) fn segment_of<'a>(
    made: Result<(PathArguments<'a>, Ident<'a>), AllocError>,
) -> Made<PathSegment<'a>>
    ensures { (x : tree.ArgumentsTree) → (i : Ident) → IfOk made.entry (λ p. (tree.arguments_view p.0 ≡ x) × (p.1 ≡ i)) → IfOk result (λ r. tree.segment_view r ≡ tree.segment i x) }
{
    match made {
        Ok((arguments, ident)) => Ok(PathSegment { ident, arguments }),
        Err(error) => Err(error),
    }
}

/// `(A, B) -> C`.
pub(crate) fn parens_of<'a>(
    made: Result<(Punctuated<Ty<'a>>, Option<Box<Ty<'a>>>), AllocError>,
) -> Made<PathArguments<'a>>
    ensures { (xs : List tree.TypeTree) → (trailing : Bool) → (o : tree.MaybeType) → IfOk made.entry (λ p. ((map tree.ty_view p.0.items ≡ xs) × (p.0.trailing ≡ trailing)) × (tree.maybe_ty_view p.1 ≡ o)) → IfOk result (λ r. tree.arguments_view r ≡ tree.parens (tree.types_of xs) trailing o) }
{
    match made {
        Ok((all, output)) => Ok(PathArguments::Paren(all, output)),
        Err(error) => Err(error),
    }
}

pub(crate) fn type_argument_of<'a>(made: Result<Ty<'a>, AllocError>) -> Made<GenericArgument<'a>>
    ensures { (x : tree.TypeTree) → IfOk made.entry (λ p. tree.ty_view p ≡ x) → IfOk result (λ r. tree.argument_view r ≡ tree.type_arg x) }
{
    match made {
        Ok(ty) => Ok(GenericArgument::Ty(ty)),
        Err(error) => Err(error),
    }
}

/// `Name = T`.
pub(crate) fn assoc_ty_of<'a>(
    made: Result<((Ident<'a>, Ty<'a>), Option<Punctuated<GenericArgument<'a>>>), AllocError>,
) -> Made<GenericArgument<'a>>
    ensures { (x : tree.TypeTree) → (i : Ident) → (gs : tree.MaybeArguments) → IfOk made.entry (λ p. ((p.0.0 ≡ i) × (tree.ty_view p.0.1 ≡ x)) × (tree.maybe_arguments_view p.1 ≡ gs)) → IfOk result (λ r. tree.argument_view r ≡ tree.assoc_type i gs x) }
{
    match made {
        Ok(((label, ty), arguments)) => Ok(GenericArgument::AssocTy(label, arguments, ty)),
        Err(error) => Err(error),
    }
}

/// `Name = V`.
pub(crate) fn assoc_const_of<'a>(
    made: Result<
        (
            (Ident<'a>, ConstArg<'a>),
            Option<Punctuated<GenericArgument<'a>>>,
        ),
        AllocError,
    >,
) -> Made<GenericArgument<'a>>
    ensures { (c : ConstArg) → (i : Ident) → (gs : tree.MaybeArguments) → IfOk made.entry (λ p. ((p.0.0 ≡ i) × (p.0.1 ≡ c)) × (tree.maybe_arguments_view p.1 ≡ gs)) → IfOk result (λ r. tree.argument_view r ≡ tree.assoc_const i gs c) }
{
    match made {
        Ok(((label, value), arguments)) => Ok(GenericArgument::AssocConst(label, arguments, value)),
        Err(error) => Err(error),
    }
}

/// `Name: A + B`.
pub(crate) fn constraint_of<'a>(
    made: Result<
        (
            (Ident<'a>, Punctuated<Bound<'a>>),
            Option<Punctuated<GenericArgument<'a>>>,
        ),
        AllocError,
    >,
) -> Made<GenericArgument<'a>>
    ensures { (xs : List tree.BoundTree) → (trailing : Bool) → (i : Ident) → (gs : tree.MaybeArguments) → IfOk made.entry (λ p. ((p.0.0 ≡ i) × ((map tree.bound_view p.0.1.items ≡ xs) × (p.0.1.trailing ≡ trailing))) × (tree.maybe_arguments_view p.1 ≡ gs)) → IfOk result (λ r. tree.argument_view r ≡ tree.constraint i gs (tree.bounds_of xs) trailing) }
{
    match made {
        Ok(((label, bounds), arguments)) => Ok(GenericArgument::Constraint(
            label, arguments, bounds,
        )),
        Err(error) => Err(error),
    }
}

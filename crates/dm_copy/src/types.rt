//! Types, copied with what stands for `Self` in place of each segment `Self`.
#![tactic(auto)]

ghost use Rattle.std.specs.Prelude.{◌≡◌, IfOk, map, option_copied, option_map};
ghost use Rattle.dm_ast.specs.Tree as tree;
ghost use Rattle.dm_copy.specs.Segments.{own_segment};
ghost use Rattle.dm_copy.specs.Replaced as spec;

use crate::clone_in::CloneIn;
use crate::joined::{both, boxed, grown};
use crate::nodes::{
    array_of, assoc_const_of, assoc_ty_of, constraint_of, fn_of, input_of, macro_of, parens_of,
    path_of, path_type_of, qself_of, qualified_of, reference_of, segment_of, some_of, trait_of,
    ty_of, type_argument_of,
};
use crate::self_type::{SelfType, self_segment};
use dm_ast::{
    BareFn, Bound, FnArg, GenericArgument, Path, PathArguments, PathSegment, QSelf, Ty, TyNode,
};
use dm_stream::{Ident, Made, Punctuated, Seq};
use std::alloc::Global;

/// Whether an identifier is the keyword `Self`.
fn is_self(ident: &Ident<'_>) -> bool
    ensures { result ≡ spec.is_self ident.now }
{
    !ident.raw && ident.name.as_str() == "Self"
}

/// What stands for an identifier, where it is the keyword `Self`.
fn standing<'x>(ident: &Ident<'_>, own: Option<&'x SelfType>) -> Option<&'x SelfType>
    ensures { option_copied result ≡ spec.standing ident.now (option_copied own.entry) }
{
    if is_self(ident) { own } else { None }
}

#[cycle(replace)]
pub(crate) fn replaced_ty<'a>(ty: &Ty<'a>, own: Option<&SelfType>, alloc: Global) -> Made<Ty<'a>>
    ensures { IfOk result (λ r. tree.ty_view r ≡ spec.replaced_type (own_segment (option_copied own.entry)) (tree.ty_view ty.now)) }
{
    ty_of(replaced_node(&ty.node, own, alloc), ty.span)
}

#[cycle(replace)]
pub(crate) fn replaced_node<'a>(
    node: &TyNode<'a>,
    own: Option<&SelfType>,
    alloc: Global,
) -> Made<TyNode<'a>>
    ensures { IfOk result (λ r. tree.node_view r ≡ spec.replaced_node (own_segment (option_copied own.entry)) (tree.node_view node.now)) }
{
    match node {
        TyNode::Paren(inner) => Ok(TyNode::Paren(boxed(alloc, replaced_ty(inner, own, alloc))?)),
        TyNode::Tuple(all) => {
            let all = replaced_types(all.items.as_slice(), all.trailing, own, alloc)?;
            Ok(TyNode::Tuple(all))
        }
        TyNode::Slice(inner) => Ok(TyNode::Slice(boxed(alloc, replaced_ty(inner, own, alloc))?)),
        TyNode::Array(inner, size) => array_of(replaced_ty(inner, own, alloc), size, alloc),
        TyNode::Reference(name, is_mut, inner) => {
            reference_of(replaced_ty(inner, own, alloc), name, *is_mut, alloc)
        }
        TyNode::Pointer(is_mut, inner) => {
            let inner = boxed(alloc, replaced_ty(inner, own, alloc))?;
            Ok(TyNode::Pointer(*is_mut, inner))
        }
        TyNode::BareFn(function) => {
            let function = boxed(alloc, replaced_fn(function, own, alloc))?;
            Ok(TyNode::BareFn(function))
        }
        TyNode::TraitObject(all) => {
            let all = replaced_bounds(all.items.as_slice(), all.trailing, own, alloc)?;
            Ok(TyNode::TraitObject(all))
        }
        TyNode::ImplTrait(all) => {
            let all = replaced_bounds(all.items.as_slice(), all.trailing, own, alloc)?;
            Ok(TyNode::ImplTrait(all))
        }
        TyNode::Infer => Ok(TyNode::Infer),
        TyNode::Never => Ok(TyNode::Never),
        TyNode::Path(qself, path) => match qself {
            None => path_type_of(replaced_path(path, own, alloc)),
            Some(qself) => {
                let QSelf { ty, position } = &**qself;
                let qself = qself_of(replaced_ty(ty, own, alloc), *position);
                qualified_of(both(boxed(alloc, qself), replaced_path(path, own, alloc)))
            }
        },
        TyNode::Macro(path, delim, tokens) => {
            macro_of(both(path.clone_in(alloc), tokens.clone_in(alloc)), *delim)
        }
    }
}

#[cycle(replace)]
pub(crate) fn replaced_bound<'a>(
    bound: &Bound<'a>,
    own: Option<&SelfType>,
    alloc: Global,
) -> Made<Bound<'a>>
    ensures { IfOk result (λ r. tree.bound_view r ≡ spec.replaced_bound (own_segment (option_copied own.entry)) (tree.bound_view bound.now)) }
{
    match bound {
        Bound::Lifetime(name) => Ok(Bound::Lifetime(name.clone_in(alloc)?)),
        Bound::Trait(bound) => {
            let path = replaced_path(&bound.path, own, alloc);
            let parts = both(path, bound.lifetimes.clone_in(alloc));
            Ok(Bound::Trait(trait_of(parts, bound.parens, bound.maybe)?))
        }
    }
}

#[cycle(replace)]
pub(crate) fn replaced_fn<'a>(
    function: &BareFn<'a>,
    own: Option<&SelfType>,
    alloc: Global,
) -> Made<BareFn<'a>>
    ensures { IfOk result (λ r. tree.fn_view r ≡ spec.replaced_function (own_segment (option_copied own.entry)) (tree.fn_view function.now)) }
{
    let inputs = &function.inputs;
    let inputs = replaced_inputs(inputs.items.as_slice(), inputs.trailing, own, alloc);
    let parts = both(inputs, replaced_output(&function.output, own, alloc));
    let head = both(
        function.lifetimes.clone_in(alloc),
        function.abi.clone_in(alloc),
    );
    fn_of(both(parts, head), function.is_unsafe)
}

#[cycle(replace)]
fn replaced_output<'a>(
    output: &Option<Ty<'a>>,
    own: Option<&SelfType>,
    alloc: Global,
) -> Made<Option<Ty<'a>>>
    ensures { IfOk result (λ r. option_map tree.ty_view r ≡ option_map (spec.replaced_type (own_segment (option_copied own.entry))) (option_map tree.ty_view output.now)) }
{
    match output {
        None => Ok(None),
        Some(ty) => some_of(replaced_ty(ty, own, alloc)),
    }
}

#[cycle(replace)]
pub(crate) fn replaced_path<'a>(
    path: &Path<'a>,
    own: Option<&SelfType>,
    alloc: Global,
) -> Made<Path<'a>>
    ensures { IfOk result (λ r. tree.path_view r ≡ spec.replaced_path (own_segment (option_copied own.entry)) (tree.path_view path.now)) }
{
    let segments = replaced_segments(path.segments.as_slice(), own, alloc);
    path_of(segments, path.leading_colon)
}

#[cycle(replace)]
pub(crate) fn replaced_segment<'a>(
    part: &PathSegment<'a>,
    own: Option<&SelfType>,
    alloc: Global,
) -> Made<PathSegment<'a>>
    ensures { IfOk result (λ r. tree.segment_view r ≡ spec.replaced_segment (own_segment (option_copied own.entry)) (tree.segment_view part.now)) }
{
    match standing(&part.ident, own) {
        Some(own) => self_segment(own, alloc),
        None => {
            let arguments = replaced_segment_arguments(&part.arguments, own, alloc);
            segment_of(both(arguments, part.ident.clone_in(alloc)))
        }
    }
}

#[cycle(replace)]
pub(crate) fn replaced_segment_arguments<'a>(
    arguments: &PathArguments<'a>,
    own: Option<&SelfType>,
    alloc: Global,
) -> Made<PathArguments<'a>>
    ensures { IfOk result (λ r. tree.arguments_view r ≡ spec.replaced_segment_arguments (own_segment (option_copied own.entry)) (tree.arguments_view arguments.now)) }
{
    match arguments {
        PathArguments::Absent => Ok(PathArguments::Absent),
        PathArguments::Angle(colons, all) => {
            let all = replaced_arguments(all.items.as_slice(), all.trailing, own, alloc)?;
            Ok(PathArguments::Angle(*colons, all))
        }
        PathArguments::Paren(all, output) => {
            let all = replaced_types(all.items.as_slice(), all.trailing, own, alloc);
            match output {
                None => parens_of(both(all, Ok(None))),
                Some(ty) => {
                    let ty = boxed(alloc, replaced_ty(ty, own, alloc));
                    parens_of(both(all, some_of(ty)))
                }
            }
        }
    }
}

#[cycle(replace)]
pub(crate) fn replaced_argument<'a>(
    argument: &GenericArgument<'a>,
    own: Option<&SelfType>,
    alloc: Global,
) -> Made<GenericArgument<'a>>
    ensures { IfOk result (λ r. tree.argument_view r ≡ spec.replaced_argument (own_segment (option_copied own.entry)) (tree.argument_view argument.now)) }
{
    match argument {
        GenericArgument::Lifetime(name) => Ok(GenericArgument::Lifetime(name.clone_in(alloc)?)),
        GenericArgument::Ty(ty) => type_argument_of(replaced_ty(ty, own, alloc)),
        GenericArgument::Const(value) => Ok(GenericArgument::Const(value.clone_in(alloc)?)),
        GenericArgument::AssocTy(label, arguments, ty) => {
            let head = both(label.clone_in(alloc), replaced_ty(ty, own, alloc));
            match arguments {
                None => assoc_ty_of(both(head, Ok(None))),
                Some(all) => {
                    let all = replaced_arguments(all.items.as_slice(), all.trailing, own, alloc);
                    assoc_ty_of(both(head, some_of(all)))
                }
            }
        }
        GenericArgument::AssocConst(label, arguments, value) => {
            let head = both(label.clone_in(alloc), value.clone_in(alloc));
            match arguments {
                None => assoc_const_of(both(head, Ok(None))),
                Some(all) => {
                    let all = replaced_arguments(all.items.as_slice(), all.trailing, own, alloc);
                    assoc_const_of(both(head, some_of(all)))
                }
            }
        }
        GenericArgument::Constraint(label, arguments, bounds) => {
            let bounds = replaced_bounds(bounds.items.as_slice(), bounds.trailing, own, alloc);
            let head = both(label.clone_in(alloc), bounds);
            match arguments {
                None => constraint_of(both(head, Ok(None))),
                Some(all) => {
                    let all = replaced_arguments(all.items.as_slice(), all.trailing, own, alloc);
                    constraint_of(both(head, some_of(all)))
                }
            }
        }
    }
}

#[cycle(replace)]
fn replaced_types<'a>(
    all: &[Ty<'a>],
    trailing: bool,
    own: Option<&SelfType>,
    alloc: Global,
) -> Made<Punctuated<Ty<'a>>>
    ensures { IfOk result (λ r. (map tree.ty_view r.items ≡ map (spec.replaced_type (own_segment (option_copied own.entry))) (map tree.ty_view all.now)) × (r.trailing ≡ trailing)) }
{
    let mut items = Seq::new(alloc);
    for ty in all {
        items = grown(items, replaced_ty(ty, own, alloc))?;
    }
    Ok(Punctuated { items, trailing })
}

#[cycle(replace)]
fn replaced_bounds<'a>(
    all: &[Bound<'a>],
    trailing: bool,
    own: Option<&SelfType>,
    alloc: Global,
) -> Made<Punctuated<Bound<'a>>>
    ensures { IfOk result (λ r. (map tree.bound_view r.items ≡ map (spec.replaced_bound (own_segment (option_copied own.entry))) (map tree.bound_view all.now)) × (r.trailing ≡ trailing)) }
{
    let mut items = Seq::new(alloc);
    for bound in all {
        items = grown(items, replaced_bound(bound, own, alloc))?;
    }
    Ok(Punctuated { items, trailing })
}

#[cycle(replace)]
pub(crate) fn replaced_input<'a>(
    input: &FnArg<'a>,
    own: Option<&SelfType>,
    alloc: Global,
) -> Made<FnArg<'a>>
    ensures { IfOk result (λ r. tree.input_view r ≡ spec.replaced_input (own_segment (option_copied own.entry)) (tree.input_view input.now)) }
{
    let head = both(input.attrs.clone_in(alloc), input.name.clone_in(alloc));
    input_of(both(replaced_ty(&input.ty, own, alloc), head))
}

#[cycle(replace)]
fn replaced_inputs<'a>(
    all: &[FnArg<'a>],
    trailing: bool,
    own: Option<&SelfType>,
    alloc: Global,
) -> Made<Punctuated<FnArg<'a>>>
    ensures { IfOk result (λ r. (map tree.input_view r.items ≡ map (spec.replaced_input (own_segment (option_copied own.entry))) (map tree.input_view all.now)) × (r.trailing ≡ trailing)) }
{
    let mut items = Seq::new(alloc);
    for input in all {
        items = grown(items, replaced_input(input, own, alloc))?;
    }
    Ok(Punctuated { items, trailing })
}

#[cycle(replace)]
fn replaced_arguments<'a>(
    all: &[GenericArgument<'a>],
    trailing: bool,
    own: Option<&SelfType>,
    alloc: Global,
) -> Made<Punctuated<GenericArgument<'a>>>
    ensures { IfOk result (λ r. (map tree.argument_view r.items ≡ map (spec.replaced_argument (own_segment (option_copied own.entry))) (map tree.argument_view all.now)) × (r.trailing ≡ trailing)) }
{
    let mut items = Seq::new(alloc);
    for argument in all {
        items = grown(items, replaced_argument(argument, own, alloc))?;
    }
    Ok(Punctuated { items, trailing })
}

#[cycle(replace)]
fn replaced_segments<'a>(
    all: &[PathSegment<'a>],
    own: Option<&SelfType>,
    alloc: Global,
) -> Made<Seq<PathSegment<'a>>>
    ensures { IfOk result (λ r. map tree.segment_view r ≡ map (spec.replaced_segment (own_segment (option_copied own.entry))) (map tree.segment_view all.now)) }
{
    let mut found = Seq::new(alloc);
    for part in all {
        found = grown(found, replaced_segment(part, own, alloc))?;
    }
    Ok(found)
}

//! The parameters and predicates of the implementation, and its implementor.
#![tactic(auto, using(crate::proofs::Builders::builder_steps))]

ghost use Rattle.std.specs.Prelude.{◌≡◌, map, false, IfOk};
ghost use Rattle.dm_ast.specs.Tree.{
  ty_view,
  path_view,
  segment_view,
  arguments_view,
  argument_view,
  path_tree,
  segment_then,
  no_segments,
  type_arg,
};
ghost use Rattle.dm_ast.specs.Declarations.{declaration_view, generics_view, param_view, predicate_view};
ghost use Rattle.dm_ast.specs.Implementors as spec;

use crate::bounds::segment;
use crate::lists::one;
use crate::parameters::impl_params;
use crate::types::{name_type, plain_type};
use dm_ast::{
    DeriveInput, GenericArgument, GenericParam, Generics, Path, PathArguments, PathSegment, Ty,
    WherePredicate,
};
use dm_copy::CloneIn;
use dm_stream::{Ident, Made, Punctuated, Seq};
use std::alloc::{AllocError, Global};

/// The declared parameters, lifetimes first.
pub fn params<'a>(
    alloc: Global,
    input: &DeriveInput<'a>,
) -> Result<Seq<GenericParam<'a>>, AllocError>
    ensures { IfOk result (λ ps. map param_view ps ≡ spec.params_of (declaration_view input.now)) }
{
    impl_params(&input.generics, alloc)
}

pub(crate) fn declared_predicates<'a>(
    generics: &Generics<'a>,
    alloc: Global,
) -> Made<Seq<WherePredicate<'a>>>
    ensures { IfOk result (λ ps. map predicate_view ps ≡ spec.predicates_in (generics_view generics.now).where_clause) }
{
    match &generics.where_clause {
        None => Ok(Seq::new(alloc)),
        Some(all) => all.items.clone_in(alloc),
    }
}

/// The declared predicates.
pub fn predicates<'a>(
    alloc: Global,
    input: &DeriveInput<'a>,
) -> Result<Seq<WherePredicate<'a>>, AllocError>
    ensures { IfOk result (λ ps. map predicate_view ps ≡ spec.predicates_of (declaration_view input.now)) }
{
    declared_predicates(&input.generics, alloc)
}

fn named_argument<'a>(alloc: Global, ident: &Ident<'a>) -> Made<GenericArgument<'a>>
    ensures { IfOk result (λ a. argument_view a ≡ type_arg (spec.name_type ident.now)) }
{
    let name = ident.clone_in(alloc)?;
    let ty = name_type(alloc, name)?;
    Ok(GenericArgument::Ty(ty))
}

fn argument<'a>(alloc: Global, param: &GenericParam<'a>) -> Made<GenericArgument<'a>>
    ensures { IfOk result (λ a. argument_view a ≡ spec.argument (param_view param.now)) }
{
    match param {
        GenericParam::Lifetime(param) => {
            Ok(GenericArgument::Lifetime(param.lifetime.clone_in(alloc)?))
        }
        GenericParam::Ty(param) => named_argument(alloc, &param.ident),
        GenericParam::Const(param) => named_argument(alloc, &param.ident),
    }
}

pub(crate) fn argument_items<'a>(
    alloc: Global,
    params: &[GenericParam<'a>],
) -> Made<Seq<GenericArgument<'a>>>
    ensures { IfOk result (λ it. map argument_view it ≡ map spec.argument (map param_view params.now)) }
{
    let mut out = Seq::new(alloc);
    for param in params {
        out.add(argument(alloc, param)?)?;
    }
    Ok(out)
}

/// `<..>` where there is any parameter.
fn arguments<'a>(alloc: Global, params: &[GenericParam<'a>]) -> Made<PathArguments<'a>>
    ensures { IfOk result (λ a. arguments_view a ≡ spec.arguments (map param_view params.now)) }
{
    if params.is_empty() {
        return Ok(PathArguments::Absent);
    }
    let items = argument_items(alloc, params)?;
    Ok(PathArguments::Angle(
        false,
        Punctuated {
            items,
            trailing: false,
        },
    ))
}

/// A path of one segment.
fn lone(alloc: Global, segment: PathSegment<'_>) -> Made<Path<'_>>
    ensures { IfOk result (λ p. path_view p ≡ path_tree false (segment_then (segment_view segment.entry) no_segments)) }
{
    Ok(Path {
        leading_colon: false,
        segments: one(alloc, segment)?,
    })
}

/// The declared type with an argument for each of these parameters, which are those that `params` gives.
pub fn implementor<'a>(
    alloc: Global,
    input: &DeriveInput<'a>,
    params: &[GenericParam<'a>],
) -> Result<Ty<'a>, AllocError>
    requires { map param_view params.now ≡ spec.params_of (declaration_view input.now) }
    ensures { IfOk result (λ t. ty_view t ≡ spec.implementor (declaration_view input.now)) }
{
    let arguments = arguments(alloc, params)?;
    let ident = input.ident.clone_in(alloc)?;
    let path = lone(alloc, segment(ident, arguments))?;
    Ok(plain_type(path))
}

//! Generics in the three parts that an implementation has.
#![tactic(auto, using(crate::proofs::Builders::builder_steps))]

ghost use Rattle.std.specs.Prelude.{◌≡◌, map, IfOk};
ghost use Rattle.dm_ast.specs.Tree.{ty_view, argument_view};
ghost use Rattle.dm_ast.specs.Declarations.{declaration_view, generics_view, param_view};
ghost use Rattle.dm_ast.specs.Implementors as implementors;
ghost use Rattle.dm_generics.specs.Split as spec;

use crate::implementors::{argument_items, declared_predicates, implementor, params};
use crate::parameters::impl_params;
use dm_ast::{DeriveInput, GenericArgument, GenericParam, Generics, Ty, WherePredicate};
use dm_copy::both;
use dm_stream::{Made, Punctuated, Seq};
use std::alloc::{AllocError, Global};

/// What stands in an implementation: between `<` and `>` behind `impl`, between those behind the type's name, and behind `where`.
#[derive(Drop)]
pub struct Split<'a> {
    pub impl_params: Punctuated<GenericParam<'a>>,
    pub ty_args: Punctuated<GenericArgument<'a>>,
    pub predicates: Punctuated<WherePredicate<'a>>,
}

/// The parameters, and an argument for each.
fn params_and_arguments<'a>(
    g: &Generics<'a>,
    alloc: Global,
) -> Made<(Seq<GenericParam<'a>>, Seq<GenericArgument<'a>>)>
    ensures params { IfOk result (λ r. map param_view r.0 ≡ spec.impl_params (generics_view g.now)) }
    ensures arguments { IfOk result (λ r. map argument_view r.1 ≡ map implementors.argument (spec.impl_params (generics_view g.now))) }
{
    let params = impl_params(g, alloc)?;
    let arguments = argument_items(alloc, params.as_slice());
    both(Ok(params), arguments)
}

/// The generics as an implementation has them: lifetimes first, and no attributes and defaults.
pub fn split_for_impl<'a>(alloc: Global, g: &Generics<'a>) -> Result<Split<'a>, AllocError>
    ensures { IfOk result (λ s. spec.split_view s ≡ spec.split_of (generics_view g.now)) }
{
    let head = params_and_arguments(g, alloc);
    let ((params, arguments), predicates) = both(head, declared_predicates(g, alloc))?;
    Ok(Split {
        impl_params: Punctuated {
            items: params,
            trailing: false,
        },
        ty_args: Punctuated {
            items: arguments,
            trailing: false,
        },
        predicates: Punctuated {
            items: predicates,
            trailing: false,
        },
    })
}

/// The declared type with an argument for each of its parameters.
pub fn implementor_type<'a>(alloc: Global, input: &DeriveInput<'a>) -> Result<Ty<'a>, AllocError>
    ensures { IfOk result (λ t. ty_view t ≡ implementors.implementor (declaration_view input.now)) }
{
    let params = params(alloc, input)?;
    implementor(alloc, input, params.as_slice())
}

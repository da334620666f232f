//! The declared parameters of an implementation with what an operator adds to them, as text.
#![tactic(auto, using(crate::proofs::ParamSteps::param_steps))]

ghost use Rattle.std.specs.Prelude.{◌≡◌, [], ◌∷◌, ◌++◌, None, map, IfOk, IsOkAnd, OnOk};
ghost use Rattle.dm_ast.specs.Declarations.{type_param};
ghost use Rattle.dm_ast.specs.Implementors.{params_of};
ghost use Rattle.dm_generics.specs.Additions.{bounded};
ghost use Rattle.dm_generics.specs.Bounds.{op_output};
ghost use Rattle.dm_generics.specs.Words as words;
ghost use Rattle.dm_output.specs.Tokens as tokens;
ghost use Rattle.dm_print_types.specs.Prelude.{declaration_view, param_view, lay};

use crate::made::made_params;
use dm_ast::{DeriveInput, GenericParam, TyParam};
use dm_generics::implementors::params;
use dm_generics::lists::appended;
use dm_generics::names::word;
use dm_generics::{Split, add_extra_type_param_bound_op_output, split_for_impl};
use dm_layout::{Layout, Printed};
use dm_stream::{Made, Seq};
use std::alloc::{AllocError, Global};

/// A type's parameter of this name.
fn plain_param<'a>(name: &'a str, alloc: Global) -> GenericParam<'a>
    ensures { param_view result ≡ type_param [] (words.word name.now) None None }
{
    GenericParam::Ty(TyParam {
        attrs: Seq::new(alloc),
        ident: word(name),
        bounds: None,
        default_ty: None,
    })
}

/// The parameters, and behind them a type's parameter of this name.
fn followed<'a>(
    declared: Result<Seq<GenericParam<'a>>, AllocError>,
    name: &'a str,
    alloc: Global,
) -> Made<Seq<GenericParam<'a>>>
    ensures { IfOk result (λ ps. IsOkAnd declared.entry (λ qs. map param_view ps ≡ map param_view qs ++ type_param [] (words.word name.now) None None ∷ [])) }
{
    match declared {
        Ok(declared) => Ok(appended(declared, plain_param(name, alloc))?),
        Err(error) => Err(error),
    }
}

fn with_param<'a>(
    input: &DeriveInput<'a>,
    name: &'a str,
    alloc: Global,
) -> Made<Seq<GenericParam<'a>>>
    ensures { IfOk result (λ ps. map param_view ps ≡ params_of (declaration_view input.now) ++ type_param [] (words.word name.now) None None ∷ []) }
{
    followed(params(alloc, input), name, alloc)
}

/// Adds the declared parameters, lifetimes first, and behind them a type's parameter of this name, in `<..>`.
pub fn params_with<'a>(input: &DeriveInput<'a>, name: &'a str, out: &mut Layout) -> Printed
    ensures { OnOk result (out.new ≡ lay out.old (tokens.params_trees (params_of (declaration_view input.now) ++ type_param [] (words.word name.now) None None ∷ []))) }
{
    made_params(with_param(input, name, out.allocator()), out)
}

fn params_of_split<'a>(split: Split<'a>) -> Seq<GenericParam<'a>>
    ensures { map param_view result ≡ map param_view split.entry.impl_params.items }
{
    let Split {
        impl_params,
        ty_args: _arguments,
        predicates: _predicates,
    } = split;
    impl_params.items
}

fn with_bounds<'a>(
    input: &DeriveInput<'a>,
    trait_name: &str,
    alloc: Global,
) -> Made<Seq<GenericParam<'a>>>
    ensures { IfOk result (λ ps. map param_view ps ≡ map (bounded (op_output trait_name.now)) (params_of (declaration_view input.now))) }
{
    let bounded = add_extra_type_param_bound_op_output(alloc, &input.generics, trait_name)?;
    let split = split_for_impl(alloc, &bounded)?;
    Ok(params_of_split(split))
}

/// Adds the declared parameters, lifetimes first, in `<..>` where there are some. Of each type parameter the operator of this name is asked,
/// which gives that type again: `T: derive_more::core::ops::Not<Output = T>`.
pub fn bounded_params(input: &DeriveInput<'_>, trait_name: &str, out: &mut Layout) -> Printed
    ensures { OnOk result (out.new ≡ lay out.old (tokens.params_trees (map (bounded (op_output trait_name.now)) (params_of (declaration_view input.now))))) }
{
    made_params(with_bounds(input, trait_name, out.allocator()), out)
}

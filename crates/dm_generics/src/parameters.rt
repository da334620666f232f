//! Copies of some of the parameters of a declaration.
#![tactic(auto, using(crate::proofs::ParameterSteps::parameter_steps))]

ghost use Rattle.std.specs.Prelude.{◌≡◌, ◌∷◌, [], ◌++◌, map, filter, cond, None, option_map, IfOk, OnOk};
ghost use Rattle.dm_ast.specs.Tree.{bound_view, ty_view};
ghost use Rattle.dm_ast.specs.Declarations.{param_view, generics_view, listed, lifetime_param, type_param, const_param};
ghost use Rattle.dm_ast.specs.Implementors as implementors;
ghost use Rattle.dm_generics.specs.Parameters as spec;
ghost use Rattle.dm_generics.specs.Split.{impl_params as params_of_impl};

use dm_ast::{ConstParam, GenericParam, Generics, LifetimeParam, TyParam};
use dm_copy::{CloneIn, both};
use dm_stream::{Made, Seq};
use std::alloc::Global;

/// Which parameters are copied.
#[derive(Clone, Copy)]
pub(crate) enum Chosen {
    Lifetimes,
    Others,
    Types,
    Consts,
}

fn is_chosen(param: &GenericParam<'_>, chosen: Chosen) -> bool
    ensures { result ≡ spec.chosen chosen (param_view param.now) }
{
    match chosen {
        Chosen::Lifetimes => matches!(param, GenericParam::Lifetime(_)),
        Chosen::Others => !matches!(param, GenericParam::Lifetime(_)),
        Chosen::Types => matches!(param, GenericParam::Ty(_)),
        Chosen::Consts => matches!(param, GenericParam::Const(_)),
    }
}

fn bare_lifetime<'a>(param: &LifetimeParam<'a>, alloc: Global) -> Made<GenericParam<'a>>
    ensures { IfOk result (λ p. param_view p ≡ lifetime_param [] param.now.lifetime param.now.bounds) }
{
    let lifetime = param.lifetime.clone_in(alloc);
    let (lifetime, bounds) = both(lifetime, param.bounds.clone_in(alloc))?;
    Ok(GenericParam::Lifetime(LifetimeParam {
        attrs: Seq::new(alloc),
        lifetime,
        bounds,
    }))
}

fn bare_type<'a>(param: &TyParam<'a>, alloc: Global) -> Made<GenericParam<'a>>
    ensures { IfOk result (λ p. param_view p ≡ type_param [] param.now.ident (option_map (listed bound_view) param.now.bounds) None) }
{
    let ident = param.ident.clone_in(alloc);
    let (ident, bounds) = both(ident, param.bounds.clone_in(alloc))?;
    Ok(GenericParam::Ty(TyParam {
        attrs: Seq::new(alloc),
        ident,
        bounds,
        default_ty: None,
    }))
}

fn bare_const<'a>(param: &ConstParam<'a>, alloc: Global) -> Made<GenericParam<'a>>
    ensures { IfOk result (λ p. param_view p ≡ const_param [] param.now.ident (ty_view param.now.ty) None) }
{
    let ident = param.ident.clone_in(alloc);
    let (ident, ty) = both(ident, param.ty.clone_in(alloc))?;
    Ok(GenericParam::Const(ConstParam {
        attrs: Seq::new(alloc),
        ident,
        ty,
        default_value: None,
    }))
}

/// A copy of the parameter without its attributes and its default.
fn bare<'a>(param: &GenericParam<'a>, alloc: Global) -> Made<GenericParam<'a>>
    ensures { IfOk result (λ p. param_view p ≡ implementors.bare (param_view param.now)) }
{
    match param {
        GenericParam::Lifetime(param) => bare_lifetime(param, alloc),
        GenericParam::Ty(param) => bare_type(param, alloc),
        GenericParam::Const(param) => bare_const(param, alloc),
    }
}

fn add_bare<'a>(
    param: &GenericParam<'a>,
    wanted: bool,
    alloc: Global,
    out: &mut Seq<GenericParam<'a>>,
) -> Made<()>
    ensures { OnOk result (map param_view out.new ≡ map param_view out.old ++ cond wanted (implementors.bare (param_view param.now) ∷ []) []) }
{
    if wanted {
        let copy = bare(param, alloc)?;
        return out.add(copy);
    }
    Ok(())
}

/// Adds the chosen parameters without their attributes and defaults.
fn add_bare_ones<'a>(
    all: &[GenericParam<'a>],
    chosen: Chosen,
    alloc: Global,
    out: &mut Seq<GenericParam<'a>>,
) -> Made<()>
    ensures { OnOk result (map param_view out.new ≡ map param_view out.old ++ map implementors.bare (filter (spec.chosen chosen) (map param_view all.now))) }
{
    for param in all {
        add_bare(param, is_chosen(param, chosen), alloc, out)?;
    }
    Ok(())
}

/// Lifetimes first, then the others, without attributes and defaults.
pub(crate) fn impl_params<'a>(generics: &Generics<'a>, alloc: Global) -> Made<Seq<GenericParam<'a>>>
    ensures { IfOk result (λ ps. map param_view ps ≡ params_of_impl (generics_view generics.now)) }
{
    let all = generics.params.items.as_slice();
    let mut out = Seq::new(alloc);
    add_bare_ones(all, Chosen::Lifetimes, alloc, &mut out)?;
    add_bare_ones(all, Chosen::Others, alloc, &mut out)?;
    Ok(out)
}

fn add_copy<'a>(
    param: &GenericParam<'a>,
    wanted: bool,
    alloc: Global,
    out: &mut Seq<GenericParam<'a>>,
) -> Made<()>
    ensures { OnOk result (map param_view out.new ≡ map param_view out.old ++ cond wanted (param_view param.now ∷ []) []) }
{
    if wanted {
        let copy = param.clone_in(alloc)?;
        return out.add(copy);
    }
    Ok(())
}

/// The chosen parameters as they are declared.
pub(crate) fn copies<'a>(
    all: &[GenericParam<'a>],
    chosen: Chosen,
    alloc: Global,
) -> Made<Seq<GenericParam<'a>>>
    ensures { IfOk result (λ ps. map param_view ps ≡ filter (spec.chosen chosen) (map param_view all.now)) }
{
    let mut out = Seq::new(alloc);
    for param in all {
        add_copy(param, is_chosen(param, chosen), alloc, &mut out)?;
    }
    Ok(out)
}

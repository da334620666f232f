//! Generics with something added. What isn't spoken of stays as it is declared.
#![tactic(auto, using(crate::proofs::AdditionSteps::addition_steps))]

ghost use Rattle.std.specs.Prelude.{◌≡◌, ◌∷◌, [], ◌++◌, map, filter, length, true, Some, option_map, IfOk};
ghost use Rattle.dm_ast.specs.Tree.{bound_view, ty_view};
ghost use Rattle.dm_ast.specs.Declarations.{generics_view, param_view, predicate_view, listed, type_param};
ghost use Rattle.dm_ast.specs.Implementors.{is_lifetime};
ghost use Rattle.dm_generics.specs.Parameters.{is_type};
ghost use Rattle.dm_generics.specs.Lists.{separated, items_in};
ghost use Rattle.dm_generics.specs.Bounds as bounds;
ghost use Rattle.dm_generics.specs.Additions as spec;
ghost use Rattle.dm_generics.specs.Extra as added;

use crate::bounds::{marker, op_output};
use crate::lists::{appended, joined, one};
use crate::names::owned_word;
use crate::parameters::{Chosen, copies};
use dm_ast::{Bound, Field, GenericParam, Generics, TyParam, WherePredicate};
use dm_copy::{CloneIn, both};
use dm_stream::{Ident, Made, Punctuated, Seq};
use std::alloc::{AllocError, Global};

/// What each type parameter is bounded by: a bound that is given, or the operator of this name, with the parameter itself as its output.
#[derive(Clone, Copy)]
pub(crate) enum Extra<'x, 'a> {
    Given(&'x Bound<'a>),
    OpOutput(&'x str),
}

fn extra_bound<'a>(ident: &Ident<'a>, extra: Extra<'_, 'a>, alloc: Global) -> Made<Bound<'a>>
    ensures { IfOk result (λ b. bound_view b ≡ added.bound extra.entry ident.now) }
{
    match extra {
        Extra::Given(bound) => bound.clone_in(alloc),
        Extra::OpOutput(name) => op_output(ident, name, alloc),
    }
}

fn declared_bounds<'a>(param: &TyParam<'a>, alloc: Global) -> Made<Seq<Bound<'a>>>
    ensures { IfOk result (λ bs. map bound_view bs ≡ items_in (option_map (listed bound_view) param.now.bounds)) }
{
    match &param.bounds {
        None => Ok(Seq::new(alloc)),
        Some(all) => all.items.clone_in(alloc),
    }
}

fn wider_bounds<'a>(
    param: &TyParam<'a>,
    extra: Extra<'_, 'a>,
    alloc: Global,
) -> Made<Seq<Bound<'a>>>
    ensures { IfOk result (λ bs. map bound_view bs ≡ items_in (option_map (listed bound_view) param.now.bounds) ++ added.bound extra.entry param.now.ident ∷ []) }
{
    let extra = extra_bound(&param.ident, extra, alloc);
    let (declared, extra) = both(declared_bounds(param, alloc), extra)?;
    Ok(appended(declared, extra)?)
}

fn bounded_type<'a>(
    param: &TyParam<'a>,
    extra: Extra<'_, 'a>,
    alloc: Global,
) -> Made<GenericParam<'a>>
    ensures { IfOk result (λ p. param_view p ≡ spec.bounded (added.bound extra.entry) (type_param param.now.attrs param.now.ident (option_map (listed bound_view) param.now.bounds) (option_map ty_view param.now.default_ty))) }
{
    let bounds = wider_bounds(param, extra, alloc);
    let default_ty = param.default_ty.clone_in(alloc);
    let attrs = param.attrs.clone_in(alloc);
    let ident = param.ident.clone_in(alloc);
    let ((attrs, ident), (items, default_ty)) = both(both(attrs, ident), both(bounds, default_ty))?;
    Ok(GenericParam::Ty(TyParam {
        attrs,
        ident,
        bounds: Some(Punctuated {
            items,
            trailing: false,
        }),
        default_ty,
    }))
}

fn bounded<'a>(
    param: &GenericParam<'a>,
    extra: Extra<'_, 'a>,
    alloc: Global,
) -> Made<GenericParam<'a>>
    ensures { IfOk result (λ p. param_view p ≡ spec.bounded (added.bound extra.entry) (param_view param.now)) }
{
    match param {
        GenericParam::Lifetime(declared) => Ok(GenericParam::Lifetime(declared.clone_in(alloc)?)),
        GenericParam::Ty(declared) => bounded_type(declared, extra, alloc),
        GenericParam::Const(declared) => Ok(GenericParam::Const(declared.clone_in(alloc)?)),
    }
}

fn all_bounded<'a>(
    params: &[GenericParam<'a>],
    extra: Extra<'_, 'a>,
    alloc: Global,
) -> Made<Seq<GenericParam<'a>>>
    ensures { IfOk result (λ ps. map param_view ps ≡ map (spec.bounded (added.bound extra.entry)) (map param_view params.now)) }
{
    let mut out = Seq::new(alloc);
    for param in params {
        out.add(bounded(param, extra, alloc)?)?;
    }
    Ok(out)
}

fn with_bounds<'a>(g: &Generics<'a>, extra: Extra<'_, 'a>, alloc: Global) -> Made<Generics<'a>>
    ensures { IfOk result (λ r. generics_view r ≡ spec.all_bounded (added.bound extra.entry) (generics_view g.now)) }
{
    let items = all_bounded(g.params.items.as_slice(), extra, alloc);
    let (items, where_clause) = both(items, g.where_clause.clone_in(alloc))?;
    Ok(Generics {
        angled: g.angled,
        params: Punctuated {
            items,
            trailing: g.params.trailing,
        },
        where_clause,
    })
}

/// The generics with `derive_more::core::ops::NAME<Output = T>` as the last bound of each type parameter `T`.
pub fn add_extra_type_param_bound_op_output<'a>(
    alloc: Global,
    g: &Generics<'a>,
    trait_name: &str,
) -> Result<Generics<'a>, AllocError>
    ensures { IfOk result (λ r. generics_view r ≡ spec.all_bounded (bounds.op_output trait_name.now) (generics_view g.now)) }
{
    with_bounds(g, Extra::OpOutput(trait_name), alloc)
}

/// The generics with this bound as the last of each type parameter.
pub fn add_extra_ty_param_bound<'a>(
    alloc: Global,
    g: &Generics<'a>,
    bound: &Bound<'a>,
) -> Result<Generics<'a>, AllocError>
    ensures { IfOk result (λ r. generics_view r ≡ spec.all_bounded (λ _. bound_view bound.now) (generics_view g.now)) }
{
    with_bounds(g, Extra::Given(bound), alloc)
}

/// Generics with these parameters between `<` and `>`.
fn angled<'a>(
    items: Seq<GenericParam<'a>>,
    where_clause: Option<Punctuated<WherePredicate<'a>>>,
) -> Generics<'a>
    ensures { generics_view result ≡ record { angled = true; params = separated (map param_view items.entry); where_clause = option_map (listed predicate_view) where_clause.entry } }
{
    Generics {
        angled: true,
        params: Punctuated {
            items,
            trailing: false,
        },
        where_clause,
    }
}

fn behind_all<'a>(
    g: &Generics<'a>,
    param: GenericParam<'a>,
    alloc: Global,
) -> Made<Seq<GenericParam<'a>>>
    ensures { IfOk result (λ ps. map param_view ps ≡ map param_view g.now.params.items ++ param_view param.entry ∷ []) }
{
    let (declared, param) = both(g.params.items.clone_in(alloc), Ok(param))?;
    Ok(appended(declared, param)?)
}

/// The generics with this parameter behind the others, whatever it is.
pub fn add_extra_generic_param<'a>(
    alloc: Global,
    g: &Generics<'a>,
    param: GenericParam<'a>,
) -> Result<Generics<'a>, AllocError>
    ensures { IfOk result (λ r. generics_view r ≡ spec.with_param (param_view param.entry) (generics_view g.now)) }
{
    let params = behind_all(g, param, alloc);
    let (params, where_clause) = both(params, g.where_clause.clone_in(alloc))?;
    Ok(angled(params, where_clause))
}

fn lifetimes_and_types<'a>(all: &[GenericParam<'a>], alloc: Global) -> Made<Seq<GenericParam<'a>>>
    ensures { IfOk result (λ ps. map param_view ps ≡ filter is_lifetime (map param_view all.now) ++ filter is_type (map param_view all.now)) }
{
    let lifetimes = copies(all, Chosen::Lifetimes, alloc);
    let (lifetimes, types) = both(lifetimes, copies(all, Chosen::Types, alloc))?;
    Ok(joined(lifetimes, types)?)
}

fn behind_types<'a>(
    all: &[GenericParam<'a>],
    param: GenericParam<'a>,
    alloc: Global,
) -> Made<Seq<GenericParam<'a>>>
    ensures { IfOk result (λ ps. map param_view ps ≡ spec.behind_types (param_view param.entry) (map param_view all.now)) }
{
    let (front, param) = both(lifetimes_and_types(all, alloc), Ok(param))?;
    let front = appended(front, param);
    let (front, consts) = both(front, copies(all, Chosen::Consts, alloc))?;
    Ok(joined(front, consts)?)
}

/// The generics with this parameter behind the type parameters: lifetimes, types, the new one, constants.
pub fn add_extra_generic_type_param<'a>(
    alloc: Global,
    g: &Generics<'a>,
    param: GenericParam<'a>,
) -> Result<Generics<'a>, AllocError>
    ensures { IfOk result (λ r. generics_view r ≡ spec.with_type_param (param_view param.entry) (generics_view g.now)) }
{
    let params = behind_types(g.params.items.as_slice(), param, alloc);
    let (params, where_clause) = both(params, g.where_clause.clone_in(alloc))?;
    Ok(angled(params, where_clause))
}

fn in_front<T: CloneIn>(
    extra: Punctuated<T>,
    declared: Option<Punctuated<T>>,
) -> Made<Punctuated<T>>
    ensures { IfOk result (λ all. listed T.shape all ≡ spec.in_front (listed T.shape extra) (option_map (listed T.shape) declared)) }
{
    match declared {
        None => Ok(extra),
        Some(declared) => Ok(Punctuated {
            items: joined(extra.items, declared.items)?,
            trailing: declared.trailing,
        }),
    }
}

fn wider_where<'a>(
    g: &Generics<'a>,
    extra: Punctuated<WherePredicate<'a>>,
    alloc: Global,
) -> Made<Punctuated<WherePredicate<'a>>>
    ensures { IfOk result (λ ps. listed predicate_view ps ≡ spec.in_front (listed predicate_view extra.entry) (generics_view g.now).where_clause) }
{
    let (extra, declared) = both(Ok(extra), g.where_clause.clone_in(alloc))?;
    in_front(extra, declared)
}

/// The generics with these predicates in front of the declared ones.
pub fn add_extra_where_clauses<'a>(
    alloc: Global,
    g: &Generics<'a>,
    extra: Punctuated<WherePredicate<'a>>,
) -> Result<Generics<'a>, AllocError>
    ensures { IfOk result (λ r. generics_view r ≡ spec.with_predicates (listed predicate_view extra.entry) (generics_view g.now)) }
{
    let where_clause = wider_where(g, extra, alloc);
    let (params, where_clause) = both(g.params.clone_in(alloc), where_clause)?;
    Ok(Generics {
        angled: g.angled,
        params,
        where_clause: Some(where_clause),
    })
}

fn only<'a>(alloc: Global, bound: Bound<'a>) -> Made<Option<Punctuated<Bound<'a>>>>
    ensures { IfOk result (λ bs. option_map (listed bound_view) bs ≡ Some (separated (bound_view bound.entry ∷ []))) }
{
    Ok(Some(Punctuated {
        items: one(alloc, bound)?,
        trailing: false,
    }))
}

fn new_bounds<'a>(alloc: Global, count: usize, sized: bool) -> Made<Option<Punctuated<Bound<'a>>>>
    ensures { IfOk result (λ bs. option_map (listed bound_view) bs ≡ spec.new_bounds count sized) }
{
    if 1 < count {
        return only(alloc, marker(alloc, "Copy", false)?);
    }
    if sized {
        return Ok(None);
    }
    only(alloc, marker(alloc, "Sized", true)?)
}

fn new_type<'a>(name: &str, count: usize, sized: bool, alloc: Global) -> Made<GenericParam<'a>>
    ensures { IfOk result (λ p. param_view p ≡ spec.new_type name.now count sized) }
{
    let (ident, bounds) = both(owned_word(alloc, name), new_bounds(alloc, count, sized))?;
    Ok(GenericParam::Ty(TyParam {
        attrs: Seq::new(alloc),
        ident,
        bounds,
        default_ty: None,
    }))
}

fn with_new_type<'a>(
    all: &[GenericParam<'a>],
    name: &str,
    count: usize,
    sized: bool,
    alloc: Global,
) -> Made<Seq<GenericParam<'a>>>
    ensures { IfOk result (λ ps. map param_view ps ≡ spec.behind_types (spec.new_type name.now count sized) (map param_view all.now)) }
{
    let param = new_type(name, count, sized, alloc)?;
    behind_types(all, param, alloc)
}

/// The generics with a new type parameter of this name behind the declared ones, and with these predicates in front of the declared ones. The
/// new parameter is `Copy` where there is more than one field; with one field or none it may be unsized, unless `sized`.
pub fn add_where_clauses_for_new_ident<'a>(
    alloc: Global,
    g: &Generics<'a>,
    fields: &[&Field<'a>],
    name: &str,
    extra: Punctuated<WherePredicate<'a>>,
    sized: bool,
) -> Result<Generics<'a>, AllocError>
    ensures { IfOk result (λ r. generics_view r ≡
        spec.with_new_type name.now (length fields.now) sized (listed predicate_view extra.entry) (generics_view g.now)) }
{
    let where_clause = wider_where(g, extra, alloc);
    let params = with_new_type(g.params.items.as_slice(), name, fields.len(), sized, alloc);
    let (params, where_clause) = both(params, where_clause)?;
    Ok(angled(params, Some(where_clause)))
}

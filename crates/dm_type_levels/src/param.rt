//! The levels of generic parameters and predicates.
#![tactic(auto, using(crate::proofs::PartSteps::part_steps))]

ghost use Rattle.std.specs.Prelude.{◌∷◌, ◌++◌, option_map};
ghost use Rattle.dm_ast.specs.Tree as tree;
ghost use Rattle.dm_ast.specs.Declarations as declared;
ghost use Rattle.dm_type_levels.specs.TypeLevels as spec;
ghost use Rattle.dm_type_levels.specs.Passing.{Passes};

use crate::parts::{attributes, for_lifetimes, lifetimes};
use crate::pass::{Behind, pair, token};
use crate::ty::{constraint, equal_const, equal_type, ty};
use dm_ast::{
    Bound, ConstArg, ConstParam, GenericParam, LifetimeParam, Ty, TyParam, WherePredicate,
};
use dm_stream::{Entry, Lifetime, Punctuated};

fn outlived<'t, 'a>(
    all: &Punctuated<Lifetime<'_>>,
    level: usize,
    rest: &'t [Entry<'a>],
) -> Behind<'t, 'a>
    ensures { Passes (level ∷ spec.lifetimes_levels level all.now) rest.now result }
{
    let rest = token(level, rest)?;
    lifetimes(all, level, rest)
}

fn maybe_outlived<'t, 'a>(
    found: &Option<Punctuated<Lifetime<'_>>>,
    level: usize,
    rest: &'t [Entry<'a>],
) -> Behind<'t, 'a>
    ensures { Passes (spec.maybe_lifetimes_levels level found.now) rest.now result }
{
    match found {
        None => Ok(rest),
        Some(all) => outlived(all, level, rest),
    }
}

fn maybe_bounds<'t, 'a>(
    found: &Option<Punctuated<Bound<'_>>>,
    level: usize,
    rest: &'t [Entry<'a>],
) -> Behind<'t, 'a>
    ensures { Passes (spec.maybe_bounds_levels level (option_map (declared.listed tree.bound_view) found.now)) rest.now result }
{
    match found {
        None => Ok(rest),
        Some(all) => constraint(all.items.as_slice(), all.trailing, level, rest),
    }
}

fn default_type<'t, 'a>(
    found: &Option<Ty<'_>>,
    level: usize,
    rest: &'t [Entry<'a>],
) -> Behind<'t, 'a>
    ensures { Passes (spec.default_type_levels level (option_map tree.ty_view found.now)) rest.now result }
{
    match found {
        None => Ok(rest),
        Some(found) => equal_type(found, level, rest),
    }
}

fn default_const<'t, 'a>(
    found: &Option<ConstArg<'_>>,
    level: usize,
    rest: &'t [Entry<'a>],
) -> Behind<'t, 'a>
    ensures { Passes (spec.default_const_levels level found.now) rest.now result }
{
    match found {
        None => Ok(rest),
        Some(value) => equal_const(value, level, rest),
    }
}

fn lifetime_param<'t, 'a>(
    param: &LifetimeParam<'_>,
    level: usize,
    rest: &'t [Entry<'a>],
) -> Behind<'t, 'a>
    ensures { Passes (spec.param_levels level (declared.lifetime_param param.now.attrs param.now.lifetime param.now.bounds)) rest.now result }
{
    let rest = attributes(param.attrs.as_slice(), level, rest)?;
    let rest = token(level, rest)?;
    maybe_outlived(&param.bounds, level, rest)
}

fn bounded<'t, 'a>(
    bounds: &Option<Punctuated<Bound<'_>>>,
    default: &Option<Ty<'_>>,
    level: usize,
    rest: &'t [Entry<'a>],
) -> Behind<'t, 'a>
    ensures { Passes (spec.maybe_bounds_levels level (option_map (declared.listed tree.bound_view) bounds.now) ++ spec.default_type_levels level (option_map tree.ty_view default.now)) rest.now result }
{
    let rest = maybe_bounds(bounds, level, rest)?;
    default_type(default, level, rest)
}

fn type_param<'t, 'a>(param: &TyParam<'_>, level: usize, rest: &'t [Entry<'a>]) -> Behind<'t, 'a>
    ensures { Passes (spec.param_levels level (declared.type_param param.now.attrs param.now.ident (option_map (declared.listed tree.bound_view) param.now.bounds) (option_map tree.ty_view param.now.default_ty))) rest.now result }
{
    let rest = attributes(param.attrs.as_slice(), level, rest)?;
    let rest = token(level, rest)?;
    bounded(&param.bounds, &param.default_ty, level, rest)
}

fn typed<'t, 'a>(
    found: &Ty<'_>,
    default: &Option<ConstArg<'_>>,
    level: usize,
    rest: &'t [Entry<'a>],
) -> Behind<'t, 'a>
    ensures { Passes (level ∷ (spec.type_levels level (tree.ty_view found.now) ++ spec.default_const_levels level default.now)) rest.now result }
{
    let rest = token(level, rest)?;
    let rest = ty(found, level, rest)?;
    default_const(default, level, rest)
}

fn const_param<'t, 'a>(
    param: &ConstParam<'_>,
    level: usize,
    rest: &'t [Entry<'a>],
) -> Behind<'t, 'a>
    ensures { Passes (spec.param_levels level (declared.const_param param.now.attrs param.now.ident (tree.ty_view param.now.ty) param.now.default_value)) rest.now result }
{
    let rest = attributes(param.attrs.as_slice(), level, rest)?;
    let rest = pair(level, rest)?;
    typed(&param.ty, &param.default_value, level, rest)
}

/// The entries behind a generic parameter.
pub fn param<'t, 'a>(
    param: &GenericParam<'_>,
    level: usize,
    rest: &'t [Entry<'a>],
) -> Behind<'t, 'a>
    ensures { Passes (spec.param_levels level (declared.param_view param.now)) rest.now result }
{
    match param {
        GenericParam::Lifetime(found) => lifetime_param(found, level, rest),
        GenericParam::Ty(found) => type_param(found, level, rest),
        GenericParam::Const(found) => const_param(found, level, rest),
    }
}

/// The entries behind a predicate of a `where` clause.
pub fn predicate<'t, 'a>(
    predicate: &WherePredicate<'_>,
    level: usize,
    rest: &'t [Entry<'a>],
) -> Behind<'t, 'a>
    ensures { Passes (spec.predicate_levels level (declared.predicate_view predicate.now)) rest.now result }
{
    match predicate {
        WherePredicate::Lifetime(_, all) => {
            let rest = token(level, rest)?;
            outlived(all, level, rest)
        }
        WherePredicate::Ty(found, bounded, bounds) => {
            let rest = for_lifetimes(found, level, rest)?;
            let rest = ty(bounded, level, rest)?;
            constraint(bounds.items.as_slice(), bounds.trailing, level, rest)
        }
    }
}

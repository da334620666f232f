//! The search for parameters.
#![tactic(auto)]

ghost use Rattle.std.specs.Prelude.{◌≡◌, IfOk};
ghost use Rattle.dm_ast.specs.Tree.{ty_view};
ghost use Rattle.dm_ast.specs.Declarations.{generics_view};
ghost use Rattle.dm_searches.specs.Mentions as spec;
ghost use Rattle.dm_searches.specs.Parameters.{lent, looked_for, declared_in};

use crate::mentions::in_type;
use crate::names::Sort;
use dm_ast::{GenericParam, Generics, Ty};
use dm_stream::{Ident, Lifetime, Seq};
use std::alloc::{AllocError, Global};

/// A search for parameters by their names, which are compared without `r#`.
#[derive(Drop)]
pub struct GenericsSearch<'s, 'a> {
    pub types: Seq<&'s Ident<'a>>,
    pub lifetimes: Seq<&'s Lifetime<'a>>,
    pub consts: Seq<&'s Ident<'a>>,
}

/// Whether one of these type or const parameters is mentioned.
#[tactic(auto, using(crate::proofs::Lent::none_left))]
fn any_name(all: &Seq<&Ident<'_>>, ty: &Ty<'_>, sort: Sort) -> bool
    ensures { result ≡ spec.any_name sort (lent all.now) (ty_view ty.now) }
{
    for item in all.iter() {
        if in_type(ty, item.name.as_str(), sort) {
            return true;
        }
    }
    false
}

#[tactic(auto, using(crate::proofs::Lent::none_left))]
fn any_lifetime(all: &Seq<&Lifetime<'_>>, ty: &Ty<'_>) -> bool
    ensures { result ≡ spec.any_lifetime (lent all.now) (ty_view ty.now) }
{
    for item in all.iter() {
        if in_type(ty, item.name.as_str(), Sort::Lifetime) {
            return true;
        }
    }
    false
}

impl<'s, 'a> GenericsSearch<'s, 'a> {
    /// The search for all parameters that are declared here, by their kinds and in their order.
    pub fn from_generics(
        alloc: Global,
        g: &'s Generics<'a>,
    ) -> Result<GenericsSearch<'s, 'a>, AllocError>
        ensures { IfOk result (λ s. looked_for s ≡ declared_in (generics_view g.now)) }
    {
        let mut types = Seq::new(alloc);
        let mut lifetimes = Seq::new(alloc);
        let mut consts = Seq::new(alloc);
        for param in g.params.items.as_slice() {
            match param {
                GenericParam::Ty(param) => types.add(&param.ident)?,
                GenericParam::Lifetime(param) => lifetimes.add(&param.lifetime)?,
                GenericParam::Const(param) => consts.add(&param.ident)?,
            }
        }
        Ok(GenericsSearch {
            types,
            lifetimes,
            consts,
        })
    }

    /// Whether a type mentions a parameter.
    ///
    /// These places count, in every part of the type: a path type that is a type or const parameter, alone and without arguments; a path
    /// type whose first segment is a type parameter without arguments, as in `T::Item`; a lifetime, also in a bound or declared by a
    /// `for`; and any identifier or lifetime among tokens that are not read, which are those of an array's length, of a constant
    /// argument, of a macro type and of the attributes of a function type's inputs. Names of segments behind the first, of associated
    /// types and constants, of traits and of inputs don't count.
    pub fn any_in(&self, ty: &Ty<'_>) -> bool
        ensures { result ≡ spec.mentions (looked_for self.now) (ty_view ty.now) }
    {
        any_name(&self.types, ty, Sort::Ty)
            || any_lifetime(&self.lifetimes, ty)
            || any_name(&self.consts, ty, Sort::Const)
    }
}

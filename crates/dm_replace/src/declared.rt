//! The declared type: its name with an argument for each of its parameters.
#![tactic(auto, using(crate::proofs::DeclaredArguments::declared_steps))]

ghost use Rattle.std.specs.Prelude.{◌≡◌, ◌∷◌, [], ◌++◌, map, IfOk};
ghost use Rattle.dm_ast.specs.Declarations.{declaration_view, param_view};
ghost use Rattle.dm_ast.specs.Implementors.{is_lifetime, is_other};
ghost use Rattle.dm_copy.specs.Segments.{argument_of, segment_of};
ghost use Rattle.dm_replace.specs.Arguments.{arguments_where};
ghost use Rattle.dm_replace.specs.Replaced.{declared_segment};

use dm_ast::{DeriveInput, GenericParam};
use dm_copy::{SelfArgument, SelfType};
use dm_stream::{Ident, Made, Seq};
use std::alloc::Global;

fn owned_name(ident: &Ident<'_>, alloc: Global) -> Made<Ident<'static>>
    ensures { IfOk result (λ r. r ≡ ident.now) }
{
    Ok(ident.clone_in(alloc)?.into_owned(alloc)?)
}

/// The argument for a lifetime parameter, added at the end.
fn add_lifetime(param: &GenericParam<'_>, found: &mut Seq<SelfArgument>, alloc: Global) -> Made<()>
    ensures { IfOk result (λ _. map argument_of found.new ≡ map argument_of found.old ++ arguments_where is_lifetime (param_view param.now ∷ [])) }
{
    match param {
        GenericParam::Lifetime(param) => {
            let name = param.lifetime.clone_in(alloc)?.into_owned(alloc)?;
            Ok(found.add(SelfArgument::Lifetime(name))?)
        }
        GenericParam::Ty(_) => Ok(()),
        GenericParam::Const(_) => Ok(()),
    }
}

/// The argument for a type or const parameter, added at the end.
fn add_name(param: &GenericParam<'_>, found: &mut Seq<SelfArgument>, alloc: Global) -> Made<()>
    ensures { IfOk result (λ _. map argument_of found.new ≡ map argument_of found.old ++ arguments_where is_other (param_view param.now ∷ [])) }
{
    match param {
        GenericParam::Lifetime(_) => Ok(()),
        GenericParam::Ty(param) => {
            let name = owned_name(&param.ident, alloc)?;
            Ok(found.add(SelfArgument::Name(name))?)
        }
        GenericParam::Const(param) => {
            let name = owned_name(&param.ident, alloc)?;
            Ok(found.add(SelfArgument::Name(name))?)
        }
    }
}

fn add_lifetimes(
    params: &[GenericParam<'_>],
    found: &mut Seq<SelfArgument>,
    alloc: Global,
) -> Made<()>
    ensures { IfOk result (λ _. map argument_of found.new ≡ map argument_of found.old ++ arguments_where is_lifetime (map param_view params.now)) }
{
    for param in params {
        add_lifetime(param, found, alloc)?;
    }
    Ok(())
}

fn add_names(params: &[GenericParam<'_>], found: &mut Seq<SelfArgument>, alloc: Global) -> Made<()>
    ensures { IfOk result (λ _. map argument_of found.new ≡ map argument_of found.old ++ arguments_where is_other (map param_view params.now)) }
{
    for param in params {
        add_name(param, found, alloc)?;
    }
    Ok(())
}

/// The type that is declared, with an argument for each parameter, lifetimes first.
pub(crate) fn self_type(input: &DeriveInput<'_>, alloc: Global) -> Made<SelfType>
    ensures { IfOk result (λ t. segment_of t ≡ declared_segment (declaration_view input.now)) }
{
    let ident = owned_name(&input.ident, alloc)?;
    let params = input.generics.params.items.as_slice();
    let mut arguments = Seq::new(alloc);
    add_lifetimes(params, &mut arguments, alloc)?;
    add_names(params, &mut arguments, alloc)?;
    Ok(SelfType { ident, arguments })
}

//! The type that `Self` stands for, and the segment that it is.
#![tactic(auto, using(crate::proofs::Copies::copy_steps))]

ghost use Rattle.std.specs.Prelude.{◌≡◌, map, IfOk};
ghost use Rattle.dm_ast.specs.Tree.{segment_view, arguments_view, argument_view, type_arg};
ghost use Rattle.dm_ast.specs.Implementors.{name_type};
ghost use Rattle.dm_copy.specs.Segments as spec;

use crate::clone_in::CloneIn;
use crate::joined::{both, grown};
use crate::nodes::{path_of, path_type_of, segment_of, ty_of, type_argument_of};
use dm_ast::{GenericArgument, PathArguments, PathSegment};
use dm_stream::{Ident, Lifetime, Made, Punctuated, Seq, Span};
use std::alloc::Global;

/// An argument of the type that `Self` stands for: what one of its parameters is called.
#[derive(Drop)]
pub enum SelfArgument {
    Lifetime(Lifetime<'static>),
    Name(Ident<'static>),
}

/// The type that `Self` stands for: its name and its arguments. It borrows nothing.
#[derive(Drop)]
pub struct SelfType {
    pub ident: Ident<'static>,
    pub arguments: Seq<SelfArgument>,
}

/// A parameter's name as an argument.
fn name_argument<'a>(ident: &Ident<'a>, alloc: Global) -> Made<GenericArgument<'a>>
    ensures { IfOk result (λ a. argument_view a ≡ type_arg (name_type ident.now)) }
{
    let segment = segment_of(both(Ok(PathArguments::Absent), ident.clone_in(alloc)));
    let path = path_of(grown(Seq::new(alloc), segment), false);
    type_argument_of(ty_of(path_type_of(path), Span::nowhere()))
}

fn self_argument<'a>(argument: &SelfArgument, alloc: Global) -> Made<GenericArgument<'a>>
    ensures { IfOk result (λ a. argument_view a ≡ spec.argument_of argument.now) }
{
    match argument {
        SelfArgument::Lifetime(name) => Ok(GenericArgument::Lifetime(name.clone_in(alloc)?)),
        SelfArgument::Name(ident) => name_argument(ident, alloc),
    }
}

fn self_arguments<'a>(all: &[SelfArgument], alloc: Global) -> Made<Seq<GenericArgument<'a>>>
    ensures { IfOk result (λ r. map argument_view r ≡ map spec.argument_of all.now) }
{
    let mut found = Seq::new(alloc);
    for argument in all {
        found = grown(found, self_argument(argument, alloc))?;
    }
    Ok(found)
}

/// `<..>` around the arguments, where there is any.
fn in_brackets<'a>(all: &[SelfArgument], alloc: Global) -> Made<PathArguments<'a>>
    ensures { IfOk result (λ r. arguments_view r ≡ spec.bracketed (map spec.argument_of all.now)) }
{
    if all.is_empty() {
        return Ok(PathArguments::Absent);
    }
    let items = self_arguments(all, alloc)?;
    Ok(PathArguments::Angle(
        false,
        Punctuated {
            items,
            trailing: false,
        },
    ))
}

/// The type's name with its arguments.
pub(crate) fn self_segment<'a>(own: &SelfType, alloc: Global) -> Made<PathSegment<'a>>
    ensures { IfOk result (λ s. segment_view s ≡ spec.segment_of own.now) }
{
    let arguments = in_brackets(own.arguments.as_slice(), alloc);
    segment_of(both(arguments, own.ident.clone_in(alloc)))
}

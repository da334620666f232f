//! The operators of `core::ops`.
#![tactic(auto, using(crate::proofs::Answering::answer_steps))]

ghost use Rattle.std.specs.Prelude.{◌≡◌, option_map};
ghost use Rattle.dm_stream.specs.declared.error.Error.TheVariants.{Refused};
ghost use Rattle.dm_ast.specs.Declarations.{declaration_view};
ghost use Rattle.dm_operators.specs.Operators.{IsOperator};
ghost use Rattle.dm_operators.specs.Table.{form_view, operator_view};
ghost use Rattle.dm_cmp_ops.specs.Expanded.{IsOfText, IsOperatorAnswer};
ghost use Rattle.dm_cmp_ops.specs.Families as spec;

use crate::reading::with_items;
use dm_ast::DeriveInput;
use dm_expansion::Expansion;
pub use dm_operations::expand::printed;
use dm_operators::operator::{Form, Operator, operator_named};
use dm_stream::{Error, Kind, Read, Refusal, Span};
use std::alloc::Global;

/// The implementation of the operator that [printed] gives the text of, with that text. The refusals are those of [printed].
///
/// The declaration is any that the reader gives of a text, whose names may be declared. The ranges in the implementation are places in its own
/// text.
pub fn derived<'a>(
    alloc: Global,
    operator: &Operator,
    input: &DeriveInput<'a>,
) -> Read<Expansion<'a>>
    requires is_operator { IsOperator (operator_view operator.now) }
    requires of_text { IsOfText (declaration_view input.now) }
    ensures { IsOperatorAnswer (operator_view operator.now) (declaration_view input.now) result }
{
    let text = printed(input, operator, alloc)?;
    with_items(alloc, text)
}

fn is_form(form: Form, other: Form) -> bool
    ensures { result ≡ spec.is_form (form_view form) (form_view other) }
{
    match form {
        Form::Structural => match other {
            Form::Structural => true,
            Form::Scalar => false,
            Form::Unary => false,
        },
        Form::Scalar => match other {
            Form::Structural => false,
            Form::Scalar => true,
            Form::Unary => false,
        },
        Form::Unary => match other {
            Form::Structural => false,
            Form::Scalar => false,
            Form::Unary => true,
        },
    }
}

fn is_same(truth: bool, other: bool) -> bool
    ensures { result ≡ spec.is_same truth other }
{
    if truth { other } else { !other }
}

fn unknown() -> Error
    ensures { result ≡ Refused spec.unknown }
{
    Error::Refused(Refusal {
        kind: Kind::UnknownTrait,
        span: Span { start: 0, end: 0 },
    })
}

fn is_in(form: Form, assigning: bool, operator: &Operator) -> bool
    ensures { result ≡ spec.is_in (form_view form) assigning (operator_view operator.now) }
{
    is_form(form, operator.form) && is_same(assigning, operator.assigning)
}

/// The operator of this name, if its family is that of this form, whose operators assign or do not.
fn member(form: Form, assigning: bool, name: &str) -> Option<Operator>
    ensures { option_map operator_view result ≡ spec.member (form_view form) assigning name.now }
{
    match operator_named(name) {
        None => None,
        Some(operator) => {
            if is_in(form, assigning, &operator) {
                Some(operator)
            } else {
                None
            }
        }
    }
}

/// What the operator of this name answers in its family, or that the name is none of it: `UnknownTrait` at 0..0.
pub(crate) fn expand_in<'a>(
    alloc: Global,
    input: &DeriveInput<'a>,
    trait_name: &str,
    form: Form,
    assigning: bool,
) -> Read<Expansion<'a>>
    requires { IsOfText (declaration_view input.now) }
    ensures { spec.IsFamilyAnswer (form_view form) assigning trait_name.now (declaration_view input.now) result }
{
    match member(form, assigning, trait_name) {
        None => Err(unknown()),
        Some(operator) => derived(alloc, &operator, input),
    }
}

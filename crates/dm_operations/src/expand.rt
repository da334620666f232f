//! From a declaration to the text of an operator's implementation.
#![tactic(auto, using(crate::proofs::Answering::answer_steps))]

ghost use Rattle.std.specs.Prelude.{◌≡◌, None, IfOk, string_bytes};
ghost use Rattle.dm_ast.specs.Declarations.{declaration_view};
ghost use Rattle.dm_operands.specs.Readable.{IsReadable};
ghost use Rattle.dm_operators.specs.Operators.{IsOperator};
ghost use Rattle.dm_operators.specs.Plans.{IsPlan};
ghost use Rattle.dm_operators.specs.Refusals.{refusal};
ghost use Rattle.dm_operators.specs.Laws.{AreFew};
ghost use Rattle.dm_operators.specs.Table.{operator_view};
ghost use Rattle.dm_operations.specs.Expanded as spec;

use crate::printing::printed_item;
use dm_ast::DeriveInput;
use dm_operators::operator::{Implemented, Operator};
use dm_operators::places::{Plan, plan_for};
use dm_stream::{Made, Read};
use std::alloc::Global;

/// The text of the implementation by a plan.
fn written<'x, 'a>(
    input: &'x DeriveInput<'a>,
    plan: &Plan<'x, 'a>,
    operator: &Operator,
    alloc: Global,
) -> Made<String>
    requires is_operator { IsOperator (operator_view operator.now) }
    requires readable { IsReadable (declaration_view input.now) }
    requires unrefused { refusal (operator_view operator.now) (declaration_view input.now) ≡ None }
    requires planned { IsPlan (operator_view operator.now) (declaration_view input.now) plan.now }
    ensures text { IfOk result (λ s. spec.IsText (operator_view operator.now) (declaration_view input.now) (string_bytes s)) }
    ensures few { IfOk result (λ _. AreFew (operator_view operator.now) (declaration_view input.now)) }
{
    let implemented = Implemented {
        form: plan.form,
        operator: *operator,
    };
    printed_item(input, plan.cases.as_slice(), &implemented, alloc)
}

/// The text of the implementation of the operator for the declaration.
///
/// It has the declared parameters, lifetimes first, and one for any right side's type, or for a lone operand the operator as a bound of each
/// type parameter. Behind the declared predicates stands, for each field that isn't skipped, in order and with repeats, that its type has the
/// operator, where it mentions a parameter, or for any right side of every type, and neither `Self` nor the declared type stands in it. The
/// refusals are those of [plan_for].
pub fn printed(input: &DeriveInput<'_>, operator: &Operator, alloc: Global) -> Read<String>
    requires is_operator { IsOperator (operator_view operator.now) }
    requires readable { IsReadable (declaration_view input.now) }
    ensures printed { spec.IsPrinted (operator_view operator.now) (declaration_view input.now) result }
    ensures few { IfOk result (λ _. AreFew (operator_view operator.now) (declaration_view input.now)) }
{
    let plan = plan_for(alloc, input, operator)?;
    Ok(written(input, &plan, operator, alloc)?)
}

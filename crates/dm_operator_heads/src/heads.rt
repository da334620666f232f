//! The trait and the parameters.
#![tactic(auto, using(crate::proofs::HeadSteps::head_steps))]

ghost use Rattle.std.specs.Prelude.{◌≡◌, [], ◌∷◌, ◌++◌, OnOk};
ghost use Rattle.dm_ast.specs.Tree.{type_arg};
ghost use Rattle.dm_ast.specs.TypeTokens.{arguments_trees};
ghost use Rattle.dm_output.specs.Tokens as tokens;
ghost use Rattle.dm_print_types.specs.Prelude.{nowhere, ty_view, path_trees, declaration_view, lay};
ghost use Rattle.dm_bounds.specs.RightSide.{right_type};
ghost use Rattle.dm_operators.specs.Heads as spec;
ghost use Rattle.dm_operators.specs.Predicates as traits;
ghost use Rattle.dm_operators.specs.Operators.{scalar};
ghost use Rattle.dm_operators.specs.Table.{form_view, operator_view};
ghost use Rattle.dm_operator_heads.specs.Outputs as parts;

use dm_ast::{DeriveInput, Ty};
use dm_layout::{Layout, Printed};
use dm_operators::operator::{Form, Implemented, Operator};
use dm_print_types::path::ty;
use dm_print_types::token::{fixed, punct, word};
use dm_sides::heads::declared_params;
use dm_sides::params::{bounded_params, params_with};

/// Adds the declared parameters, and what the form adds to them.
pub fn params<'a>(input: &DeriveInput<'a>, implemented: &Implemented, out: &mut Layout) -> Printed
    ensures { OnOk result (out.new ≡ lay out.old (tokens.params_trees (spec.item_params (form_view implemented.now.form) (operator_view implemented.now.operator) (declaration_view input.now)))) }
{
    match implemented.form {
        Form::Structural => declared_params(input, out),
        Form::Scalar => params_with(input, "__derive_more_Rhs", out),
        Form::Unary => bounded_params(input, implemented.operator.trait_name, out),
    }
}

/// Adds the trait's path but for its arguments.
fn trait_name(operator: &Operator, out: &mut Layout) -> Printed
    ensures { OnOk result (out.new ≡ lay out.old (path_trees nowhere (traits.trait_with (operator_view operator.now) []))) }
{
    fixed(out, "derive_more :: core :: ops ::")?;
    word(out, operator.trait_name)
}

/// Adds `<__derive_more_Rhs>`, where any right side is taken.
fn right_argument(form: Form, out: &mut Layout) -> Printed
    ensures { OnOk result (out.new ≡ lay out.old (arguments_trees nowhere (traits.angled (traits.right_argument (form_view form))))) }
{
    match form {
        Form::Structural => Ok(()),
        Form::Scalar => fixed(out, "< __derive_more_Rhs >"),
        Form::Unary => Ok(()),
    }
}

/// Adds the path of the trait that is implemented.
pub fn implemented_trait(implemented: &Implemented, out: &mut Layout) -> Printed
    ensures { OnOk result (out.new ≡ lay out.old (path_trees nowhere (traits.implemented (form_view implemented.now.form) (operator_view implemented.now.operator)))) }
{
    trait_name(&implemented.operator, out)?;
    right_argument(implemented.form, out)
}

/// Adds `<Output = T>`.
fn output_given(of: &Ty<'_>, out: &mut Layout) -> Printed
    ensures { OnOk result (out.new ≡ lay out.old (arguments_trees nowhere (traits.angled (parts.output_given (ty_view of.now) ∷ [])))) }
{
    fixed(out, "< Output =")?;
    ty(of, out)?;
    punct(out, '>')
}

/// Adds `<Output = T>`, which assigning traits don't have.
fn output_argument(of: &Ty<'_>, operator: &Operator, out: &mut Layout) -> Printed
    ensures { OnOk result (out.new ≡ lay out.old (arguments_trees nowhere (traits.angled (traits.output_argument (operator_view operator.now) (ty_view of.now))))) }
{
    if operator.assigning {
        return Ok(());
    }
    output_given(of, out)
}

/// Adds `<__derive_more_Rhs, Output = T>`.
fn both_given(of: &Ty<'_>, out: &mut Layout) -> Printed
    ensures { OnOk result (out.new ≡ lay out.old (arguments_trees nowhere (traits.angled (type_arg right_type ∷ parts.output_given (ty_view of.now) ∷ [])))) }
{
    fixed(out, "< __derive_more_Rhs , Output =")?;
    ty(of, out)?;
    punct(out, '>')
}

/// Adds `<__derive_more_Rhs, Output = T>`, of which assigning traits have the first alone.
fn both_arguments(of: &Ty<'_>, operator: &Operator, out: &mut Layout) -> Printed
    ensures { OnOk result (out.new ≡ lay out.old (arguments_trees nowhere (traits.angled (traits.right_argument scalar ++ traits.output_argument (operator_view operator.now) (ty_view of.now))))) }
{
    if operator.assigning {
        return fixed(out, "< __derive_more_Rhs >");
    }
    both_given(of, out)
}

fn asked_arguments(of: &Ty<'_>, implemented: &Implemented, out: &mut Layout) -> Printed
    ensures { OnOk result (out.new ≡ lay out.old (arguments_trees nowhere (traits.angled (traits.right_argument (form_view implemented.now.form) ++
        traits.output_argument (operator_view implemented.now.operator) (ty_view of.now))))) }
{
    let operator = &implemented.operator;
    match implemented.form {
        Form::Structural => output_argument(of, operator, out),
        Form::Scalar => both_arguments(of, operator, out),
        Form::Unary => output_argument(of, operator, out),
    }
}

/// Adds the path of the trait that is asked of a field's type, whose operation gives that type again.
pub(crate) fn asked_trait(of: &Ty<'_>, implemented: &Implemented, out: &mut Layout) -> Printed
    ensures { OnOk result (out.new ≡ lay out.old (path_trees nowhere (traits.asked (form_view implemented.now.form) (operator_view implemented.now.operator) (ty_view of.now)))) }
{
    trait_name(&implemented.operator, out)?;
    asked_arguments(of, implemented, out)
}

//! The arms for one operand.
#![tactic(auto, using(crate::proofs::Values::value_steps))]

ghost use Rattle.std.specs.Prelude.{◌≡◌, map, OnOk};
ghost use Rattle.dm_ast.specs.TypeTokens as syntax;
ghost use Rattle.dm_output.specs.Output.{arms_of};
ghost use Rattle.dm_output.specs.Tokens as tokens;
ghost use Rattle.dm_print_types.specs.Prelude.{nowhere, declaration_view, lay};
ghost use Rattle.dm_operands.specs.Sides as sides;
ghost use Rattle.dm_operands.specs.CaseViews.{case_view};
ghost use Rattle.dm_operators.specs.Bodies as spec;
ghost use Rattle.dm_operators.specs.Table.{operator_view};

use crate::arms::is_unit_form;
use crate::calls::unary_unit;
use crate::constructor::value_fields;
use crate::parts::Part;
use dm_ast::DeriveInput;
use dm_layout::{Layout, Printed};
use dm_operands::cases::CaseRef;
use dm_operands::sides::Operand;
use dm_operators::operator::Operator;
use dm_print_types::token::{close, fixed, joint, name, open, punct};
use dm_sides::pattern::case_fields;
use dm_stream::{Delim, Ident};

/// Adds `TYPE::V`.
fn variant_path(input: &DeriveInput<'_>, ident: &Ident<'_>, out: &mut Layout) -> Printed
    ensures { OnOk result (out.new ≡ lay out.old (syntax.path_trees nowhere (spec.variant_path (declaration_view input.now) ident.now))) }
{
    name(out, &input.ident)?;
    joint(out, ':', ':')?;
    name(out, ident)
}

/// Whether one of them has neither parentheses nor braces.
pub(crate) fn some_unit_form(cases: &[CaseRef<'_, '_>]) -> bool
    ensures { result ≡ spec.some_unit_form (map case_view cases.now) }
{
    for case in cases {
        if is_unit_form(case.form) {
            return true;
        }
    }
    false
}

/// Adds the variant's value with the operation in its fields.
fn inner_value(
    input: &DeriveInput<'_>,
    case: &CaseRef<'_, '_>,
    operator: &Operator,
    out: &mut Layout,
) -> Printed
    ensures { OnOk result (out.new ≡ lay out.old (tokens.expr_trees (spec.constructor (spec.inner_part (operator_view operator.now)) (spec.variant_path (declaration_view input.now) (case_view case.now).ident) (case_view case.now).form (case_view case.now).fields))) }
{
    variant_path(input, case.ident, out)?;
    value_fields(case, operator, Part::Inner, out)
}

/// Adds the value inside `Ok (..)`, where it is wanted.
fn inner_in_ok(
    input: &DeriveInput<'_>,
    case: &CaseRef<'_, '_>,
    operator: &Operator,
    wanted: bool,
    out: &mut Layout,
) -> Printed
    ensures { OnOk result (out.new ≡ lay out.old (tokens.expr_trees (spec.in_ok wanted (spec.constructor (spec.inner_part (operator_view operator.now)) (spec.variant_path (declaration_view input.now) (case_view case.now).ident) (case_view case.now).form (case_view case.now).fields)))) }
{
    if wanted {
        fixed(out, "derive_more :: core :: result :: Result :: Ok (")?;
        inner_value(input, case, operator, out)?;
        return close(out, Delim::Paren);
    }
    inner_value(input, case, operator, out)
}

/// Adds the body of an arm: a unit fails, and so the others stand inside `Ok`.
fn unary_given(
    input: &DeriveInput<'_>,
    case: &CaseRef<'_, '_>,
    operator: &Operator,
    fails: bool,
    out: &mut Layout,
) -> Printed
    ensures { OnOk result (out.new ≡ lay out.old (tokens.body_trees (spec.unary_given (operator_view operator.now) (declaration_view input.now) fails (case_view case.now)))) }
{
    if is_unit_form(case.form) {
        return unary_unit(operator, out);
    }
    open(out, Delim::Brace)?;
    inner_in_ok(input, case, operator, fails, out)?;
    close(out, Delim::Brace)
}

fn unary_pattern(input: &DeriveInput<'_>, case: &CaseRef<'_, '_>, out: &mut Layout) -> Printed
    ensures { OnOk result (out.new ≡ lay out.old (tokens.pattern_trees (
        sides.side_pattern spec.inner_name (spec.variant_path (declaration_view input.now) (case_view case.now).ident) (case_view case.now).form (case_view case.now).fields))) }
{
    variant_path(input, case.ident, out)?;
    case_fields(case, Operand::Inner, out)
}

fn unary_arm(
    input: &DeriveInput<'_>,
    case: &CaseRef<'_, '_>,
    operator: &Operator,
    fails: bool,
    out: &mut Layout,
) -> Printed
    ensures { OnOk result (out.new ≡ lay out.old (tokens.arm_trees (spec.unary_arm (operator_view operator.now) (declaration_view input.now) fails (case_view case.now)))) }
{
    unary_pattern(input, case, out)?;
    joint(out, '=', '>')?;
    unary_given(input, case, operator, fails, out)?;
    punct(out, ',')
}

/// Adds an arm for each variant.
pub(crate) fn unary_arms(
    input: &DeriveInput<'_>,
    cases: &[CaseRef<'_, '_>],
    operator: &Operator,
    fails: bool,
    out: &mut Layout,
) -> Printed
    ensures { OnOk result (out.new ≡ lay out.old (tokens.arms_trees (arms_of (map (spec.unary_arm (operator_view operator.now) (declaration_view input.now) fails) (map case_view cases.now))))) }
{
    for case in cases {
        unary_arm(input, case, operator, fails, out)?;
    }
    Ok(())
}

/// Adds the struct's value, by its own name.
pub(crate) fn own_value(
    input: &DeriveInput<'_>,
    case: &CaseRef<'_, '_>,
    operator: &Operator,
    out: &mut Layout,
) -> Printed
    ensures { OnOk result (out.new ≡ lay out.old (tokens.expr_trees (spec.own_value (operator_view operator.now) (declaration_view input.now) (case_view case.now)))) }
{
    name(out, &input.ident)?;
    value_fields(case, operator, Part::Own(case.form), out)
}

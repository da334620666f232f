//! The arms for two operands: of a case each.
#![tactic(auto, using(crate::proofs::Values::value_steps))]

ghost use Rattle.std.specs.Prelude.{◌≡◌, ◌++◌, not, map, IfOk, OnOk};
ghost use Rattle.dm_ast.specs.TypeTokens.{given};
ghost use Rattle.dm_output.specs.Output.{arms_of, do_stmt, stmts_of};
ghost use Rattle.dm_output.specs.Tokens as tokens;
ghost use Rattle.dm_print_types.specs.Prelude.{declaration_view, lay};
ghost use Rattle.dm_operands.specs.CaseViews.{case_view, field_ref_view};
ghost use Rattle.dm_operators.specs.Operators as ops;
ghost use Rattle.dm_operators.specs.Bodies as spec;
ghost use Rattle.dm_operators.specs.Table.{form_view, operator_view};

use crate::calls::{binary_unit, mismatch};
use crate::constructor::value_fields;
use crate::parts::{Part, binary_call};
use dm_ast::DeriveInput;
use dm_layout::{Layout, Printed};
use dm_operands::cases::{self, CaseRef, FieldRef, is_enum};
use dm_operands::places::add;
use dm_operands::sides::Operand;
use dm_operators::operator::{Form, Implemented, Operator};
use dm_print_types::token::{close, fixed, joint, open, punct};
use dm_sides::pattern::{case_path, side};
use dm_stream::{Delim, Made};
use std::alloc::Global;

/// The fields, none of which is left out.
fn all_fields<'x, 'a>(fields: &[FieldRef<'x, 'a>], alloc: Global) -> Made<Vec<FieldRef<'x, 'a>>>
    ensures { IfOk result (λ fs. map field_ref_view fs.items ≡ map spec.keep (map field_ref_view fields.now)) }
{
    let mut out = Vec::with_capacity(alloc, fields.len())?;
    for field in fields {
        let kept = FieldRef {
            field: field.field,
            left_out: false,
        };
        add(&mut out, kept)?;
    }
    Ok(out)
}

/// The case with all of its fields.
fn whole_case<'x, 'a>(case: &CaseRef<'x, 'a>, alloc: Global) -> Made<CaseRef<'x, 'a>>
    ensures { IfOk result (λ c. case_view c ≡ spec.whole (case_view case.now)) }
{
    let fields = all_fields(case.fields.as_slice(), alloc)?;
    Ok(CaseRef {
        ident: case.ident,
        form: case.form,
        left_out: case.left_out,
        fields,
    })
}

/// Adds the patterns of self and the right side.
fn both_sides(input: &DeriveInput<'_>, case: &CaseRef<'_, '_>, out: &mut Layout) -> Printed
    ensures { OnOk result (out.new ≡ lay out.old (tokens.pattern_trees (spec.sides ops.structural (declaration_view input.now) (case_view case.now)))) }
{
    open(out, Delim::Paren)?;
    side(input, case, Operand::Mine, out)?;
    punct(out, ',')?;
    side(input, case, Operand::Right, out)?;
    close(out, Delim::Paren)
}

/// Adds the patterns of self and the right side, or of self alone.
fn sides(input: &DeriveInput<'_>, case: &CaseRef<'_, '_>, form: Form, out: &mut Layout) -> Printed
    ensures { OnOk result (out.new ≡ lay out.old (tokens.pattern_trees (spec.sides (form_view form) (declaration_view input.now) (case_view case.now)))) }
{
    match form {
        Form::Structural => both_sides(input, case, out),
        Form::Scalar => side(input, case, Operand::Mine, out),
        Form::Unary => side(input, case, Operand::Mine, out),
    }
}

/// Adds the pattern: a method that gives a value binds all fields, and an assigning one those that it changes.
fn binary_pattern(
    input: &DeriveInput<'_>,
    case: &CaseRef<'_, '_>,
    implemented: &Implemented,
    out: &mut Layout,
) -> Printed
    ensures { OnOk result (out.new ≡ lay out.old (tokens.pattern_trees (spec.binary_pattern (form_view implemented.now.form) (operator_view implemented.now.operator) (declaration_view input.now) (case_view case.now)))) }
{
    if implemented.operator.assigning {
        return sides(input, case, implemented.form, out);
    }
    let whole = whole_case(case, out.allocator())?;
    sides(input, &whole, implemented.form, out)
}

/// Adds the value of the case with the operation in its kept fields.
fn value_given(
    input: &DeriveInput<'_>,
    case: &CaseRef<'_, '_>,
    operator: &Operator,
    form: Form,
    out: &mut Layout,
) -> Printed
    ensures { OnOk result (out.new ≡ lay out.old (tokens.expr_trees (spec.value_given (form_view form) (operator_view operator.now) (declaration_view input.now) (case_view case.now)))) }
{
    case_path(input, case.ident, out)?;
    value_fields(case, operator, Part::Binary(form), out)
}

pub(crate) fn is_unit_form(form: cases::Form) -> bool
    ensures { result ≡ spec.is_unit_form form }
{
    match form {
        cases::Form::Named => false,
        cases::Form::Unnamed => false,
        cases::Form::Unit => true,
    }
}

/// Adds the value inside `Ok (..)`, where it is wanted.
fn value_in_ok(
    input: &DeriveInput<'_>,
    case: &CaseRef<'_, '_>,
    operator: &Operator,
    wanted: bool,
    out: &mut Layout,
) -> Printed
    ensures { OnOk result (out.new ≡ lay out.old (tokens.expr_trees (spec.in_ok wanted (spec.value_given ops.structural (operator_view operator.now) (declaration_view input.now) (case_view case.now))))) }
{
    if wanted {
        fixed(out, "derive_more :: core :: result :: Result :: Ok (")?;
        value_given(input, case, operator, Form::Structural, out)?;
        return close(out, Delim::Paren);
    }
    value_given(input, case, operator, Form::Structural, out)
}

/// Adds what two values give, where an enum gives a `Result`.
fn structural_answer(
    input: &DeriveInput<'_>,
    case: &CaseRef<'_, '_>,
    operator: &Operator,
    out: &mut Layout,
) -> Printed
    ensures { OnOk result (out.new ≡ lay out.old (tokens.expr_trees (spec.answer_given ops.structural (operator_view operator.now) (declaration_view input.now) (case_view case.now)))) }
{
    if is_unit_form(case.form) {
        return binary_unit(operator, out);
    }
    value_in_ok(input, case, operator, is_enum(input), out)
}

fn answer_given(
    input: &DeriveInput<'_>,
    case: &CaseRef<'_, '_>,
    implemented: &Implemented,
    out: &mut Layout,
) -> Printed
    ensures { OnOk result (out.new ≡ lay out.old (tokens.expr_trees (spec.answer_given (form_view implemented.now.form) (operator_view implemented.now.operator) (declaration_view input.now) (case_view case.now)))) }
{
    let operator = &implemented.operator;
    match implemented.form {
        Form::Structural => structural_answer(input, case, operator, out),
        Form::Scalar => value_given(input, case, operator, Form::Scalar, out),
        Form::Unary => value_given(input, case, operator, Form::Unary, out),
    }
}

/// Adds the call of a field that is kept, as a statement.
fn call(implemented: &Implemented, n: usize, left_out: bool, out: &mut Layout) -> Printed
    ensures { OnOk result (out.new ≡ lay out.old (given (not left_out) (tokens.stmt_trees (do_stmt (spec.binary_call (form_view implemented.now.form) (operator_view implemented.now.operator) n))))) }
{
    if left_out {
        return Ok(());
    }
    binary_call(&implemented.operator, implemented.form, n, out)?;
    punct(out, ';')
}

/// Adds the calls of the kept fields.
fn calls(fields: &[FieldRef<'_, '_>], implemented: &Implemented, out: &mut Layout) -> Printed
    ensures { OnOk result (out.new ≡ lay out.old (tokens.stmts_trees (stmts_of (spec.assigning_calls (form_view implemented.now.form) (operator_view implemented.now.operator) 0 (map field_ref_view fields.now))))) }
{
    for (n, field) in fields.iter().enumerate() {
        call(implemented, n, field.left_out, out)?;
    }
    Ok(())
}

/// Adds the body of an arm: an assigning operator calls, another one gives a value.
fn binary_given(
    input: &DeriveInput<'_>,
    case: &CaseRef<'_, '_>,
    implemented: &Implemented,
    out: &mut Layout,
) -> Printed
    ensures { OnOk result (out.new ≡ lay out.old (tokens.body_trees (spec.binary_given (form_view implemented.now.form) (operator_view implemented.now.operator) (declaration_view input.now) (case_view case.now)))) }
{
    if implemented.operator.assigning {
        open(out, Delim::Brace)?;
        calls(case.fields.as_slice(), implemented, out)?;
        return close(out, Delim::Brace);
    }
    answer_given(input, case, implemented, out)
}

fn binary_arm(
    input: &DeriveInput<'_>,
    case: &CaseRef<'_, '_>,
    implemented: &Implemented,
    out: &mut Layout,
) -> Printed
    ensures { OnOk result (out.new ≡ lay out.old (tokens.arm_trees (spec.binary_arm (form_view implemented.now.form) (operator_view implemented.now.operator) (declaration_view input.now) (case_view case.now)))) }
{
    binary_pattern(input, case, implemented, out)?;
    joint(out, '=', '>')?;
    binary_given(input, case, implemented, out)?;
    punct(out, ',')
}

/// Adds the body for two values of different variants: an error, or nothing is assigned.
fn different_body(operator: &Operator, out: &mut Layout) -> Printed
    ensures { OnOk result (out.new ≡ lay out.old (tokens.body_trees (spec.different_body (operator_view operator.now)))) }
{
    if operator.assigning {
        return fixed(out, "{ }");
    }
    mismatch(operator, out)
}

fn different(operator: &Operator, out: &mut Layout) -> Printed
    ensures { OnOk result (out.new ≡ lay out.old (tokens.arm_trees (spec.different (operator_view operator.now)))) }
{
    fixed(out, "_ =>")?;
    different_body(operator, out)?;
    punct(out, ',')
}

/// Whether there are such values.
fn has_rest(cases: &[CaseRef<'_, '_>], form: Form) -> bool
    ensures { result ≡ spec.has_rest (form_view form) (map case_view cases.now) }
{
    match form {
        Form::Structural => cases.len() > 1,
        Form::Scalar => false,
        Form::Unary => false,
    }
}

/// Adds their arm, where there are some.
fn rest(cases: &[CaseRef<'_, '_>], implemented: &Implemented, out: &mut Layout) -> Printed
    ensures { OnOk result (out.new ≡ lay out.old (tokens.arms_trees (arms_of (spec.rest (form_view implemented.now.form) (operator_view implemented.now.operator) (map case_view cases.now))))) }
{
    if has_rest(cases, implemented.form) {
        return different(&implemented.operator, out);
    }
    Ok(())
}

/// Adds an arm for each case, and perhaps one for values of different variants.
pub(crate) fn binary_arms(
    input: &DeriveInput<'_>,
    cases: &[CaseRef<'_, '_>],
    implemented: &Implemented,
    out: &mut Layout,
) -> Printed
    ensures { OnOk result (out.new ≡ lay out.old (tokens.arms_trees (arms_of (
        map (spec.binary_arm (form_view implemented.now.form) (operator_view implemented.now.operator) (declaration_view input.now)) (map case_view cases.now) ++
        spec.rest (form_view implemented.now.form) (operator_view implemented.now.operator) (map case_view cases.now))))) }
{
    for case in cases {
        binary_arm(input, case, implemented, out)?;
    }
    rest(cases, implemented, out)
}

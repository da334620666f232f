//! The bodies of operators' methods.
#![tactic(auto, using(crate::proofs::Values::value_steps))]

ghost use Rattle.std.specs.Prelude.{◌≡◌, map, OnOk};
ghost use Rattle.dm_output.specs.Tokens as tokens;
ghost use Rattle.dm_print_types.specs.Prelude.{declaration_view, lay};
ghost use Rattle.dm_operands.specs.CaseViews.{case_view};
ghost use Rattle.dm_operators.specs.Operators as ops;
ghost use Rattle.dm_operators.specs.Bodies as spec;
ghost use Rattle.dm_operators.specs.Table.{form_view, operator_view};

use crate::arms::binary_arms;
use crate::unary::{own_value, some_unit_form, unary_arms};
use dm_ast::DeriveInput;
use dm_layout::{Layout, Printed};
use dm_operands::cases::{CaseRef, is_enum};
use dm_operators::operator::{Form, Implemented, Operator};
use dm_print_types::token::{close, fixed, open, word};
use dm_stream::Delim;

/// Adds what is matched.
fn subject(form: Form, out: &mut Layout) -> Printed
    ensures { OnOk result (out.new ≡ lay out.old (tokens.expr_trees (spec.subject (form_view form)))) }
{
    match form {
        Form::Structural => fixed(out, "(self , __rhs)"),
        Form::Scalar => word(out, "self"),
        Form::Unary => word(out, "self"),
    }
}

fn binary_body(
    input: &DeriveInput<'_>,
    cases: &[CaseRef<'_, '_>],
    implemented: &Implemented,
    out: &mut Layout,
) -> Printed
    ensures { OnOk result (out.new ≡ lay out.old (tokens.expr_trees (spec.binary_body (form_view implemented.now.form) (operator_view implemented.now.operator) (declaration_view input.now) (map case_view cases.now)))) }
{
    if cases.is_empty() {
        return fixed(out, "match self { }");
    }
    word(out, "match")?;
    subject(implemented.form, out)?;
    open(out, Delim::Brace)?;
    binary_arms(input, cases, implemented, out)?;
    close(out, Delim::Brace)
}

/// Adds the body for one operand of an enum.
fn unary_enum(
    input: &DeriveInput<'_>,
    cases: &[CaseRef<'_, '_>],
    operator: &Operator,
    out: &mut Layout,
) -> Printed
    ensures { OnOk result (out.new ≡ lay out.old (tokens.expr_trees (spec.unary_enum (operator_view operator.now) (declaration_view input.now) (map case_view cases.now)))) }
{
    fixed(out, "match self {")?;
    unary_arms(input, cases, operator, some_unit_form(cases), out)?;
    close(out, Delim::Brace)
}

/// Adds the body for a struct, which is its only case.
fn unary_struct(
    input: &DeriveInput<'_>,
    cases: &[CaseRef<'_, '_>],
    operator: &Operator,
    out: &mut Layout,
) -> Printed
    ensures { OnOk result (out.new ≡ lay out.old (tokens.expr_trees (spec.unary_struct (operator_view operator.now) (declaration_view input.now) (map case_view cases.now)))) }
{
    match cases {
        [] => fixed(out, "match self { }"),
        [case, ..] => own_value(input, case, operator, out),
    }
}

fn unary_body(
    input: &DeriveInput<'_>,
    cases: &[CaseRef<'_, '_>],
    operator: &Operator,
    out: &mut Layout,
) -> Printed
    ensures { OnOk result (out.new ≡ lay out.old (tokens.expr_trees (spec.body_expr ops.unary (operator_view operator.now) (declaration_view input.now) (map case_view cases.now)))) }
{
    if is_enum(input) {
        return unary_enum(input, cases, operator, out);
    }
    unary_struct(input, cases, operator, out)
}

/// Adds the body, by what stands right of self.
pub fn body(
    input: &DeriveInput<'_>,
    cases: &[CaseRef<'_, '_>],
    implemented: &Implemented,
    out: &mut Layout,
) -> Printed
    ensures { OnOk result (out.new ≡ lay out.old (tokens.expr_trees (spec.body_expr (form_view implemented.now.form) (operator_view implemented.now.operator) (declaration_view input.now) (map case_view cases.now)))) }
{
    match implemented.form {
        Form::Structural => binary_body(input, cases, implemented, out),
        Form::Scalar => binary_body(input, cases, implemented, out),
        Form::Unary => unary_body(input, cases, &implemented.operator, out),
    }
}

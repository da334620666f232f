//! What stands for each field of the value that an operator gives.
#![tactic(auto, using(crate::proofs::Values::value_steps))]

ghost use Rattle.std.specs.Prelude.{◌≡◌, [], ◌∷◌, cond, OnOk, IfOk, string_bytes};
ghost use Rattle.dm_stream.specs.declared.tokens.LitKind.TheVariants as kinds;
ghost use Rattle.dm_ast.specs.TypeTokens as syntax;
ghost use Rattle.dm_output.specs.Tokens as tokens;
ghost use Rattle.dm_generics.specs.Numerals.{numeral};
ghost use Rattle.dm_print_types.specs.Prelude.{nowhere, lay};
ghost use Rattle.dm_operands.specs.Bodies as bodies;
ghost use Rattle.dm_operands.specs.CaseViews.{field_ref_view};
ghost use Rattle.dm_operands.specs.Numbered.{self_name};
ghost use Rattle.dm_operators.specs.Bodies as spec;
ghost use Rattle.dm_operators.specs.Table.{form_view, operator_view};
ghost use Rattle.dm_operator_prints.specs.Parts.{part_by};

use crate::calls::method_path;
use dm_layout::{Layout, Printed};
use dm_operands::cases::{self, FieldRef};
use dm_operands::sides::Operand;
use dm_operators::operator::{Form, Operator};
use dm_print_types::token::{close, fixed, literal, open, punct, word};
use dm_sides::pattern::{field_name, numbered};
use dm_stream::{Delim, LitKind, Literal, Made, Span, Text};
use std::alloc::Global;

/// How the operation on a field is called.
#[derive(Clone, Copy, Debug, PartialEq, Eq)]
pub(crate) enum Part {
    /// With the left operand's field, and the right operand's or the right side. A field that is left out stays as it is.
    Binary(Form),
    /// With the variable of the only operand's field.
    Inner,
    /// With the field of self, whose fields stand so.
    Own(cases::Form),
}

fn right_operand(form: Form, n: usize, out: &mut Layout) -> Printed
    ensures { OnOk result (out.new ≡ lay out.old (tokens.expr_trees (spec.right_operand (form_view form) n))) }
{
    match form {
        Form::Structural => numbered(Operand::Right, n, out),
        Form::Scalar => word(out, "__rhs"),
        Form::Unary => word(out, "__rhs"),
    }
}

/// Adds the operation on a field of the left operand.
pub(crate) fn binary_call(operator: &Operator, form: Form, n: usize, out: &mut Layout) -> Printed
    ensures { OnOk result (out.new ≡ lay out.old (tokens.expr_trees (spec.binary_call (form_view form) (operator_view operator.now) n))) }
{
    method_path(operator, out)?;
    open(out, Delim::Paren)?;
    numbered(Operand::Mine, n, out)?;
    punct(out, ',')?;
    right_operand(form, n, out)?;
    close(out, Delim::Paren)
}

fn binary_part(
    operator: &Operator,
    form: Form,
    n: usize,
    left_out: bool,
    out: &mut Layout,
) -> Printed
    ensures { OnOk result (out.new ≡ lay out.old (tokens.expr_trees (cond left_out (bodies.name (self_name n)) (spec.binary_call (form_view form) (operator_view operator.now) n)))) }
{
    if left_out {
        return numbered(Operand::Mine, n, out);
    }
    binary_call(operator, form, n, out)
}

fn inner_part(operator: &Operator, n: usize, out: &mut Layout) -> Printed
    ensures { OnOk result (out.new ≡ lay out.old (tokens.expr_trees (spec.operation_call (operator_view operator.now) (bodies.name (spec.inner_name n) ∷ [])))) }
{
    method_path(operator, out)?;
    open(out, Delim::Paren)?;
    numbered(Operand::Inner, n, out)?;
    close(out, Delim::Paren)
}

/// The digits of a number.
fn digits(n: usize, alloc: Global) -> Made<String>
    ensures { IfOk result (λ s. string_bytes s ≡ numeral n) }
{
    format!(in alloc; "{n}")
}

/// Adds a field's number.
fn index(n: usize, out: &mut Layout) -> Printed
    ensures { OnOk result (out.new ≡ lay out.old (syntax.literal (record { kind = kinds.Int; text = numeral n; span = nowhere }))) }
{
    let number = Literal {
        kind: LitKind::Int,
        text: Text::owned(digits(n, out.allocator())?),
        span: Span::nowhere(),
    };
    literal(out, &number)
}

/// Adds what stands behind the dot.
fn member_of(field: &FieldRef<'_, '_>, form: cases::Form, n: usize, out: &mut Layout) -> Printed
    ensures { OnOk result (out.new ≡ lay out.old (tokens.member_trees (spec.member_of form n (field_ref_view field.now)))) }
{
    match form {
        cases::Form::Named => field_name(&field.field.ident, out),
        cases::Form::Unnamed => index(n, out),
        cases::Form::Unit => index(n, out),
    }
}

fn own_part(
    field: &FieldRef<'_, '_>,
    operator: &Operator,
    form: cases::Form,
    n: usize,
    out: &mut Layout,
) -> Printed
    ensures { OnOk result (out.new ≡ lay out.old (tokens.expr_trees (spec.own_part (operator_view operator.now) form n (field_ref_view field.now)))) }
{
    method_path(operator, out)?;
    fixed(out, "(self .")?;
    member_of(field, form, n, out)?;
    close(out, Delim::Paren)
}

/// Adds what stands for a field.
pub(crate) fn part_of(
    field: &FieldRef<'_, '_>,
    operator: &Operator,
    part: Part,
    n: usize,
    out: &mut Layout,
) -> Printed
    ensures { OnOk result (out.new ≡ lay out.old (tokens.expr_trees (part_by part (operator_view operator.now) n (field_ref_view field.now)))) }
{
    match part {
        Part::Binary(form) => binary_part(operator, form, n, field.left_out, out),
        Part::Inner => inner_part(operator, n, out),
        Part::Own(form) => own_part(field, operator, form, n, out),
    }
}

//! The value of a case, with what stands for each of its fields.
#![tactic(auto, using(crate::proofs::Values::value_steps))]

ghost use Rattle.std.specs.Prelude.{◌≡◌, map, OnOk};
ghost use Rattle.dm_stream.specs.Trees.{join};
ghost use Rattle.dm_ast.specs.TypeTokens as syntax;
ghost use Rattle.dm_output.specs.Output.{exprs_of, named_exprs_of};
ghost use Rattle.dm_output.specs.Tokens as tokens;
ghost use Rattle.dm_print_types.specs.Laying.{lay};
ghost use Rattle.dm_operands.specs.Sides as sides;
ghost use Rattle.dm_operands.specs.CaseViews.{case_view, field_ref_view};
ghost use Rattle.dm_operators.specs.Bodies as spec;
ghost use Rattle.dm_operators.specs.Table.{operator_view};
ghost use Rattle.dm_operator_prints.specs.Parts.{part_by, value_trees};

use crate::parts::{Part, part_of};
use dm_layout::{Layout, Printed};
use dm_operands::cases::{CaseRef, FieldRef, Form};
use dm_operators::operator::Operator;
use dm_print_types::token::{close, open, punct};
use dm_sides::pattern::field_name;
use dm_stream::Delim;

/// Adds what stands for each field, with a comma behind it.
fn parts(fields: &[FieldRef<'_, '_>], operator: &Operator, part: Part, out: &mut Layout) -> Printed
    ensures { OnOk result (out.new ≡ lay out.old (tokens.ended (tokens.each_expr (exprs_of (spec.parts (part_by part (operator_view operator.now)) 0 (map field_ref_view fields.now)))))) }
{
    for (n, field) in fields.iter().enumerate() {
        part_of(field, operator, part, n, out)?;
        punct(out, ',')?;
    }
    Ok(())
}

fn named_part(
    field: &FieldRef<'_, '_>,
    operator: &Operator,
    part: Part,
    n: usize,
    out: &mut Layout,
) -> Printed
    ensures { OnOk result (out.new ≡ lay out.old (join (join (syntax.name (sides.field_ident (field_ref_view field.now).field.ident)) (join tokens.colon (tokens.expr_trees (part_by part (operator_view operator.now) n (field_ref_view field.now))))) tokens.comma)) }
{
    field_name(&field.field.ident, out)?;
    punct(out, ':')?;
    part_of(field, operator, part, n, out)?;
    punct(out, ',')
}

/// Adds each behind its field's name.
fn named_parts(
    fields: &[FieldRef<'_, '_>],
    operator: &Operator,
    part: Part,
    out: &mut Layout,
) -> Printed
    ensures { OnOk result (out.new ≡ lay out.old (tokens.ended (tokens.each_named_expr (named_exprs_of (spec.named_parts (part_by part (operator_view operator.now)) 0 (map field_ref_view fields.now)))))) }
{
    for (n, field) in fields.iter().enumerate() {
        named_part(field, operator, part, n, out)?;
    }
    Ok(())
}

/// Adds what stands behind the path of the value: in parentheses, in braces, or nothing.
pub(crate) fn value_fields(
    case: &CaseRef<'_, '_>,
    operator: &Operator,
    part: Part,
    out: &mut Layout,
) -> Printed
    ensures { OnOk result (out.new ≡ lay out.old (value_trees (part_by part (operator_view operator.now)) (case_view case.now).form (case_view case.now).fields)) }
{
    let fields = case.fields.as_slice();
    match case.form {
        Form::Named => {
            open(out, Delim::Brace)?;
            named_parts(fields, operator, part, out)?;
            close(out, Delim::Brace)
        }
        Form::Unnamed => {
            open(out, Delim::Paren)?;
            parts(fields, operator, part, out)?;
            close(out, Delim::Paren)
        }
        Form::Unit => Ok(()),
    }
}

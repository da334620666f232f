//! The pattern of an operand of a case, as text.
#![tactic(auto, using(crate::proofs::Patterns::pattern_steps))]

ghost use Rattle.std.specs.Prelude.{◌≡◌, map, OnOk};
ghost use Rattle.dm_stream.specs.Trees.{join};
ghost use Rattle.dm_ast.specs.TypeTokens as syntax;
ghost use Rattle.dm_output.specs.Output.{patterns_of, named_of};
ghost use Rattle.dm_output.specs.Tokens as tokens;
ghost use Rattle.dm_print_types.specs.Prelude.{nowhere, declaration_view, lay};
ghost use Rattle.dm_operands.specs.Sides as spec;
ghost use Rattle.dm_sides.specs.Fields.{fields_trees};
ghost use Rattle.dm_operands.specs.CaseViews.{case_view, field_ref_view, naming};

use dm_ast::{DeriveInput, Field};
use dm_layout::{Layout, Printed};
use dm_operands::cases::{CaseRef, FieldRef, Form, is_enum, some_left_out};
use dm_operands::sides::{Operand, first_name, formatted};
use dm_print_types::token::{close, joint, joint_if, name, open, punct, word};
use dm_stream::{Delim, Ident};

/// Adds the name of a field of an operand.
pub fn numbered(operand: Operand, n: usize, out: &mut Layout) -> Printed
    ensures { OnOk result (out.new ≡ lay out.old (tokens.word (naming operand n))) }
{
    match first_name(operand, n) {
        Some(name) => word(out, name),
        None => {
            let made = formatted(out.allocator(), operand, n)?;
            word(out, made.as_str())
        }
    }
}

fn binding(operand: Operand, n: usize, skip: bool, out: &mut Layout) -> Printed
    ensures { OnOk result (out.new ≡ lay out.old (tokens.pattern_trees (spec.binding skip (naming operand n)))) }
{
    if skip {
        return word(out, "_");
    }
    numbered(operand, n, out)
}

fn bindings(fields: &[FieldRef<'_, '_>], operand: Operand, out: &mut Layout) -> Printed
    ensures { OnOk result (out.new ≡ lay out.old (tokens.ended (tokens.each_pattern (patterns_of (spec.bindings (naming operand) 0 (map field_ref_view fields.now)))))) }
{
    for (i, field) in fields.iter().enumerate() {
        binding(operand, i, field.left_out, out)?;
        punct(out, ',')?;
    }
    Ok(())
}

/// Adds the name of a field in braces.
pub fn field_name(ident: &Option<Ident<'_>>, out: &mut Layout) -> Printed
    ensures { OnOk result (out.new ≡ lay out.old (syntax.name (spec.field_ident ident.now))) }
{
    match ident {
        Some(ident) => name(out, ident),
        None => word(out, ""),
    }
}

fn named_binding(field: &Field<'_>, operand: Operand, n: usize, out: &mut Layout) -> Printed
    ensures { OnOk result (out.new ≡ lay out.old (join (join (syntax.name (spec.field_ident field.now.ident)) (join tokens.colon (tokens.word (naming operand n)))) tokens.comma)) }
{
    field_name(&field.ident, out)?;
    punct(out, ':')?;
    numbered(operand, n, out)?;
    punct(out, ',')
}

fn named_bindings(fields: &[FieldRef<'_, '_>], operand: Operand, out: &mut Layout) -> Printed
    ensures { OnOk result (out.new ≡ lay out.old (tokens.ended (tokens.each_named (named_of (spec.named_bindings (naming operand) 0 (map field_ref_view fields.now)))))) }
{
    for (i, field) in fields.iter().enumerate() {
        if !field.left_out {
            named_binding(field.field, operand, i, out)?;
        }
    }
    Ok(())
}

/// Adds `Self`, or `Self::V`.
pub fn case_path(input: &DeriveInput<'_>, ident: &Ident<'_>, out: &mut Layout) -> Printed
    ensures { OnOk result (out.new ≡ lay out.old (syntax.path_trees nowhere (spec.case_path (declaration_view input.now) ident.now))) }
{
    word(out, "Self")?;
    if is_enum(input) {
        joint(out, ':', ':')?;
        name(out, ident)?;
    }
    Ok(())
}

/// Adds what stands behind the path in the pattern of an operand that is of this case.
pub fn case_fields(case: &CaseRef<'_, '_>, operand: Operand, out: &mut Layout) -> Printed
    ensures { OnOk result (out.new ≡ lay out.old (fields_trees (naming operand) (case_view case.now).form (case_view case.now).fields)) }
{
    let fields = case.fields.as_slice();
    match case.form {
        Form::Named => {
            open(out, Delim::Brace)?;
            named_bindings(fields, operand, out)?;
            joint_if(out, some_left_out(fields), '.', '.')?;
            close(out, Delim::Brace)
        }
        Form::Unnamed => {
            open(out, Delim::Paren)?;
            bindings(fields, operand, out)?;
            close(out, Delim::Paren)
        }
        Form::Unit => Ok(()),
    }
}

/// Adds the pattern of an operand that is of this case.
pub fn side(
    input: &DeriveInput<'_>,
    case: &CaseRef<'_, '_>,
    operand: Operand,
    out: &mut Layout,
) -> Printed
    ensures { OnOk result (out.new ≡ lay out.old (tokens.pattern_trees (spec.side (naming operand) (declaration_view input.now) (case_view case.now)))) }
{
    case_path(input, case.ident, out)?;
    case_fields(case, operand, out)
}

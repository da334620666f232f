//! What an operator gives.
#![tactic(auto, using(crate::proofs::HeadSteps::head_steps))]

ghost use Rattle.std.specs.Prelude.{◌≡◌, [], ◌∷◌, map, true, OnOk};
ghost use Rattle.dm_ast.specs.Declarations.{variant_view};
ghost use Rattle.dm_output.specs.Tokens as tokens;
ghost use Rattle.dm_output.specs.Values as values;
ghost use Rattle.dm_print_types.specs.Prelude.{type_trees, declaration_view, lay};
ghost use Rattle.dm_operators.specs.Meaning as meaning;
ghost use Rattle.dm_operators.specs.Heads as spec;
ghost use Rattle.dm_operators.specs.Table.{form_view, operator_view};
ghost use Rattle.dm_operator_heads.specs.Outputs as parts;

use dm_ast::{Data, DeriveInput, Variant};
use dm_layout::{Layout, Printed};
use dm_operands::cases::is_enum;
use dm_operators::operator::{Form, Implemented};
use dm_operators::places::is_unit;
use dm_print_types::token::{fixed, punct};
use dm_sides::heads::declared_type;

fn some_unit(variants: &[Variant<'_>]) -> bool
    ensures { result ≡ meaning.some_unit (map values.case_of_variant (map variant_view variants.now)) }
{
    for variant in variants {
        if is_unit(&variant.fields) {
            return true;
        }
    }
    false
}

/// Whether an enum has a variant without fields, so that the operator of one value gives a `Result`.
fn has_unit(input: &DeriveInput<'_>) -> bool
    ensures { result ≡ meaning.has_unit (declaration_view input.now) }
{
    match &input.shape {
        Data::Struct(_) => false,
        Data::Enum(data) => some_unit(data.variants.items.as_slice()),
        Data::Union(_) => false,
    }
}

/// Adds the `Result` that the operator of one value gives where it may fail.
fn unary_result(input: &DeriveInput<'_>, out: &mut Layout) -> Printed
    ensures { OnOk result (out.new ≡ lay out.old (type_trees (parts.unary_result (declaration_view input.now)))) }
{
    fixed(out, "derive_more :: core :: result :: Result <")?;
    declared_type(input, out)?;
    fixed(out, ", derive_more :: UnitError >")
}

/// Adds what the operator of one value gives.
fn unary_output(input: &DeriveInput<'_>, out: &mut Layout) -> Printed
    ensures { OnOk result (out.new ≡ lay out.old (type_trees (spec.unary_output (declaration_view input.now)))) }
{
    if has_unit(input) {
        return unary_result(input, out);
    }
    declared_type(input, out)
}

/// Adds `type Output = ..;` for two values that may be of different variants.
fn result_named(out: &mut Layout) -> Printed
    ensures { OnOk result (out.new ≡ lay out.old (tokens.in_turn (map tokens.assoc_trees (parts.named (spec.binary_output true) ∷ [])))) }
{
    fixed(out, "type Output = derive_more :: core :: result")?;
    fixed(out, ":: Result < Self , derive_more :: BinaryError > ;")
}

/// Adds `type Output = ..;` for the operator of two values, which may fail for those of an enum.
fn binary_named(is_enum: bool, out: &mut Layout) -> Printed
    ensures { OnOk result (out.new ≡ lay out.old (tokens.in_turn (map tokens.assoc_trees (parts.named (spec.binary_output is_enum) ∷ [])))) }
{
    if is_enum {
        return result_named(out);
    }
    fixed(out, "type Output = Self ;")
}

/// Adds `type Output = ..;` for the operator of one value.
fn unary_named(input: &DeriveInput<'_>, out: &mut Layout) -> Printed
    ensures { OnOk result (out.new ≡ lay out.old (tokens.in_turn (map tokens.assoc_trees (parts.named (spec.unary_output (declaration_view input.now)) ∷ [])))) }
{
    fixed(out, "type Output =")?;
    unary_output(input, out)?;
    punct(out, ';')
}

/// Adds `type Output = ..;`, which assigning traits do not have.
pub fn output_type(input: &DeriveInput<'_>, implemented: &Implemented, out: &mut Layout) -> Printed
    ensures { OnOk result (out.new ≡ lay out.old (tokens.in_turn (map tokens.assoc_trees (spec.assocs (form_view implemented.now.form) (operator_view implemented.now.operator) (declaration_view input.now))))) }
{
    if implemented.operator.assigning {
        return Ok(());
    }
    match implemented.form {
        Form::Structural => binary_named(is_enum(input), out),
        Form::Scalar => binary_named(false, out),
        Form::Unary => unary_named(input, out),
    }
}

/// Adds the type that a method which doesn't assign returns: that of one value writes it out.
pub fn returned_type(input: &DeriveInput<'_>, form: Form, out: &mut Layout) -> Printed
    ensures { OnOk result (out.new ≡ lay out.old (type_trees (spec.returned (form_view form) (declaration_view input.now)))) }
{
    match form {
        Form::Structural => fixed(out, "Self :: Output"),
        Form::Scalar => fixed(out, "Self :: Output"),
        Form::Unary => unary_output(input, out),
    }
}

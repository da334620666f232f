//! The text of the implementation, for which no tree of it is made.
#![tactic(auto, using(crate::proofs::PrintSteps::printing_steps))]

ghost use Rattle.std.specs.Prelude.{◌≡◌, [], ◌∷◌, map, Some, OnOk, IfOk, string_bytes};
ghost use Rattle.dm_stream.specs.declared.tokens.Delim.TheVariants.{Paren};
ghost use Rattle.dm_output.specs.Output.{last_expr, no_expr};
ghost use Rattle.dm_output.specs.Tokens as tokens;
ghost use Rattle.dm_print_types.specs.Prelude.{declaration_view, lay};
ghost use Rattle.dm_operands.specs.CaseViews.{case_view};
ghost use Rattle.dm_operators.specs.Operators as ops;
ghost use Rattle.dm_operators.specs.Heads as heads;
ghost use Rattle.dm_operators.specs.Implementations as spec;
ghost use Rattle.dm_operators.specs.Table.{form_view, operator_view};
ghost use Rattle.dm_operations.specs.Items as items;

use dm_ast::DeriveInput;
use dm_layout::{Layout, Printed};
use dm_operands::cases::CaseRef;
use dm_operator_heads::{implemented_trait, output_type, params, predicates, returned_type};
use dm_operator_prints::body;
use dm_operators::operator::{Form, Implemented, Operator};
use dm_print_types::token::{close, fixed, joint, open, word};
use dm_sides::heads::declared_type;
use dm_stream::{Delim, Made};
use std::alloc::Global;

/// Adds the attributes of an operator with a right side, and `impl`.
fn binary_start(out: &mut Layout) -> Printed
    ensures { OnOk result (out.new ≡ lay out.old (items.start_trees ops.structural)) }
{
    fixed(out, "# [allow (private_bounds)]")?;
    fixed(out, "# [automatically_derived] impl")
}

/// Adds the attributes of an operator of one value, and `impl`.
fn unary_start(out: &mut Layout) -> Printed
    ensures { OnOk result (out.new ≡ lay out.old (items.start_trees ops.unary)) }
{
    fixed(out, "# [allow (deprecated)]")?;
    fixed(out, "# [allow (unreachable_code)]")?;
    fixed(out, "# [automatically_derived] impl")
}

/// Adds the attributes of the implementation, and `impl`.
fn item_start(form: Form, out: &mut Layout) -> Printed
    ensures { OnOk result (out.new ≡ lay out.old (items.start_trees (form_view form))) }
{
    match form {
        Form::Structural => binary_start(out),
        Form::Scalar => binary_start(out),
        Form::Unary => unary_start(out),
    }
}

/// Adds what stands in front of the implementation's brace.
fn item_head<'x, 'a>(
    input: &'x DeriveInput<'a>,
    cases: &[CaseRef<'x, 'a>],
    implemented: &Implemented,
    out: &mut Layout,
) -> Printed
    ensures { OnOk result (out.new ≡ lay out.old (tokens.head_trees (items.item_with (form_view implemented.now.form) (operator_view implemented.now.operator) (declaration_view input.now) (map case_view cases.now) [] []))) }
{
    item_start(implemented.form, out)?;
    params(input, implemented, out)?;
    implemented_trait(implemented, out)?;
    word(out, "for")?;
    declared_type(input, out)?;
    predicates(input, cases, implemented, out)
}

/// Adds the attributes of the method, and `fn`.
fn method_start(form: Form, out: &mut Layout) -> Printed
    ensures { OnOk result (out.new ≡ lay out.old (items.method_start_trees (form_view form))) }
{
    match form {
        Form::Structural => fixed(out, "# [inline] # [track_caller] fn"),
        Form::Scalar => fixed(out, "# [inline] # [track_caller] fn"),
        Form::Unary => fixed(out, "# [inline] fn"),
    }
}

/// Adds `&mut self`, or `self`.
fn receiver(operator: &Operator, out: &mut Layout) -> Printed
    ensures { OnOk result (out.new ≡ lay out.old (tokens.receiver_trees (heads.receiver_of (operator_view operator.now)))) }
{
    if operator.assigning {
        return fixed(out, "& mut self");
    }
    word(out, "self")
}

/// Adds a comma and the right side, where there is one.
fn right_side(form: Form, out: &mut Layout) -> Printed
    ensures { OnOk result (out.new ≡ lay out.old (items.more_input (heads.method_param (form_view form)))) }
{
    match form {
        Form::Structural => fixed(out, ", __rhs : Self"),
        Form::Scalar => fixed(out, ", __rhs : __derive_more_Rhs"),
        Form::Unary => Ok(()),
    }
}

/// Adds the operands in parentheses.
fn operands(implemented: &Implemented, out: &mut Layout) -> Printed
    ensures { OnOk result (out.new ≡ lay out.old (tokens.enclosed Paren (tokens.inputs_trees (Some (heads.receiver_of (operator_view implemented.now.operator))) (heads.method_param (form_view implemented.now.form))))) }
{
    open(out, Delim::Paren)?;
    receiver(&implemented.operator, out)?;
    right_side(implemented.form, out)?;
    close(out, Delim::Paren)
}

/// Adds `->` and what the method returns, where it doesn't assign.
fn output<'a>(input: &DeriveInput<'a>, implemented: &Implemented, out: &mut Layout) -> Printed
    ensures { OnOk result (out.new ≡ lay out.old (tokens.output_trees (heads.method_output (form_view implemented.now.form) (operator_view implemented.now.operator) (declaration_view input.now)))) }
{
    if implemented.operator.assigning {
        return Ok(());
    }
    joint(out, '-', '>')?;
    returned_type(input, implemented.form, out)
}

/// Adds what stands in front of the method's body.
fn method_head<'a>(input: &DeriveInput<'a>, implemented: &Implemented, out: &mut Layout) -> Printed
    ensures { OnOk result (out.new ≡ lay out.old (tokens.signature_trees (spec.method_with (form_view implemented.now.form) (operator_view implemented.now.operator) (declaration_view input.now) (last_expr no_expr)))) }
{
    method_start(implemented.form, out)?;
    word(out, implemented.operator.method)?;
    operands(implemented, out)?;
    output(input, implemented, out)
}

fn method<'a>(
    input: &DeriveInput<'a>,
    cases: &[CaseRef<'_, 'a>],
    implemented: &Implemented,
    out: &mut Layout,
) -> Printed
    ensures { OnOk result (out.new ≡ lay out.old (tokens.method_trees (spec.method_in (form_view implemented.now.form) (operator_view implemented.now.operator) (declaration_view input.now) (map case_view cases.now)))) }
{
    method_head(input, implemented, out)?;
    open(out, Delim::Brace)?;
    body(input, cases, implemented, out)?;
    close(out, Delim::Brace)
}

fn item<'x, 'a>(
    input: &'x DeriveInput<'a>,
    cases: &[CaseRef<'x, 'a>],
    implemented: &Implemented,
    out: &mut Layout,
) -> Printed
    ensures { OnOk result (out.new ≡ lay out.old (tokens.item_trees (items.item_for (form_view implemented.now.form) (operator_view implemented.now.operator) (declaration_view input.now) (map case_view cases.now)))) }
{
    item_head(input, cases, implemented, out)?;
    open(out, Delim::Brace)?;
    output_type(input, implemented, out)?;
    method(input, cases, implemented, out)?;
    close(out, Delim::Brace)
}

/// The text of the implementation.
pub(crate) fn printed_item<'x, 'a>(
    input: &'x DeriveInput<'a>,
    cases: &[CaseRef<'x, 'a>],
    implemented: &Implemented,
    alloc: Global,
) -> Made<String>
    ensures { IfOk result (λ s. string_bytes s ≡ tokens.printed (items.item_for (form_view implemented.now.form) (operator_view implemented.now.operator) (declaration_view input.now) (map case_view cases.now) ∷ [])) }
{
    let mut out = Layout::new(alloc);
    item(input, cases, implemented, &mut out)?;
    out.line_end()?;
    Ok(out.into_string())
}

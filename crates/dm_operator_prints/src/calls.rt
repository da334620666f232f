//! Calls that the bodies of operators' methods make.
#![tactic(auto, using(crate::proofs::Values::value_steps))]

ghost use Rattle.std.specs.Prelude.{◌≡◌, [], ◌∷◌, ◌++◌, OnOk, IfOk, string_bytes};
ghost use Rattle.dm_ast.specs.Tree.{no_self};
ghost use Rattle.dm_ast.specs.Implementors.{plain_path};
ghost use Rattle.dm_output.specs.Tokens as tokens;
ghost use Rattle.dm_ast.specs.TypeTokens as syntax;
ghost use Rattle.dm_generics.specs.Words.{words};
ghost use Rattle.dm_print_types.specs.Laying.{lay};
ghost use Rattle.dm_operators.specs.Operators as ops;
ghost use Rattle.dm_operators.specs.Bodies as spec;
ghost use Rattle.dm_operators.specs.Table.{operator_view};

use dm_layout::{Layout, Printed};
use dm_operators::operator::Operator;
use dm_print_types::token::{fixed, joint, literal, word};
use dm_stream::{LitKind, Literal, Made, Span, Text};
use std::alloc::Global;

/// Adds `derive_more::core::ops::TRAIT::METHOD`.
pub(crate) fn method_path(operator: &Operator, out: &mut Layout) -> Printed
    ensures { OnOk result (out.new ≡ lay out.old (tokens.path_expr_trees no_self (plain_path (words (ops.method_names (operator_view operator.now)))))) }
{
    fixed(out, "derive_more :: core :: ops ::")?;
    word(out, operator.trait_name)?;
    joint(out, ':', ':')?;
    word(out, operator.method)
}

fn quoted_text(text: &str, alloc: Global) -> Made<String>
    ensures { IfOk result (λ s. string_bytes s ≡ 34 ∷ (text.now ++ 34 ∷ [])) }
{
    format!(in alloc; "\"{text}\"")
}

/// Adds a text as a string literal.
fn quoted(text: &str, out: &mut Layout) -> Printed
    ensures { OnOk result (out.new ≡ lay out.old (syntax.literal (spec.quoted text.now))) }
{
    let quoted = Literal {
        kind: LitKind::Str,
        text: Text::owned(quoted_text(text, out.allocator())?),
        span: Span::nowhere(),
    };
    literal(out, &quoted)
}

/// Adds what two values of a variant without fields give.
#[tactic(auto, unfolding(dm_operators::specs::Bodies::binary_unit))]
pub(crate) fn binary_unit(operator: &Operator, out: &mut Layout) -> Printed
    ensures { OnOk result (out.new ≡ lay out.old (tokens.expr_trees (spec.binary_unit (operator_view operator.now)))) }
{
    fixed(out, "derive_more :: core :: result :: Result :: Err (")?;
    fixed(out, "derive_more :: BinaryError :: Unit (")?;
    fixed(out, "derive_more :: UnitError :: new (")?;
    quoted(operator.method, out)?;
    fixed(out, ")))")
}

/// Adds what two values of different variants give.
#[tactic(auto, unfolding(dm_operators::specs::Bodies::mismatch))]
pub(crate) fn mismatch(operator: &Operator, out: &mut Layout) -> Printed
    ensures { OnOk result (out.new ≡ lay out.old (tokens.expr_trees (spec.mismatch (operator_view operator.now)))) }
{
    fixed(out, "derive_more :: core :: result :: Result :: Err (")?;
    fixed(out, "derive_more :: BinaryError :: Mismatch (")?;
    fixed(out, "derive_more :: WrongVariantError :: new (")?;
    quoted(operator.method, out)?;
    fixed(out, ")))")
}

/// Adds what a value of a variant without fields gives.
#[tactic(auto, unfolding(dm_operators::specs::Bodies::unary_unit))]
pub(crate) fn unary_unit(operator: &Operator, out: &mut Layout) -> Printed
    ensures { OnOk result (out.new ≡ lay out.old (tokens.expr_trees (spec.unary_unit (operator_view operator.now)))) }
{
    fixed(out, "derive_more :: core :: result :: Result :: Err (")?;
    fixed(out, "derive_more :: UnitError :: new (")?;
    quoted(operator.method, out)?;
    fixed(out, "))")
}

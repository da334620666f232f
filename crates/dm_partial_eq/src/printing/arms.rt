//! Arms as text.
#![tactic(auto, using(crate::proofs::PrintLaws::printing_steps))]

ghost use Rattle.std.specs.Prelude.{◌≡◌, ◌∷◌, [], cond, true, map, OnOk, IsTrue};
ghost use Rattle.dm_stream.specs.Trees as trees;
ghost use Rattle.dm_stream.specs.Trees.{no_trees};
ghost use Rattle.dm_output.specs.Output.{arms_of, unsafe_expr};
ghost use Rattle.dm_output.specs.Tokens as tokens;
ghost use Rattle.dm_print_types.specs.Prelude.{declaration_view, lay};
ghost use Rattle.dm_operands.specs.Bodies as bodies;
ghost use Rattle.dm_operands.specs.Kept as kept;
ghost use Rattle.dm_partial_eq.specs.Emitted as spec;
ghost use Rattle.dm_partial_eq.specs.Printed as printed;
ghost use Rattle.dm_operands.specs.CaseViews.{case_view, field_ref_view};

use crate::comparing::Comparing;
use dm_ast::DeriveInput;
use dm_layout::{Layout, Printed};
use dm_operands::cases::{CaseRef, FieldRef, all_compared, is_compared};
use dm_operands::sides::Operand;
use dm_print_types::token::{close, fixed, joint, open, punct};
use dm_sides::pattern::{numbered, side};
use dm_stream::Delim;

fn test(comparing: Comparing, n: usize, out: &mut Layout) -> Printed
    ensures { OnOk result (out.new ≡ lay out.old (tokens.expr_trees (spec.test comparing n))) }
{
    numbered(Operand::Mine, n, out)?;
    comparing.sign(out)?;
    numbered(Operand::Theirs, n, out)
}

/// Adds a test, and in front of it what joins it to the one before.
fn next_test(comparing: Comparing, n: usize, first: bool, out: &mut Layout) -> Printed
    ensures { OnOk result (out.new ≡ lay out.old (trees.join (cond first no_trees (printed.join_trees comparing)) (tokens.expr_trees (spec.test comparing n)))) }
{
    if !first {
        comparing.join(out)?;
    }
    test(comparing, n, out)
}

fn tests(fields: &[FieldRef<'_, '_>], comparing: Comparing, out: &mut Layout) -> Printed
    ensures { OnOk result (out.new ≡ lay out.old (printed.joined comparing true (spec.tests comparing 0 (map field_ref_view fields.now)))) }
{
    let mut first = true;
    for (i, field) in fields.iter().enumerate() {
        if !field.left_out {
            next_test(comparing, i, first, out)?;
            first = false;
        }
    }
    Ok(())
}

/// Adds the tests of the fields of a case that is compared.
fn tested(case: &CaseRef<'_, '_>, comparing: Comparing, out: &mut Layout) -> Printed
    requires { IsTrue (kept.is_compared (case_view case.now)) }
    ensures { OnOk result (out.new ≡ lay out.old (tokens.expr_trees (spec.chain comparing (spec.tests comparing 0 (case_view case.now).fields)))) }
{
    tests(case.fields.as_slice(), comparing, out)
}

fn arm(
    input: &DeriveInput<'_>,
    case: &CaseRef<'_, '_>,
    comparing: Comparing,
    out: &mut Layout,
) -> Printed
    requires { IsTrue (kept.is_compared (case_view case.now)) }
    ensures { OnOk result (out.new ≡ lay out.old (tokens.arm_trees (spec.arm comparing (declaration_view input.now) (case_view case.now)))) }
{
    open(out, Delim::Paren)?;
    side(input, case, Operand::Mine, out)?;
    punct(out, ',')?;
    side(input, case, Operand::Theirs, out)?;
    close(out, Delim::Paren)?;
    joint(out, '=', '>')?;
    open(out, Delim::Brace)?;
    tested(case, comparing, out)?;
    close(out, Delim::Brace)?;
    punct(out, ',')
}

/// Adds the arm that is never reached.
fn never(out: &mut Layout) -> Printed
    ensures { OnOk result (out.new ≡ lay out.old (tokens.arms_trees (arms_of (bodies.otherwise (unsafe_expr bodies.unreachable_call) ∷ [])))) }
{
    fixed(
        out,
        "_ => unsafe { derive_more :: core :: hint :: unreachable_unchecked () } ,",
    )
}

/// Adds the arm of every other pair, where there is one.
fn rest(cases: &[CaseRef<'_, '_>], comparing: Comparing, out: &mut Layout) -> Printed
    ensures { OnOk result (out.new ≡ lay out.old (tokens.arms_trees (arms_of (spec.rest comparing (map case_view cases.now))))) }
{
    if !all_compared(cases) {
        return comparing.other_pairs(out);
    }
    if cases.len() > 1 {
        return never(out);
    }
    Ok(())
}

/// Adds an arm for each case that is compared, and perhaps one for every other pair.
pub(crate) fn arms<'a>(
    input: &DeriveInput<'a>,
    cases: &[CaseRef<'_, 'a>],
    comparing: Comparing,
    out: &mut Layout,
) -> Printed
    ensures { OnOk result (out.new ≡ lay out.old (tokens.arms_trees (arms_of (spec.arms comparing (declaration_view input.now) (map case_view cases.now) (spec.rest comparing (map case_view cases.now)))))) }
{
    for case in cases {
        if is_compared(case) {
            arm(input, case, comparing, out)?;
        }
    }
    rest(cases, comparing, out)
}

//! The predicates.
#![tactic(auto, using(crate::proofs::HeadSteps::head_steps))]

ghost use Rattle.std.specs.Prelude.{◌≡◌, ◌++◌, map, IfOk, OnOk};
ghost use Rattle.dm_ast.specs.Implementors.{predicates_of};
ghost use Rattle.dm_output.specs.Tokens as tokens;
ghost use Rattle.dm_print_types.specs.Prelude.{declaration_view, lay};
ghost use Rattle.dm_operands.specs.CaseViews.{case_view, field_ref_view};
ghost use Rattle.dm_where_clauses.specs.Shown.{shown};
ghost use Rattle.dm_operators.specs.Predicates as spec;
ghost use Rattle.dm_operators.specs.Table.{form_view, operator_view};

use crate::heads::asked_trait;
use dm_ast::{DeriveInput, Ty};
use dm_bounds::Sought;
use dm_layout::{Layout, Printed};
use dm_operands::cases::{CaseRef, FieldRef};
use dm_operands::places::add;
use dm_operators::operator::{Form, Implemented};
use dm_stream::Made;
use dm_where_clauses::needed::{Asks, Predicate, needs, with_needed};
use dm_where_clauses::printing::clause;
use std::alloc::Global;

/// What the operator asks of the types of fields.
#[derive(Clone, Copy)]
struct Operated {
    implemented: Implemented,
}

impl Asks for Operated {
    ghost asking = { λ o. spec.asking (form_view o.implemented.form) (operator_view o.implemented.operator) };

    fn asks(&self, sought: &Sought<'_, '_>, ty: &Ty<'_>) -> bool {
        match self.implemented.form {
            Form::Structural => needs(sought, ty),
            Form::Scalar => sought.is_free(ty),
            Form::Unary => false,
        }
    }

    fn print_path(&self, ty: &Ty<'_>, out: &mut Layout) -> Printed {
        asked_trait(ty, &self.implemented, out)
    }
}

/// Whether several fields aren't left out.
fn keeps_several(fields: &[FieldRef<'_, '_>]) -> bool
    ensures { result ≡ spec.keeps_several (map field_ref_view fields.now) }
{
    let mut found = false;
    for field in fields {
        if !field.left_out {
            if found {
                return true;
            }
            found = true;
        }
    }
    false
}

fn some_several(cases: &[CaseRef<'_, '_>]) -> bool
    ensures { result ≡ spec.some_several (map case_view cases.now) }
{
    for case in cases {
        if keeps_several(case.fields.as_slice()) {
            return true;
        }
    }
    false
}

/// Whether any right side is copied, since several fields take it.
fn copies_right(cases: &[CaseRef<'_, '_>], form: Form) -> bool
    ensures { result ≡ spec.copies_right (form_view form) (map case_view cases.now) }
{
    match form {
        Form::Structural => false,
        Form::Scalar => some_several(cases),
        Form::Unary => false,
    }
}

/// The declared predicates, behind them those that the kept fields need, and where several take any right side, that it is copied. It fails
/// for want of memory alone.
pub fn all_predicates<'x, 'a>(
    input: &'x DeriveInput<'a>,
    cases: &[CaseRef<'x, 'a>],
    implemented: &Implemented,
    alloc: Global,
) -> Made<Vec<Predicate<'x, 'a>>>
    ensures { IfOk result (λ ps. map (shown (spec.asking (form_view implemented.now.form) (operator_view implemented.now.operator))) ps.items ≡
        predicates_of (declaration_view input.now) ++
        spec.needed_in (form_view implemented.now.form) (operator_view implemented.now.operator) (declaration_view input.now) (map case_view cases.now)) }
{
    let operated = Operated {
        implemented: *implemented,
    };
    let mut all = with_needed(input, cases, &operated, alloc)?;
    if copies_right(cases, implemented.form) {
        add(&mut all, Predicate::RightCopies)?;
    }
    Ok(all)
}

/// Adds them, behind `where` where there are some.
pub fn predicates<'x, 'a>(
    input: &'x DeriveInput<'a>,
    cases: &[CaseRef<'x, 'a>],
    implemented: &Implemented,
    out: &mut Layout,
) -> Printed
    ensures { OnOk result (out.new ≡ lay out.old (tokens.where_trees (predicates_of (declaration_view input.now) ++
        spec.needed_in (form_view implemented.now.form) (operator_view implemented.now.operator) (declaration_view input.now) (map case_view cases.now)))) }
{
    let all = all_predicates(input, cases, implemented, out.allocator())?;
    let operated = Operated {
        implemented: *implemented,
    };
    clause(all.as_slice(), &operated, out)
}

//! Which predicates an implementation has.
#![tactic(auto, using(crate::proofs::Needing::needing_steps))]

ghost use Rattle.std.specs.Prelude.{◌≡◌, OnOk, IfOk, map, flat_map, ◌++◌};
ghost use Rattle.dm_ast.specs.Implementors.{predicates_of};
ghost use Rattle.dm_print_types.specs.Prelude.{nowhere, ty_view, path_trees, predicate_view, declaration_view, lay};
ghost use Rattle.dm_operands.specs.CaseViews.{case_view, field_ref_view};
ghost use Rattle.dm_bounds.specs.Needed as spec;
ghost use Rattle.dm_bounds.specs.Needed.{Asking};
ghost use Rattle.dm_where_clauses.specs.Shown.{shown};

use dm_ast::{DeriveInput, Ty, WherePredicate};
use dm_bounds::Sought;
use dm_layout::{Layout, Printed};
use dm_operands::cases::{CaseRef, FieldRef};
use dm_operands::places::add;
use dm_stream::Made;
use std::alloc::Global;

/// A predicate of an implementation, by what it is printed of.
#[derive(Clone, Copy)]
pub enum Predicate<'x, 'a> {
    /// It is declared.
    Declared(&'x WherePredicate<'a>),
    /// The trait is asked of this type.
    Needed(&'x Ty<'a>),
    /// Any right side is copied: `__derive_more_Rhs: derive_more::core::marker::Copy`.
    RightCopies,
}

/// What a trait is asked for: of which types, and its path for each.
pub trait Asks {
    ghost asking: { Self → Asking };

    /// Whether the trait is asked of this type.
    fn asks(&self, sought: &Sought<'_, '_>, ty: &Ty<'_>) -> bool
        ensures { result ≡ (asking self.now).asks (spec.wanted sought.now) (ty_view ty.now) };

    /// Adds the trait's path for this type.
    fn print_path(&self, ty: &Ty<'_>, out: &mut Layout) -> Printed
        ensures { OnOk result (out.new ≡ lay out.old (path_trees nowhere ((asking self.now).path (ty_view ty.now)))) };
}

/// Whether a type that is free mentions a parameter.
pub fn needs(sought: &Sought<'_, '_>, ty: &Ty<'_>) -> bool
    ensures { result ≡ spec.needs (spec.wanted sought.now) (ty_view ty.now) }
{
    sought.mentions(ty) && sought.is_free(ty)
}

fn listed<'x, 'a>(all: &'x [WherePredicate<'a>], alloc: Global) -> Made<Vec<Predicate<'x, 'a>>>
    ensures { IfOk result (λ ps. (a : Asking) → map (shown a) ps.items ≡ map predicate_view all.now) }
{
    let mut out = Vec::with_capacity(alloc, all.len())?;
    for one in all {
        add(&mut out, Predicate::Declared(one))?;
    }
    Ok(out)
}

/// The declared predicates.
fn declared<'x, 'a>(input: &'x DeriveInput<'a>, alloc: Global) -> Made<Vec<Predicate<'x, 'a>>>
    ensures { IfOk result (λ ps. (a : Asking) → map (shown a) ps.items ≡ predicates_of (declaration_view input.now)) }
{
    match &input.generics.where_clause {
        None => Ok(Vec::new(alloc)),
        Some(all) => listed(all.items.as_slice(), alloc),
    }
}

/// Adds the predicate of a field, where it needs one.
fn add_for_field<'x, 'a, A: Asks>(
    field: &FieldRef<'x, 'a>,
    sought: &Sought<'_, '_>,
    asks: &A,
    out: &mut Vec<Predicate<'x, 'a>>,
) -> Made<()>
    ensures { OnOk result (map (shown (A.asking asks.now)) out.new.items ≡ map (shown (A.asking asks.now)) out.old.items ++
        spec.added_by (A.asking asks.now) (spec.wanted sought.now) (field_ref_view field.now)) }
{
    let of = field.field;
    if !field.left_out && asks.asks(sought, &of.ty) {
        return add(out, Predicate::Needed(&of.ty));
    }
    Ok(())
}

fn add_for_fields<'x, 'a, A: Asks>(
    fields: &[FieldRef<'x, 'a>],
    sought: &Sought<'_, '_>,
    asks: &A,
    out: &mut Vec<Predicate<'x, 'a>>,
) -> Made<()>
    ensures { OnOk result (map (shown (A.asking asks.now)) out.new.items ≡ map (shown (A.asking asks.now)) out.old.items ++
        flat_map (spec.added_by (A.asking asks.now) (spec.wanted sought.now)) (map field_ref_view fields.now)) }
{
    for field in fields {
        add_for_field(field, sought, asks, out)?;
    }
    Ok(())
}

fn add_for_case<'x, 'a, A: Asks>(
    case: &CaseRef<'x, 'a>,
    sought: &Sought<'_, '_>,
    asks: &A,
    out: &mut Vec<Predicate<'x, 'a>>,
) -> Made<()>
    ensures { OnOk result (map (shown (A.asking asks.now)) out.new.items ≡ map (shown (A.asking asks.now)) out.old.items ++
        spec.added_in_by (A.asking asks.now) (spec.wanted sought.now) (case_view case.now)) }
{
    if case.left_out {
        return Ok(());
    }
    add_for_fields(case.fields.as_slice(), sought, asks, out)
}

fn add_for_cases<'x, 'a, A: Asks>(
    cases: &[CaseRef<'x, 'a>],
    sought: &Sought<'_, '_>,
    asks: &A,
    out: &mut Vec<Predicate<'x, 'a>>,
) -> Made<()>
    ensures { OnOk result (map (shown (A.asking asks.now)) out.new.items ≡ map (shown (A.asking asks.now)) out.old.items ++
        flat_map (spec.added_in_by (A.asking asks.now) (spec.wanted sought.now)) (map case_view cases.now)) }
{
    for case in cases {
        add_for_case(case, sought, asks, out)?;
    }
    Ok(())
}

/// Adds what an implementation for these cases needs.
fn add_needed<'x, 'a, A: Asks>(
    input: &DeriveInput<'a>,
    cases: &[CaseRef<'x, 'a>],
    asks: &A,
    alloc: Global,
    out: &mut Vec<Predicate<'x, 'a>>,
) -> Made<()>
    ensures { OnOk result (map (shown (A.asking asks.now)) out.new.items ≡ map (shown (A.asking asks.now)) out.old.items ++
        spec.needed_by (A.asking asks.now) (declaration_view input.now) (map case_view cases.now)) }
{
    match Sought::of(alloc, input) {
        Ok(sought) => add_for_cases(cases, &sought, asks, out),
        Err(error) => Err(error),
    }
}

/// The declared predicates, and behind them what an implementation for these cases needs: that the type of each field that isn't left out
/// has the trait, in order and with repeats, where the trait is asked of it. It fails for want of memory alone.
pub fn with_needed<'x, 'a, A: Asks>(
    input: &'x DeriveInput<'a>,
    cases: &[CaseRef<'x, 'a>],
    asks: &A,
    alloc: Global,
) -> Made<Vec<Predicate<'x, 'a>>>
    ensures { IfOk result (λ ps. map (shown (A.asking asks.now)) ps.items ≡ predicates_of (declaration_view input.now) ++
        spec.needed_by (A.asking asks.now) (declaration_view input.now) (map case_view cases.now)) }
{
    let mut all = declared(input, alloc)?;
    add_needed(input, cases, asks, alloc, &mut all)?;
    Ok(all)
}

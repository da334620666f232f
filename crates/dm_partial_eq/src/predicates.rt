//! The predicates of the implementation, as text.
#![tactic(auto, using(dm_print_types::proofs::Laying::print_steps))]

ghost use Rattle.std.specs.Prelude.{◌≡◌, map, OnOk};
ghost use Rattle.dm_output.specs.Tokens as tokens;
ghost use Rattle.dm_print_types.specs.Prelude.{nowhere, path_trees, declaration_view, lay};
ghost use Rattle.dm_bounds.specs.Needed.{needing};
ghost use Rattle.dm_partial_eq.specs.Heads.{partial_eq_path};
ghost use Rattle.dm_partial_eq.specs.Emitted as spec;
ghost use Rattle.dm_operands.specs.CaseViews.{case_view};

use dm_ast::{DeriveInput, Ty};
use dm_bounds::Sought;
use dm_layout::{Layout, Printed};
use dm_operands::cases::CaseRef;
use dm_print_types::token::fixed;
use dm_where_clauses::needed::{Asks, needs, with_needed};
use dm_where_clauses::printing::clause;

/// Adds the trait's path.
pub(crate) fn trait_path(out: &mut Layout) -> Printed
    ensures { OnOk result (out.new ≡ lay out.old (path_trees nowhere partial_eq_path)) }
{
    fixed(out, "derive_more :: core :: cmp :: PartialEq")
}

/// The trait is asked of each type that needs it.
pub struct Compares;

impl Asks for Compares {
    ghost asking = { λ _. needing partial_eq_path };

    fn asks(&self, sought: &Sought<'_, '_>, ty: &Ty<'_>) -> bool {
        needs(sought, ty)
    }

    fn print_path(&self, _ty: &Ty<'_>, out: &mut Layout) -> Printed {
        trait_path(out)
    }
}

/// Adds the declared predicates, and behind them those that the kept fields need.
pub(crate) fn predicates<'x, 'a>(
    input: &'x DeriveInput<'a>,
    cases: &[CaseRef<'x, 'a>],
    out: &mut Layout,
) -> Printed
    ensures { OnOk result (out.new ≡ lay out.old (tokens.where_trees (spec.predicates_for (declaration_view input.now) (map case_view cases.now)))) }
{
    let all = with_needed(input, cases, &Compares, out.allocator())?;
    clause(all.as_slice(), &Compares, out)
}

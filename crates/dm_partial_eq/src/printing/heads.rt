//! The head of the implementation as text.
#![tactic(auto, using(crate::proofs::PrintLaws::printing_steps))]

ghost use Rattle.std.specs.Prelude.{◌≡◌, [], Some, map, OnOk};
ghost use Rattle.dm_output.specs.Tokens as tokens;
ghost use Rattle.dm_print_types.specs.Prelude.{declaration_view, lay};
ghost use Rattle.dm_operands.specs.CaseViews.{case_view};
ghost use Rattle.dm_partial_eq.specs.Heads.{partial_eq_path};
ghost use Rattle.dm_partial_eq.specs.Emitted as spec;
ghost use Rattle.dm_partial_eq.specs.Printed as printed;

use crate::predicates::predicates;
use dm_ast::DeriveInput;
use dm_layout::{Layout, Printed};
use dm_operands::cases::CaseRef;
use dm_print_types::token::fixed;
use dm_sides::heads::{declared_params, declared_type};

/// Adds the attributes, and the word behind them.
#[tactic(auto, unfolding(dm_output::specs::Tokens::private_bounds, dm_output::specs::Tokens::automatically_derived))]
fn attributes(out: &mut Layout) -> Printed
    ensures { OnOk result (out.new ≡ lay out.old printed.impl_trees) }
{
    fixed(
        out,
        "# [allow (private_bounds)] # [automatically_derived] impl",
    )
}

/// Adds the trait, and the word behind it.
fn trait_for(out: &mut Layout) -> Printed
    ensures { OnOk result (out.new ≡ lay out.old (tokens.trait_trees (Some partial_eq_path))) }
{
    fixed(out, "derive_more :: core :: cmp :: PartialEq for")
}

/// Adds what stands in front of the implementation's methods.
pub(crate) fn item_head<'x, 'a>(
    input: &'x DeriveInput<'a>,
    cases: &[CaseRef<'x, 'a>],
    out: &mut Layout,
) -> Printed
    ensures { OnOk result (out.new ≡ lay out.old (tokens.head_trees (spec.with_methods (declaration_view input.now) (map case_view cases.now) []))) }
{
    attributes(out)?;
    declared_params(input, out)?;
    trait_for(out)?;
    declared_type(input, out)?;
    predicates(input, cases, out)
}

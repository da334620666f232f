//! Attributes.
#![tactic(auto, using(dm_print_types::proofs::Laying::print_steps))]

ghost use Rattle.std.specs.Prelude.{◌≡◌, map, OnOk};
ghost use Rattle.dm_output.specs.Tokens as spec;
ghost use Rattle.dm_print.specs.Attributes.{attr_text};
ghost use Rattle.dm_print_types.specs.Laying.{lay};

use dm_layout::{Layout, Printed};
use dm_output::ItemAttr;
use dm_print_types::token::fixed;

#[tactic(auto, unfolding(crate::specs::Attributes::attr_text))]
fn text(attr: ItemAttr) -> &'static str
    ensures { result.now ≡ attr_text attr }
{
    match attr {
        ItemAttr::AllowPrivateBounds => "# [allow (private_bounds)]",
        ItemAttr::AllowDeadCodePrivateBounds => "# [allow (dead_code , private_bounds)]",
        ItemAttr::AllowDeprecated => "# [allow (deprecated)]",
        ItemAttr::AllowUnreachableCode => "# [allow (unreachable_code)]",
        ItemAttr::AllowNonUpperCaseGlobals => "# [allow (non_upper_case_globals)]",
        ItemAttr::AllowUnusedUnit => "# [allow (clippy :: unused_unit)]",
        ItemAttr::AutomaticallyDerived => "# [automatically_derived]",
        ItemAttr::DocHidden => "# [doc (hidden)]",
        ItemAttr::Inline => "# [inline]",
        ItemAttr::TrackCaller => "# [track_caller]",
    }
}

#[tactic(auto, using(crate::proofs::Attributes::attr_fixed, crate::proofs::Attributes::attr_laid))]
fn attr(out: &mut Layout, attr: ItemAttr) -> Printed
    ensures { OnOk result (out.new ≡ lay out.old (spec.attr_trees attr)) }
{
    fixed(out, text(attr))
}

/// Adds attributes one behind the other.
pub(crate) fn attrs(out: &mut Layout, all: &[ItemAttr]) -> Printed
    ensures { OnOk result (out.new ≡ lay out.old (spec.in_turn (map spec.attr_trees all.now))) }
{
    for one in all {
        attr(out, *one)?;
    }
    Ok(())
}

//! Which declarations `PartialEq` refuses.
#![tactic(auto)]

ghost use Rattle.dm_ast.specs.Declarations.{declaration_view};
ghost use Rattle.dm_operands.specs.Places.{IsMarking};
ghost use Rattle.dm_partial_eq.specs.Checks.{IsRefusedIfInvalid};

use dm_ast::DeriveInput;
use dm_operands::cases::CaseRef;
use dm_operands::places::cases_of;
use dm_stream::Read;
use std::alloc::Global;

/// The cases of a declaration, or why `PartialEq` isn't derived for it: the first refusal, in the order of the text.
pub(crate) fn checked<'x, 'a>(
    input: &'x DeriveInput<'a>,
    alloc: Global,
) -> Read<Vec<CaseRef<'x, 'a>>>
    ensures first { IsMarking (declaration_view input.now) result }
    ensures valid { IsRefusedIfInvalid (declaration_view input.now) result }
{
    cases_of(alloc, input)
}

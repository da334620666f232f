//! `PartialEq`.
#![tactic(auto, using(crate::proofs::Answering::answer_steps))]

ghost use Rattle.dm_ast.specs.Declarations.{declaration_view};
ghost use Rattle.dm_cmp_ops.specs.Expanded.{IsOfText, IsAnswer};

use crate::reading::with_items;
use dm_ast::DeriveInput;
use dm_expansion::Expansion;
pub use dm_partial_eq::partial_eq::print;
use dm_stream::Read;
use std::alloc::Global;

/// The implementation of `PartialEq` that [print] gives the text of, with that text. The refusals are those of [print].
///
/// The declaration is any that the reader gives of a text, whose names may be declared. The trait's name isn't looked at. The ranges in the
/// implementation are places in its own text.
pub fn expand<'a>(alloc: Global, input: &DeriveInput<'a>, trait_name: &str) -> Read<Expansion<'a>>
    requires { IsOfText (declaration_view input.now) }
    ensures { IsAnswer (declaration_view input.now) result }
{
    let text = print(alloc, input, trait_name)?;
    with_items(alloc, text)
}

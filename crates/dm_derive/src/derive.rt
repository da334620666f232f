//! From a trait's name and the text of a declaration to implementations.
#![tactic(auto, using(crate::proofs::Deriving::derive_steps))]

ghost use Rattle.std.specs.Prelude.{ℕ, List, IfOk};
ghost use Rattle.dm_ast.specs.Declarations.{declaration_view};
ghost use Rattle.dm_printed.specs.Texts.{IsOfText};
ghost use Rattle.dm_printed.specs.Answers.{IsDerived, trait_view};
ghost use Rattle.dm_printed.specs.Derived.{Answers, IsDerivable, IsUnrefused, Names};
ghost use Rattle.dm_derive.specs.Answers.{TraitAnswers};
ghost use Rattle.dm_derive.specs.Derived.{Derives};

use dm_ast::DeriveInput;
use dm_cmp_ops::{expand, partial_eq};
use dm_expansion::Expansion;
use dm_printed::declaration::read;
use dm_printed::traits::{Trait, trait_named};
use dm_printed::unknown_trait;
use dm_stream::{Error, Read};
use std::alloc::Global;

/// The implementations that the trait of this name derives for the declaration, with their text, which [dm_printed::derive_printed] gives
/// alone. It refuses where that does.
///
/// The trait prints them, and they are read back from the text: they are what it derives but for their ranges, which are places in that
/// text.
pub fn derive_text<'a>(
    alloc: Global,
    trait_name: &str,
    decl: &'a str,
) -> Result<Expansion<'a>, Error>
    ensures derives { Derives trait_name.now decl.now result }
    ensures answers { IfOk result (λ x. Answers trait_name.now decl.now x.text) }
    ensures complete { IsDerivable trait_name.now decl.now → IsUnrefused result }
{
    match trait_named(trait_name) {
        Some(derived) => derive_known(alloc, derived, decl),
        None => Err(unknown_trait()),
    }
}

fn derive_known<'a>(alloc: Global, derived: Trait, decl: &'a str) -> Read<Expansion<'a>>
    requires { IsDerived derived }
    ensures derives { (name : List ℕ) → Names name (trait_view derived) → Derives name decl.now result }
    ensures answers { (name : List ℕ) → Names name (trait_view derived) → IfOk result (λ x. Answers name decl.now x.text) }
{
    match read(alloc, decl) {
        Ok(input) => expanded(alloc, derived, input.as_tree()),
        Err(error) => Err(error),
    }
}

/// What the trait answers of a declaration.
fn expanded<'a>(alloc: Global, derived: Trait, input: &DeriveInput<'a>) -> Read<Expansion<'a>>
    requires derived { IsDerived derived }
    requires of_text { IsOfText (declaration_view input.now) }
    ensures { TraitAnswers (trait_view derived) (declaration_view input.now) result }
{
    match derived {
        Trait::PartialEq => partial_eq::expand(alloc, input, "PartialEq"),
        Trait::Operator(operator) => expand::derived(alloc, &operator, input),
    }
}

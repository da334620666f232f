//! The traits that are derived.
#![tactic(auto, using(crate::proofs::Deriving::trait_steps))]

ghost use Rattle.std.specs.Prelude.{◌≡◌, option_map};
ghost use Rattle.dm_ast.specs.Declarations.{declaration_view};
ghost use Rattle.dm_operands.specs.Readable.{IsReadable};
ghost use Rattle.dm_printed.specs.Traits as spec;
ghost use Rattle.dm_printed.specs.Answers.{IsDerived, TraitPrints, trait_view};

use dm_ast::DeriveInput;
use dm_operations::expand;
use dm_operators::operator::{Operator, operator_named};
use dm_partial_eq::partial_eq;
use dm_stream::Read;
use std::alloc::Global;

/// A trait that is derived.
#[derive(Clone, Copy)]
pub enum Trait {
    PartialEq,
    Operator(Operator),
}

/// The trait of this name, if it is derived.
pub fn trait_named(name: &str) -> Option<Trait>
    ensures { option_map trait_view result ≡ spec.trait_named name.now }
{
    if name == "PartialEq" {
        return Some(Trait::PartialEq);
    }
    match operator_named(name) {
        Some(operator) => Some(Trait::Operator(operator)),
        None => None,
    }
}

/// The text of what the trait answers of a declaration.
pub fn printed(alloc: Global, derived: Trait, input: &DeriveInput<'_>) -> Read<String>
    requires derived { IsDerived derived }
    requires readable { IsReadable (declaration_view input.now) }
    ensures { TraitPrints (trait_view derived) (declaration_view input.now) result }
{
    match derived {
        Trait::PartialEq => partial_eq::print(alloc, input, "PartialEq"),
        Trait::Operator(operator) => expand::printed(input, &operator, alloc),
    }
}

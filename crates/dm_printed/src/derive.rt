//! From a trait's name and the text of a declaration to what is printed.
#![tactic(auto, using(crate::proofs::Deriving::derive_steps, crate::proofs::Counting::answer_steps))]

ghost use Rattle.std.specs.Prelude.{◌≡◌, ℕ, List};
ghost use Rattle.dm_stream.specs.declared.error.Error.TheVariants as error;
ghost use Rattle.dm_stream.specs.declared.error.Kind.TheVariants as kind;
ghost use Rattle.dm_printed.specs.Answers.{IsDerived, trait_view};
ghost use Rattle.dm_printed.specs.Counts.{Counts};
ghost use Rattle.dm_printed.specs.Derived.{IsDerivable, IsUnrefused, Names, Prints};

use crate::declaration::read;
use crate::predicates::counted;
use crate::traits::{Trait, printed, trait_named};
use dm_stream::{Error, Kind, Read, Refusal, Span};
use std::alloc::Global;

/// What a name that is none of a trait that is derived is refused with.
pub fn unknown_trait() -> Error
    ensures { result ≡ error.Refused (record { kind = kind.UnknownTrait; span = record { start = 0; «end» = 0 } }) }
{
    Error::Refused(Refusal {
        kind: Kind::UnknownTrait,
        span: Span { start: 0, end: 0 },
    })
}

/// The text of the implementation that the trait of this name derives for the declaration.
///
/// The name is that of the trait alone, as `PartialEq` or `AddAssign`. Of these refusals the first that applies is the answer; ranges are in
/// bytes of the declaration's text:
///
/// - `Kind::UnknownTrait` at 0..0: no trait of this name is derived;
/// - `Kind::Lex`: the text isn't made of tokens, at its first fault;
/// - `Kind::TooDeep`: a token stands inside more than 128 groups, at the first such token;
/// - `Kind::TooDeep` or `Kind::Syntax`: the tokens are those of no declaration, or one of them stands deeper than level 128, see
///   `parse_decl`;
/// - `Kind::Unsupported`: a type is a macro call, at the first such type;
/// - `Kind::DuplicateName`: a name is declared twice, at the first name that stands for an earlier one again;
/// - `Kind::ReservedName`: a name begins with `__`, or the type or a type or const parameter is called `derive_more`, at the first
///   such name;
/// - what the trait refuses, see `partial_eq::print`, and of the operators `plan_for`.
pub fn derive_printed(alloc: Global, trait_name: &str, decl: &str) -> Read<String>
    ensures prints { Prints trait_name.now decl.now result }
    ensures complete { IsDerivable trait_name.now decl.now → IsUnrefused result }
{
    match trait_named(trait_name) {
        Some(derived) => print_known(alloc, derived, decl),
        None => Err(unknown_trait()),
    }
}

fn print_known(alloc: Global, derived: Trait, decl: &str) -> Read<String>
    requires { IsDerived derived }
    ensures { (name : List ℕ) → Names name (trait_view derived) → Prints name decl.now result }
{
    match read(alloc, decl) {
        Ok(input) => printed(alloc, derived, input.as_tree()),
        Err(error) => Err(error),
    }
}

/// How many predicates the where clause of that implementation has. It refuses where [derive_printed] does.
pub fn count_predicates(alloc: Global, trait_name: &str, decl: &str) -> Read<usize>
    ensures counts { Counts trait_name.now decl.now result }
    ensures complete { IsDerivable trait_name.now decl.now → IsUnrefused result }
{
    match trait_named(trait_name) {
        Some(derived) => count_known(alloc, derived, decl),
        None => Err(unknown_trait()),
    }
}

fn count_known(alloc: Global, derived: Trait, decl: &str) -> Read<usize>
    requires { IsDerived derived }
    ensures { (name : List ℕ) → Names name (trait_view derived) → Counts name decl.now result }
{
    match read(alloc, decl) {
        Ok(input) => counted(alloc, derived, input.as_tree()),
        Err(error) => Err(error),
    }
}

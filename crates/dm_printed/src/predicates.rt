//! How many predicates an implementation has.
#![tactic(auto, using(crate::proofs::Counting::counting_steps))]

ghost use Rattle.std.specs.Prelude.{◌≡◌, Ok, Err, length, IfOk, IsOkAnd, MatchResult};
ghost use Rattle.dm_ast.specs.Declarations.{declaration_view};
ghost use Rattle.dm_attr.specs.Answers.{IsWalked};
ghost use Rattle.dm_operands.specs.Readable.{IsReadable};
ghost use Rattle.dm_partial_eq.specs.Checks as comparing;
ghost use Rattle.dm_partial_eq.specs.Emitted as compared;
ghost use Rattle.dm_operators.specs.Implementations.{item_of};
ghost use Rattle.dm_operators.specs.Refusals as operating;
ghost use Rattle.dm_operators.specs.Table.{operator_view};
ghost use Rattle.dm_printed.specs.Traits as spec;
ghost use Rattle.dm_printed.specs.Answers.{IsDerived, trait_view};
ghost use Rattle.dm_printed.specs.Counts.{TraitCounts};

use crate::traits::{Trait, printed};
use dm_ast::DeriveInput;
use dm_operands::places::cases_of;
use dm_operator_heads::all_predicates;
use dm_operators::operator::{Implemented, Operator};
use dm_operators::places::plan_for;
use dm_partial_eq::predicates::Compares;
use dm_stream::{Error, Made, Read};
use dm_where_clauses::needed::with_needed;
use std::alloc::{AllocError, Global};

/// How many there are of what was made.
fn number<T: Drop>(made: Result<Vec<T>, AllocError>) -> Made<usize>
    ensures { IfOk result (λ n. IsOkAnd made (λ all. n ≡ length all.items)) }
{
    match made {
        Ok(all) => Ok(all.as_slice().len()),
        Err(error) => Err(error),
    }
}

fn compared_count(alloc: Global, input: &DeriveInput<'_>) -> Read<usize>
    ensures { IsWalked (comparing.refusal (declaration_view input.now)) (λ n. n ≡ length (compared.item (declaration_view input.now)).predicates) result }
{
    let cases = cases_of(alloc, input)?;
    Ok(number(with_needed(input, cases.as_slice(), &Compares, alloc))?)
}

fn operated_count(input: &DeriveInput<'_>, operator: &Operator, alloc: Global) -> Read<usize>
    ensures { IsWalked (operating.refusal (operator_view operator.now) (declaration_view input.now))
        (λ n. n ≡ length (item_of (operator_view operator.now) (declaration_view input.now)).predicates) result }
{
    let plan = plan_for(alloc, input, operator)?;
    let implemented = Implemented {
        form: plan.form,
        operator: *operator,
    };
    let cases = plan.cases.as_slice();
    Ok(number(all_predicates(input, cases, &implemented, alloc))?)
}

/// How many predicates the trait's implementation for a declaration has.
fn count(alloc: Global, derived: Trait, input: &DeriveInput<'_>) -> Read<usize>
    ensures { IsWalked (spec.refusal (trait_view derived) (declaration_view input.now))
        (λ n. n ≡ length (spec.emitted (trait_view derived) (declaration_view input.now)).predicates) result }
{
    match derived {
        Trait::PartialEq => compared_count(alloc, input),
        Trait::Operator(operator) => operated_count(input, &operator, alloc),
    }
}

/// A number, where the text beside it could be made.
fn beside<T: Drop>(number: usize, text: Result<T, Error>) -> Read<usize>
    ensures { MatchResult text (λ _. result ≡ Ok number) (λ e. result ≡ Err e) }
{
    match text {
        Ok(_text) => Ok(number),
        Err(error) => Err(error),
    }
}

/// How many predicates the implementation has that the trait prints for a declaration.
pub(crate) fn counted(alloc: Global, derived: Trait, input: &DeriveInput<'_>) -> Read<usize>
    requires derived { IsDerived derived }
    requires readable { IsReadable (declaration_view input.now) }
    ensures { TraitCounts (trait_view derived) (declaration_view input.now) result }
{
    match count(alloc, derived, input) {
        Ok(predicates) => beside(predicates, printed(alloc, derived, input)),
        Err(error) => Err(error),
    }
}

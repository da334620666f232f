//! What the traits answer to the declaration of a sample, a line each.

ghost use Rattle.std.specs.Prelude.{◌≡◌, ◌++◌, ℕ, List, map, IfOk, OnOk};
ghost use Rattle.std.specs.String.{string_bytes};
ghost use Rattle.dm_operators.specs.Table.{operator_view};
ghost use Rattle.dm_sample.specs.Samples as sample;
ghost use Rattle.dm_sample.specs.Summaries.{told_line};
ghost use Rattle.dm_sample.specs.declared.summary.Told as told;
ghost use Rattle.dm_run.specs.Sampled.{AreLines, IsTold, derived_names, names_of};

use dm_operators::operator::{OPERATORS, Operator};
use dm_printed::count_predicates;
use dm_sample::{Told, add_line, sample_text};
use dm_stream::Error;
use std::alloc::{AllocError, Global};

/// What is told of the answer of the trait of this name.
fn told(alloc: Global, name: &str, decl: &str) -> Result<Told, AllocError>
    ensures { IfOk result (λ t. IsTold name.now decl.now t) }
{
    match count_predicates(alloc, name, decl) {
        Ok(predicates) => Ok(Told::Done {
            items: 1,
            predicates,
        }),
        Err(Error::Refused(refusal)) => Ok(Told::Refused(refusal)),
        Err(Error::NoMemory) => Err(AllocError),
    }
}

/// Adds the line of the trait of this name.
fn add_answer(alloc: Global, lines: &mut String, name: &str, decl: &str) -> Result<(), AllocError>
    ensures { OnOk result ((t : told.Told) × IsTold name.now decl.now t × (string_bytes lines.new ≡ string_bytes lines.old ++ told_line name.now t)) }
{
    let told = told(alloc, name, decl)?;
    add_line(alloc, lines, name, &told)
}

/// Adds the lines of these.
fn add_operators(
    alloc: Global,
    lines: &mut String,
    operators: &[Operator],
    decl: &str,
) -> Result<(), AllocError>
    ensures { OnOk result ((more : List ℕ) × AreLines (names_of (map operator_view operators.now)) decl.now more × (string_bytes lines.new ≡ string_bytes lines.old ++ more)) }
{
    for operator in operators {
        add_answer(alloc, lines, operator.trait_name, decl)?;
    }
    Ok(())
}

/// A line for each trait that is derived.
fn answers(alloc: Global, decl: &str) -> Result<String, AllocError>
    ensures { IfOk result (λ lines. AreLines derived_names decl.now (string_bytes lines)) }
{
    let mut lines = String::new(alloc);
    add_answer(alloc, &mut lines, "PartialEq", decl)?;
    add_operators(alloc, &mut lines, &OPERATORS, decl)?;
    Ok(lines)
}

/// What each trait that is derived answers to the declaration of a sample with `n` variants, a line each.
pub fn sample_lines(alloc: Global, n: u32) -> Result<String, AllocError>
    ensures { IfOk result (λ lines. AreLines derived_names (sample.sample_text n) (string_bytes lines)) }
{
    let text = sample_text(alloc, n)?;
    answers(alloc, text.as_str())
}

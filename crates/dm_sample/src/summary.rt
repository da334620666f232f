//! The lines that tell what traits answer.

ghost use Rattle.std.specs.Prelude.{◌≡◌, ◌++◌, IfOk, OnOk};
ghost use Rattle.std.specs.String.{string_bytes};
ghost use Rattle.dm_sample.specs.Summaries as spec;

use dm_stream::Refusal;
use std::alloc::{AllocError, Global};

/// What is told of a trait's answer to a declaration.
#[derive(Clone, Copy)]
pub enum Told {
    /// There are implementations: how many, and the number of predicates of their where clauses.
    Done { items: usize, predicates: usize },
    /// The declaration is refused.
    Refused(Refusal),
}

fn done_line(
    alloc: Global,
    name: &str,
    items: usize,
    predicates: usize,
) -> Result<String, AllocError>
    ensures { IfOk result (λ line. string_bytes line ≡ spec.done_line name.now items predicates) }
{
    format!(in alloc; "{name} done {items} {predicates}\n")
}

fn place_line(
    alloc: Global,
    name: &str,
    kind: &str,
    start: usize,
    end: usize,
) -> Result<String, AllocError>
    ensures { IfOk result (λ line. string_bytes line ≡ spec.place_line name.now kind.now start end) }
{
    format!(in alloc; "{name} {kind} {start}..{end}\n")
}

/// The line of an answer: the trait's name, and `done ITEMS PREDICATES` or the refusal's kind and its place in bytes.
fn line(alloc: Global, name: &str, told: &Told) -> Result<String, AllocError>
    ensures { IfOk result (λ line. string_bytes line ≡ spec.told_line name.now told.now) }
{
    match told {
        Told::Done { items, predicates } => done_line(alloc, name, *items, *predicates),
        Told::Refused(refusal) => {
            let span = refusal.span;
            place_line(alloc, name, refusal.kind.name(), span.start, span.end)
        }
    }
}

/// Adds the line of an answer of the trait of this name.
pub fn add_line(alloc: Global, text: &mut String, name: &str, told: &Told) -> Result<(), AllocError>
    ensures { OnOk result (string_bytes text.new ≡ string_bytes text.old ++ spec.told_line name.now told.now) }
{
    let made = line(alloc, name, told)?;
    text.push_str(made.as_str())
}

//! The text of the implementation. No tree of it is made: an arm of a tree is some twenty allocations, an arm of a text none.
#![tactic(auto, using(crate::proofs::PrintLaws::printing_steps))]

ghost use Rattle.std.specs.Prelude.{◌≡◌, ◌∷◌, [], map, IfOk, OnOk, string_bytes};
ghost use Rattle.dm_output.specs.Tokens as tokens;
ghost use Rattle.dm_print_types.specs.Prelude.{declaration_view, lay};
ghost use Rattle.dm_partial_eq.specs.Emitted as spec;
ghost use Rattle.dm_partial_eq.specs.Printed as printed;
ghost use Rattle.dm_operands.specs.CaseViews.{case_view};

mod arms;
mod heads;

use crate::comparing::Comparing;
use arms::arms;
use dm_ast::DeriveInput;
use dm_layout::{Layout, Printed};
use dm_operands::cases::{CaseRef, is_enum, some_case_left_out, some_compared};
use dm_print_types::token::{close, fixed, open, word};
use dm_stream::{Delim, Made};
use heads::item_head;
use std::alloc::Global;

/// Whether values of two variants have to be told apart.
fn needs_discriminants(input: &DeriveInput<'_>, cases: &[CaseRef<'_, '_>]) -> bool
    ensures { result ≡ spec.needs_discriminants (declaration_view input.now) (map case_view cases.now) }
{
    is_enum(input) && (some_case_left_out(cases) || cases.len() > 1)
}

/// Adds the pair of the operands.
fn subject(out: &mut Layout) -> Printed
    ensures { OnOk result (out.new ≡ lay out.old (tokens.expr_trees spec.both)) }
{
    fixed(out, "(self , __other)")
}

fn matching<'a>(
    input: &DeriveInput<'a>,
    cases: &[CaseRef<'_, 'a>],
    comparing: Comparing,
    out: &mut Layout,
) -> Printed
    ensures { OnOk result (out.new ≡ lay out.old (tokens.expr_trees (spec.matching comparing (declaration_view input.now) (map case_view cases.now)))) }
{
    word(out, "match")?;
    subject(out)?;
    open(out, Delim::Brace)?;
    arms(input, cases, comparing, out)?;
    close(out, Delim::Brace)
}

/// Adds the tests of the discriminants, where they are wanted, and what joins them to the match.
fn discriminants_part(comparing: Comparing, wanted: bool, out: &mut Layout) -> Printed
    ensures { OnOk result (out.new ≡ lay out.old (printed.discriminants_trees comparing wanted)) }
{
    if wanted {
        comparing.discriminants(out)?;
        comparing.join(out)?;
    }
    Ok(())
}

fn compared<'a>(
    input: &DeriveInput<'a>,
    cases: &[CaseRef<'_, 'a>],
    comparing: Comparing,
    out: &mut Layout,
) -> Printed
    ensures { OnOk result (out.new ≡ lay out.old (printed.compared_trees comparing (declaration_view input.now) (map case_view cases.now))) }
{
    discriminants_part(comparing, needs_discriminants(input, cases), out)?;
    matching(input, cases, comparing, out)
}

/// Adds the body where no case is compared.
fn uncompared(
    input: &DeriveInput<'_>,
    cases: &[CaseRef<'_, '_>],
    comparing: Comparing,
    out: &mut Layout,
) -> Printed
    ensures { OnOk result (out.new ≡ lay out.old (tokens.expr_trees (printed.uncompared comparing (declaration_view input.now) (map case_view cases.now)))) }
{
    if cases.is_empty() {
        return fixed(out, "match * self { }");
    }
    if needs_discriminants(input, cases) {
        return comparing.discriminants(out);
    }
    comparing.neutral(out)
}

fn body<'a>(
    input: &DeriveInput<'a>,
    cases: &[CaseRef<'_, 'a>],
    comparing: Comparing,
    out: &mut Layout,
) -> Printed
    ensures { OnOk result (out.new ≡ lay out.old (tokens.expr_trees (spec.body_expr comparing (declaration_view input.now) (map case_view cases.now)))) }
{
    if some_compared(cases) {
        return compared(input, cases, comparing, out);
    }
    uncompared(input, cases, comparing, out)
}

fn method<'a>(
    input: &DeriveInput<'a>,
    cases: &[CaseRef<'_, 'a>],
    comparing: Comparing,
    out: &mut Layout,
) -> Printed
    ensures { OnOk result (out.new ≡ lay out.old (tokens.method_trees (spec.method comparing (declaration_view input.now) (map case_view cases.now)))) }
{
    comparing.method_head(out)?;
    open(out, Delim::Brace)?;
    body(input, cases, comparing, out)?;
    close(out, Delim::Brace)
}

fn methods<'a>(input: &DeriveInput<'a>, cases: &[CaseRef<'_, 'a>], out: &mut Layout) -> Printed
    ensures { OnOk result (out.new ≡ lay out.old (tokens.in_turn (map tokens.method_trees (spec.methods (declaration_view input.now) (map case_view cases.now))))) }
{
    method(input, cases, Comparing::Equal, out)?;
    if !some_compared(cases) {
        return Ok(());
    }
    method(input, cases, Comparing::Unequal, out)
}

fn item<'x, 'a>(input: &'x DeriveInput<'a>, cases: &[CaseRef<'x, 'a>], out: &mut Layout) -> Printed
    ensures { OnOk result (out.new ≡ lay out.old (tokens.item_trees (spec.item_for (declaration_view input.now) (map case_view cases.now)))) }
{
    item_head(input, cases, out)?;
    open(out, Delim::Brace)?;
    methods(input, cases, out)?;
    close(out, Delim::Brace)
}

/// The text of the implementation.
pub(crate) fn printed_item<'x, 'a>(
    input: &'x DeriveInput<'a>,
    cases: &[CaseRef<'x, 'a>],
    alloc: Global,
) -> Made<String>
    ensures { IfOk result (λ s. string_bytes s ≡ tokens.printed (spec.item_for (declaration_view input.now) (map case_view cases.now) ∷ [])) }
{
    let mut out = Layout::new(alloc);
    item(input, cases, &mut out)?;
    out.line_end()?;
    Ok(out.into_string())
}

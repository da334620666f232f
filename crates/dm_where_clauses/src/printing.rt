//! The predicates as text.
#![tactic(auto, using(crate::proofs::ClauseSteps::clause_steps))]

ghost use Rattle.std.specs.Prelude.{◌≡◌, OnOk, map, true};
ghost use Rattle.dm_ast.specs.TypeTokens.{spaced};
ghost use Rattle.dm_output.specs.Tokens as tokens;
ghost use Rattle.dm_print_types.specs.Prelude.{ty_view, lay};
ghost use Rattle.dm_bounds.specs.Needed.{bounded};
ghost use Rattle.dm_bounds.specs.RightSide.{right_copies};
ghost use Rattle.dm_where_clauses.specs.Shown.{shown};

use crate::needed::{Asks, Predicate};
use dm_ast::Ty;
use dm_layout::{Layout, Printed};
use dm_print_types::param::predicate;
use dm_print_types::path::ty;
use dm_print_types::token::{fixed, punct, word};

/// Adds that the trait is asked of a type.
fn needed<A: Asks>(of: &Ty<'_>, asks: &A, out: &mut Layout) -> Printed
    ensures { OnOk result (out.new ≡ lay out.old (tokens.predicate_trees (bounded ((A.asking asks.now).path (ty_view of.now)) (ty_view of.now)))) }
{
    ty(of, out)?;
    punct(out, ':')?;
    asks.print_path(of, out)
}

/// Adds that any right side is copied.
fn copied(out: &mut Layout) -> Printed
    ensures { OnOk result (out.new ≡ lay out.old (tokens.predicate_trees right_copies)) }
{
    fixed(
        out,
        "__derive_more_Rhs : derive_more :: core :: marker :: Copy",
    )
}

fn shown<A: Asks>(one: &Predicate<'_, '_>, asks: &A, out: &mut Layout) -> Printed
    ensures { OnOk result (out.new ≡ lay out.old (tokens.predicate_trees (shown (A.asking asks.now) one.now))) }
{
    match one {
        Predicate::Declared(declared) => predicate(declared, out),
        Predicate::Needed(ty) => needed(ty, asks, out),
        Predicate::RightCopies => copied(out),
    }
}

/// Predicates with commas between them.
fn joined<A: Asks>(all: &[Predicate<'_, '_>], asks: &A, out: &mut Layout) -> Printed
    ensures { OnOk result (out.new ≡ lay out.old (spaced tokens.comma true (map tokens.predicate_trees (map (shown (A.asking asks.now)) all.now)))) }
{
    for (i, one) in all.iter().enumerate() {
        if i > 0 {
            punct(out, ',')?;
        }
        shown(one, asks, out)?;
    }
    Ok(())
}

/// Adds the predicates behind `where`, where there are some.
pub fn clause<A: Asks>(all: &[Predicate<'_, '_>], asks: &A, out: &mut Layout) -> Printed
    ensures { OnOk result (out.new ≡ lay out.old (tokens.where_trees (map (shown (A.asking asks.now)) all.now))) }
{
    if all.is_empty() {
        return Ok(());
    }
    word(out, "where")?;
    joined(all, asks, out)
}

//! Statements without expressions.
#![tactic(auto, using(crate::proofs::Following::level_steps))]

ghost use Rattle.std.specs.Prelude.{◌≡◌, ◌∷◌, ◌++◌, [], option_map};
ghost use Rattle.dm_ast.specs.Tree.{ty_view, path_view};
ghost use Rattle.dm_output.specs.Output.{check_stmt, import_stmt, const_stmt};
ghost use Rattle.dm_output.specs.Views.{opaque_view};
ghost use Rattle.dm_levels.specs.Levels as spec;
ghost use Rattle.dm_type_levels.specs.Passing.{Passes};

use crate::parts::{opaque, three};
use dm_ast::{Opaque, Path, Ty};
use dm_stream::{Entry, Ident, Literal};
use dm_type_levels::pass::{Behind, token};
use dm_type_levels::ty::{path, ty};

/// `let _: T;`
pub(crate) fn check<'t, 'a>(of: &Ty<'_>, level: usize, rest: &'t [Entry<'a>]) -> Behind<'t, 'a>
    ensures { Passes (spec.stmt_levels level (check_stmt (ty_view of.now))) rest.now result }
{
    let rest = three(level, rest)?;
    let rest = ty(of, level, rest)?;
    token(level, rest)
}

/// `use p as _;`
pub(crate) fn import<'t, 'a>(of: &Path<'_>, level: usize, rest: &'t [Entry<'a>]) -> Behind<'t, 'a>
    ensures { Passes (spec.stmt_levels level (import_stmt (path_view of.now))) rest.now result }
{
    let rest = token(level, rest)?;
    let rest = path(of, level, rest)?;
    three(level, rest)
}

/// `const X: T = base + number;`
pub(crate) fn constant<'t, 'a>(
    of: &Ty<'_>,
    ident: &Ident<'_>,
    from: &Option<Opaque<'_>>,
    number: &Literal<'_>,
    level: usize,
    rest: &'t [Entry<'a>],
) -> Behind<'t, 'a>
    ensures { Passes (spec.stmt_levels level (const_stmt ident.now (ty_view of.now) (option_map opaque_view from.now) number.now)) rest.now result }
{
    let rest = three(level, rest)?;
    let rest = ty(of, level, rest)?;
    assigned(from, level, rest)
}

/// `= base + number;`
fn assigned<'t, 'a>(
    from: &Option<Opaque<'_>>,
    level: usize,
    rest: &'t [Entry<'a>],
) -> Behind<'t, 'a>
    ensures { Passes (level ∷ (spec.base_levels level (option_map opaque_view from.now) ++ level ∷ level ∷ level ∷ [])) rest.now result }
{
    let rest = token(level, rest)?;
    let rest = base(from, level, rest)?;
    three(level, rest)
}

fn base<'t, 'a>(from: &Option<Opaque<'_>>, level: usize, rest: &'t [Entry<'a>]) -> Behind<'t, 'a>
    ensures { Passes (spec.base_levels level (option_map opaque_view from.now)) rest.now result }
{
    match from {
        None => token(level, rest),
        Some(tokens) => opaque(tokens, level, rest),
    }
}

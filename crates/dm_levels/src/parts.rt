//! Parts that hold no patterns, expressions or types of their own.
#![tactic(auto, using(crate::proofs::Following::level_steps))]

ghost use Rattle.std.specs.Prelude.{◌≡◌, ◌∷◌, [], ◌≤◌, OnOk};
ghost use Rattle.dm_ast.specs.Tree.{path_view, maybe_self_view};
ghost use Rattle.dm_ast.specs.Spelling.{deepest};
ghost use Rattle.dm_output.specs.Views.{opaque_view};
ghost use Rattle.dm_levels.specs.Levels as spec;
ghost use Rattle.dm_type_levels.specs.Passing.{Passes};
ghost use Rattle.dm_type_levels.specs.TypeLevels.{path_expr_levels};

use dm_ast::Opaque;
use dm_output::PathExpr;
use dm_stream::Entry;
use dm_type_levels::parts::group;
use dm_type_levels::pass::{Behind, pair, token};
use dm_type_levels::ty;

/// Three tokens of this level.
pub(crate) fn three<'t, 'a>(level: usize, rest: &'t [Entry<'a>]) -> Behind<'t, 'a>
    ensures gives { Passes (level ∷ level ∷ level ∷ []) rest.now result }
    ensures within { OnOk result (level ≤ deepest) }
{
    let rest = pair(level, rest)?;
    token(level, rest)
}

/// Tokens that are not read, in parentheses.
pub(crate) fn opaque<'t, 'a>(
    tokens: &Opaque<'_>,
    level: usize,
    rest: &'t [Entry<'a>],
) -> Behind<'t, 'a>
    ensures { Passes (spec.opaque_levels level (opaque_view tokens.now)) rest.now result }
{
    group(&tokens.tokens, level, rest)
}

/// A path, or a qualified one.
pub(crate) fn path_expr<'t, 'a>(
    path: &PathExpr<'_>,
    level: usize,
    rest: &'t [Entry<'a>],
) -> Behind<'t, 'a>
    ensures { Passes (path_expr_levels level (maybe_self_view path.now.qself) (path_view path.now.path)) rest.now result }
{
    ty::path_expr(&path.path, &path.qself, level, rest)
}

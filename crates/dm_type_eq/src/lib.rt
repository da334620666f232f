//! Which types are spelled with the same tokens.
#![tactic(auto)]

ghost use Rattle.std.specs.Prelude.{◌≡◌, IsTrue};
ghost use Rattle.dm_ast.specs.Tree.{ty_view};
ghost use Rattle.dm_ast.specs.TypeTokens.{type_trees};
ghost use Rattle.dm_same.specs.SameTypes as same;
ghost use Rattle.dm_type_eq.specs.BareTokens.{tokens_of};
ghost use Rattle.dm_type_eq.specs.Spelled.{IsSpelled};

use dm_ast::Ty;
use dm_same::same_type;

/// Whether two types have the same tokens, wherever these stand. Spacing counts only between tokens that are not read.
/// The answer is yes exactly for the same tokens where each type was read, by whichever call, or differs from a read one in ranges alone,
/// as types made by hand do.
#[tactic(auto, using(crate::proofs::SameSpelled::tokens_told))]
pub fn type_eq(a: &Ty<'_>, b: &Ty<'_>) -> bool
    ensures is { result ≡ same.same_type (ty_view a.now) (ty_view b.now) }
    ensures tokens { IsTrue result → tokens_of (type_trees (ty_view a.now)) ≡ tokens_of (type_trees (ty_view b.now)) }
    ensures spelled { IsSpelled (ty_view a.now) → IsSpelled (ty_view b.now) →
        tokens_of (type_trees (ty_view a.now)) ≡ tokens_of (type_trees (ty_view b.now)) → IsTrue result }
{
    same_type(a, b)
}

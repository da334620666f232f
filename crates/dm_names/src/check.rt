//! Whether a declaration's names may stand.
#![tactic(auto)]

ghost use Rattle.std.specs.Prelude.{◌≡◌, MatchResult};
ghost use Rattle.dm_ast.specs.Declarations.{declaration_view};
ghost use Rattle.dm_ast.specs.Names.{Named, names_refusal};

use crate::declarations::{in_declaration, place_of};
use crate::places::Wanted;
use dm_ast::DeriveInput;
use dm_repeats::repeats::repeated_name;
use dm_stream::{Kind, Refusal};

/// Whether the names that a declaration declares may stand: no macro type stands in it, the names of one list are
/// distinct, and none is reserved. This takes no memory, and compares each name with those before it, so its time grows
/// with the square of a list's length. `check_names_in` answers the same in linear time, and takes memory for the names.
///
/// The refusal is the first of these in this order, at its first place in the text: `Unsupported` at a macro type,
/// `DuplicateName` at the second of two names, `ReservedName` at a name that begins with `__` or, among types, at `derive_more`.
pub fn check_names(input: &DeriveInput<'_>) -> Result<(), Refusal>
    ensures { MatchResult result (λ _. Named (declaration_view input.now)) (λ r. names_refusal (declaration_view input.now) ≡ Some r) }
{
    let any = in_declaration(Wanted::Either, input);
    if let Some(span) = place_of(Wanted::MacroType, any, input) {
        let kind = Kind::Unsupported;
        return Err(Refusal { kind, span });
    }
    if let Some(span) = repeated_name(input) {
        let kind = Kind::DuplicateName;
        return Err(Refusal { kind, span });
    }
    if let Some(span) = place_of(Wanted::Reserved, any, input) {
        let kind = Kind::ReservedName;
        return Err(Refusal { kind, span });
    }
    Ok(())
}

//! Whole declarations.

ghost use Rattle.std.specs.Prelude.{◌≡◌, IfOk};
ghost use Rattle.dm_ast.specs.Declarations.{declaration_view};
ghost use Rattle.dm_replace.specs.Replaced as spec;

use crate::declared::self_type;
use dm_ast::DeriveInput;
use dm_copy::CloneIn;
use std::alloc::{AllocError, Global};

/// The declaration with its type's name and an argument for each of its parameters in place of each segment `Self`, in the types of
/// fields, in parameters and in predicates. Arguments behind a `Self` are left out. All else stays as it is: attributes,
/// discriminants, whatever is kept as tokens. It fails for want of memory alone.
pub fn replace_self_type<'a>(
    alloc: Global,
    input: &DeriveInput<'a>,
) -> Result<DeriveInput<'a>, AllocError>
    ensures { IfOk result (λ r. declaration_view r ≡ spec.replaced (declaration_view input.now)) }
{
    let own = self_type(input, alloc)?;
    input.replace_self(Some(&own), alloc)
}

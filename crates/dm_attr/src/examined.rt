//! Which attributes are looked at.

ghost use Rattle.std.specs.Prelude.{◌≡◌};
ghost use Rattle.dm_attr.specs.Examined as spec;

use dm_ast::{Attribute, PlainPath};
use dm_stream::Ident;

/// Whether an identifier is written so, and not raw.
pub(crate) fn is_spelled(ident: &Ident<'_>, word: &str) -> bool
    ensures { result ≡ spec.is_spelled word.now ident.now }
{
    !ident.raw && ident.name.is_same(word)
}

fn is_one_word(path: &PlainPath<'_>, word: &str) -> bool
    ensures { result ≡ spec.is_one_word word.now path.now.segments }
{
    match path.segments.as_slice() {
        [only] => is_spelled(only, word),
        _ => false,
    }
}

/// Whether an attribute's path is exactly this identifier.
pub(crate) fn has_name(attr: &Attribute<'_>, name: &str) -> bool
    ensures { result ≡ spec.is_examined name.now attr.now }
{
    !attr.path.leading_colon && is_one_word(&attr.path, name)
}

//! What is known of legacy forms.

ghost use Rattle.std.specs.Prelude.{◌≡◌, IfOk};
ghost use Rattle.dm_stream.specs.Cursors.{left, end_of, sound};
ghost use Rattle.dm_attr.specs.Meanings.{Meaning, knows_none};

use dm_stream::Cursor;
use std::alloc::{AllocError, Global};

/// Knows the forms that attributes had in earlier versions of derive_more, by two tests of an attribute's contents. `()` knows
/// of none. In derive_more a parser reads a kind in place of the kind's own reader, and refuses these forms itself.
pub trait Parser {
    /// What the two tests answer.
    ghost meaning: { Self → Meaning };

    /// Whether the trees that are left list types in an earlier form.
    fn legacy_types(&self, alloc: Global, c: Cursor<'_, '_>) -> Result<bool, AllocError>
        requires { sound c }
        ensures { IfOk result (λ b. b ≡ (meaning self.now).types (left c.entry) (end_of c.entry)) };

    /// Whether the trees that are left list conversions in an earlier form.
    fn legacy_conversions(&self, alloc: Global, c: Cursor<'_, '_>) -> Result<bool, AllocError>
        requires { sound c }
        ensures { IfOk result (λ b. b ≡ (meaning self.now).conversions (left c.entry) (end_of c.entry)) };
}

/// No contents are in an earlier form.
impl Parser for () {
    ghost meaning = { λ _. knows_none };

    fn legacy_types(&self, _alloc: Global, _c: Cursor<'_, '_>) -> Result<bool, AllocError> {
        Ok(false)
    }

    fn legacy_conversions(&self, _alloc: Global, _c: Cursor<'_, '_>) -> Result<bool, AllocError> {
        Ok(false)
    }
}

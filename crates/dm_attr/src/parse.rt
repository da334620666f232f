//! What is read from the contents of an attribute.

ghost use Rattle.std.specs.Prelude.{ℕ, Result, IfOk};
ghost use Rattle.dm_stream.specs.Trees.{Trees};
ghost use Rattle.dm_stream.specs.Cursors.{left, end_of, sound, SharesEnd};
ghost use Rattle.dm_stream.specs.declared.error.Refusal.{Refusal};
ghost use Rattle.dm_attr.specs.Answers.{Within};

use dm_stream::{Cursor, Error};
use std::alloc::Global;

/// A kind of contents of attributes. It stands for syn's trait of this name, which derive_more's kinds of attributes have.
pub trait Parse<'a>: Sized {
    /// What is read from trees with the end of their list: a value and the trees behind it, or a refusal.
    ghost reads: { Trees → ℕ → Result (Self × Trees) Refusal → Type 0 };

    /// Reads a value from the trees that are left at `c`, and answers the place behind it.
    ///
    /// The kinds of this crate read all trees that are left, so the place is the end of their list. They refuse trees that don't
    /// read with `AttrSyntax`, at the range of the first tree, or the empty range at the end. No legacy form is looked for.
    fn parse<'t>(alloc: Global, c: Cursor<'t, 'a>) -> Result<(Self, Cursor<'t, 'a>), Error>
        requires { sound c }
        ensures within { Within (reads (left c.entry) (end_of c.entry)) (λ r. (r.0, left r.1)) result }
        ensures place { IfOk result (λ r. SharesEnd c.entry r.1) };
}

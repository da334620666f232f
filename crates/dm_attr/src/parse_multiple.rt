//! What is read from attributes, of which there may be several.

ghost use Rattle.std.specs.Prelude.{Result};
ghost use Rattle.dm_stream.specs.declared.error.Refusal.{Refusal};
ghost use Rattle.dm_ast.specs.declared.plain.Attribute.{Attribute};
ghost use Rattle.dm_attr.specs.Answers.{Within, same};
ghost use Rattle.dm_attr.specs.Meanings.{Meaning};
ghost use Rattle.dm_attr.specs.declared.spanning.Spanning.{Spanning};

use crate::parse::Parse;
use crate::parser::Parser;
use crate::spanning::Spanning;
use dm_ast::Attribute;
use dm_stream::Error;
use std::alloc::Global;

/// A kind of attributes, as derive_more's trait of this name. `parse_attrs` reads those of one name and merges them.
pub trait ParseMultiple<'a>: Parse<'a> + Drop {
    /// What is read from an attribute under a parser's meaning.
    ghost reads_attr: { Attribute → Meaning → Result Self Refusal → Type 0 };

    /// What two values with their ranges make.
    ghost merges: { Spanning Self → Spanning Self → Result (Spanning Self) Refusal → Type 0 };

    /// Reads one attribute, whatever its path. One that doesn't read is refused with `AttrSyntax` at its own range, from `#` to
    /// `]`, or by the kinds that ask `parser` with `LegacySyntax` there.
    fn parse_attr_with<P: Parser>(
        alloc: Global,
        attr: &Attribute<'a>,
        parser: &P,
    ) -> Result<Self, Error>
        ensures { Within (reads_attr attr.now (P.meaning parser.now)) same result };

    /// Merges a value with one that stands behind it. What they make has the earlier range. Where the kind may be given once the
    /// later is refused with `AttrRepeated`, and where they exclude each other with `AttrMixed`, at the later range.
    fn merge_attrs(prev: Spanning<Self>, new: Spanning<Self>) -> Result<Spanning<Self>, Error>
        ensures { Within (merges prev new) same result };
}

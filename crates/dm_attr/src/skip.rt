//! The kind of attributes that leave a place out.

ghost use Rattle.std.specs.Prelude.{◌≡◌};
ghost use Rattle.dm_stream.specs.Cursors.{left, sound};
ghost use Rattle.dm_attr.specs.Answers.{Within, same};
ghost use Rattle.dm_attr.specs.Kinds.{ReadsWhole, ReadsContents, MergesNever};
ghost use Rattle.dm_attr.specs.Skips as spec;

use crate::contents::{parse_contents, refuse_second};
use crate::examined::is_spelled;
use crate::parse::Parse;
use crate::parse_multiple::ParseMultiple;
use crate::parser::Parser;
use crate::spanning::Spanning;
use crate::words::{only_ident, whole};
use dm_ast::Attribute;
use dm_stream::{Cursor, Error, Ident};
use std::alloc::Global;

/// The word by which a place is left out: `#[NAME(skip)]` or `#[NAME(ignore)]`, in any delimiters, as in derive_more.
///
/// The word is compared as it is spelled: a raw one, as `r#skip`, doesn't read. Contents that don't read are refused with
/// `AttrSyntax`, by `parse` at their first tree or their end, by `parse_attr_with` at the attribute. A second attribute is refused
/// with `AttrRepeated` at the later one.
#[derive(Clone, Copy, Debug, PartialEq, Eq)]
pub enum Skip {
    BySkip,
    ByIgnore,
}

impl Skip {
    /// The word, `skip` or `ignore`.
    pub fn name(&self) -> &'static str
        ensures { result.now ≡ spec.skip_name self.now }
    {
        match self {
            Skip::BySkip => "skip",
            Skip::ByIgnore => "ignore",
        }
    }
}

fn skip_named(ident: &Ident<'_>) -> Option<Skip>
    ensures { result ≡ spec.skip_named ident.now }
{
    if is_spelled(ident, "skip") {
        Some(Skip::BySkip)
    } else if is_spelled(ident, "ignore") {
        Some(Skip::ByIgnore)
    } else {
        None
    }
}

fn skip_in(c: Cursor<'_, '_>) -> Option<Skip>
    requires { sound c }
    ensures { result ≡ spec.skip_in (left c.entry) }
{
    skip_named(only_ident(c)?)
}

impl<'a> Parse<'a> for Skip {
    ghost reads = { ReadsWhole spec.skip_in };

    fn parse<'t>(_alloc: Global, c: Cursor<'t, 'a>) -> Result<(Skip, Cursor<'t, 'a>), Error> {
        whole(c, skip_in(c))
    }
}

impl<'a> ParseMultiple<'a> for Skip {
    ghost reads_attr = { λ a _. ReadsContents (ReadsWhole spec.skip_in) a };

    ghost merges = { MergesNever };

    fn parse_attr_with<P: Parser>(
        alloc: Global,
        attr: &Attribute<'a>,
        _parser: &P,
    ) -> Result<Skip, Error> {
        parse_contents(alloc, attr)
    }

    fn merge_attrs(prev: Spanning<Skip>, new: Spanning<Skip>) -> Result<Spanning<Skip>, Error>
        ensures { Within (MergesNever prev new) same result }
    {
        refuse_second(prev, new)
    }
}

//! The kind of attributes that forward a trait to what is inside.

ghost use Rattle.std.specs.Prelude.{◌≡◌};
ghost use Rattle.dm_stream.specs.Cursors.{left, sound};
ghost use Rattle.dm_attr.specs.Answers.{Within, same};
ghost use Rattle.dm_attr.specs.Kinds.{ReadsWhole, ReadsContents, MergesNever};
ghost use Rattle.dm_attr.specs.Kinds as spec;

use crate::contents::{parse_contents, refuse_second};
use crate::examined::is_spelled;
use crate::parse::Parse;
use crate::parse_multiple::ParseMultiple;
use crate::parser::Parser;
use crate::spanning::Spanning;
use crate::words::{only_ident, whole};
use dm_ast::Attribute;
use dm_stream::{Cursor, Error};
use std::alloc::Global;

/// The word by which a trait is forwarded to what is inside: `#[NAME(forward)]`, in any delimiters, as in derive_more.
///
/// The word is compared as it is spelled: a raw one, `r#forward`, doesn't read. Contents that don't read are refused with
/// `AttrSyntax`, by `parse` at their first tree or their end, by `parse_attr_with` at the attribute. A second attribute is refused
/// with `AttrRepeated` at the later one.
#[derive(Clone, Copy, Debug, PartialEq, Eq)]
pub struct Forward;

fn forward_in(c: Cursor<'_, '_>) -> Option<Forward>
    requires { sound c }
    ensures { result ≡ spec.forward_in (left c.entry) }
{
    if is_spelled(only_ident(c)?, "forward") {
        Some(Forward)
    } else {
        None
    }
}

impl<'a> Parse<'a> for Forward {
    ghost reads = { ReadsWhole spec.forward_in };

    fn parse<'t>(_alloc: Global, c: Cursor<'t, 'a>) -> Result<(Forward, Cursor<'t, 'a>), Error> {
        whole(c, forward_in(c))
    }
}

impl<'a> ParseMultiple<'a> for Forward {
    ghost reads_attr = { λ a _. ReadsContents (ReadsWhole spec.forward_in) a };

    ghost merges = { MergesNever };

    fn parse_attr_with<P: Parser>(
        alloc: Global,
        attr: &Attribute<'a>,
        _parser: &P,
    ) -> Result<Forward, Error> {
        parse_contents(alloc, attr)
    }

    fn merge_attrs(
        prev: Spanning<Forward>,
        new: Spanning<Forward>,
    ) -> Result<Spanning<Forward>, Error>
        ensures { Within (MergesNever prev new) same result }
    {
        refuse_second(prev, new)
    }
}

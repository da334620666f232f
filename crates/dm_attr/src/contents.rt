//! What most kinds share: that an attribute is read by its contents, and that it may be given once.

ghost use Rattle.std.specs.Prelude.{◌≡◌, MatchOption, IfSome, None, Some};
ghost use Rattle.dm_stream.specs.Cursors.{left, end_of, sound};
ghost use Rattle.dm_stream.specs.declared.error.Error.TheVariants.{Refused};
ghost use Rattle.dm_stream.specs.declared.error.Kind.TheVariants.{AttrSyntax};
ghost use Rattle.dm_attr.specs.Answers.{Within, same};
ghost use Rattle.dm_attr.specs.Kinds.{ReadsContents, MergesNever};
ghost use Rattle.dm_attr.specs.Kinds as spec;

use crate::parse::Parse;
use crate::spanning::Spanning;
use dm_ast::{AttrArgs, Attribute};
use dm_stream::{Cursor, Error, Kind, Refusal, Span};
use std::alloc::Global;

fn unread(span: Span) -> Error
    ensures { result ≡ Refused (record { kind = AttrSyntax; span = span }) }
{
    Error::Refused(Refusal {
        kind: Kind::AttrSyntax,
        span,
    })
}

/// Where a refusal of contents is told: that they don't read at the attribute, and any other where it stands.
fn placed(attribute: Span, refusal: Refusal) -> Refusal
    ensures { result ≡ spec.placed attribute refusal.kind refusal.span }
{
    match refusal.kind {
        Kind::AttrSyntax => Refusal {
            kind: Kind::AttrSyntax,
            span: attribute,
        },
        _ => refusal,
    }
}

/// The place before what stands in delimiters behind an attribute's path.
fn contents<'t, 'a>(attr: &'t Attribute<'a>) -> Option<Cursor<'t, 'a>>
    ensures gives { MatchOption result (spec.contents_in attr.now.args ≡ None) (λ c. spec.contents_in attr.now.args ≡ Some (record { trees = left c; limit = end_of c })) }
    ensures sound { IfSome result (λ c. sound c) }
{
    match &attr.args {
        AttrArgs::List(_, inside) => Some(inside.cursor()),
        AttrArgs::Absent => None,
        AttrArgs::Value(_) => None,
    }
}

/// Reads an attribute by its contents, in any delimiters, which have to be read to their end.
///
/// `AttrSyntax` is refused at the attribute's own range where it has no contents, as alone or with `=`, and where they don't read
/// or not to their end. Any other refusal of the contents is the answer as it stands.
pub fn parse_contents<'a, T: Parse<'a> + Drop>(
    alloc: Global,
    attr: &Attribute<'a>,
) -> Result<T, Error>
    ensures { Within (ReadsContents T.reads attr.now) same result }
{
    let Some(c) = contents(attr) else {
        return Err(unread(attr.span));
    };
    match T::parse(alloc, c) {
        Ok((value, rest)) => {
            if rest.eof() {
                Ok(value)
            } else {
                Err(unread(attr.span))
            }
        }
        Err(Error::Refused(refusal)) => Err(Error::Refused(placed(attr.span, refusal))),
        Err(Error::NoMemory) => Err(Error::NoMemory),
    }
}

/// Merges nothing: a kind that may be given once refuses a second attribute with `AttrRepeated`, at the later range.
pub fn refuse_second<T: Drop>(prev: Spanning<T>, new: Spanning<T>) -> Result<Spanning<T>, Error>
    ensures { Within (MergesNever prev new) same result }
{
    let _ = prev;
    Err(Error::Refused(Refusal {
        kind: Kind::AttrRepeated,
        span: new.span,
    }))
}

//! Contents that are one word.

ghost use Rattle.std.specs.Prelude.{◌≡◌, MatchOption, None, Some, IfOk};
ghost use Rattle.dm_stream.specs.Cursors.{left, end_of, sound, first_span, SharesEnd};
ghost use Rattle.dm_attr.specs.Answers.{Within};
ghost use Rattle.dm_attr.specs.Kinds.{whole_or_unread};
ghost use Rattle.dm_attr.specs.Kinds as spec;

use dm_stream::{Cursor, Error, Ident, Kind, Read, Refusal};

/// The identifier that all trees left are.
pub(crate) fn only_ident<'t, 'a>(c: Cursor<'t, 'a>) -> Option<&'t Ident<'a>>
    requires { sound c }
    ensures { MatchOption result (spec.only_ident (left c.entry) ≡ None) (λ i. spec.only_ident (left c.entry) ≡ Some i.now) }
{
    let (ident, rest) = c.ident()?;
    if rest.eof() { Some(ident) } else { None }
}

/// What all trees left were read as, with the place behind them, or the refusal of trees that don't read.
pub(crate) fn whole<'t, 'a, T>(c: Cursor<'t, 'a>, found: Option<T>) -> Read<(T, Cursor<'t, 'a>)>
    requires { sound c }
    ensures within { Within (λ answer. answer ≡ whole_or_unread (first_span (left c.entry) (end_of c.entry)) found) (λ r. (r.0, left r.1)) result }
    ensures place { IfOk result (λ r. SharesEnd c.entry r.1) }
{
    match found {
        Some(value) => Ok((value, c.behind_all())),
        None => Err(Error::Refused(Refusal {
            kind: Kind::AttrSyntax,
            span: c.span(),
        })),
    }
}

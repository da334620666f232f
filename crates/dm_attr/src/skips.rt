//! What the attributes of one name say of a place where one may be given, and of which places `PartialEq` leaves out.

ghost use Rattle.std.specs.Prelude.{◌≡◌, None, option_map};
ghost use Rattle.dm_stream.specs.declared.error.Error.TheVariants.{Refused};
ghost use Rattle.dm_stream.specs.declared.error.Kind.TheVariants.{AttrNotAllowed};
ghost use Rattle.dm_attr.specs.Answers.{IsGiven};
ghost use Rattle.dm_attr.specs.Folding.{Folds};
ghost use Rattle.dm_attr.specs.Meanings.{knows_none};
ghost use Rattle.dm_attr.specs.SkipRefusals as spec;

use crate::fold::parse_attrs;
use crate::forward::Forward;
use crate::parse_multiple::ParseMultiple;
use crate::skip::Skip;
use crate::spanning::Spanning;
use dm_ast::Attribute;
use dm_stream::{Error, Kind, Read, Refusal, Span};
use std::alloc::Global;

/// Whether attributes of this name give a value of this kind, with the refusals of `parse_attrs`.
fn is_given<'a, T: ParseMultiple<'a>>(
    alloc: Global,
    attrs: &[Attribute<'a>],
    name: &str,
) -> Read<bool>
    ensures { IsGiven (Folds (λ a. T.reads_attr a knows_none) T.merges name.now attrs.now None) result }
{
    let found: Option<Spanning<T>> = parse_attrs(alloc, attrs, name)?;
    Ok(found.is_some())
}

/// Whether an attribute of this name is `skip` or `ignore` in any delimiters, as in derive_more.
///
/// The name and the word are compared as they are spelled, so that raw ones say nothing. The first attribute of the name that is
/// something else is refused with `AttrSyntax`, and a second one that reads with `AttrRepeated`, each at its own range, from `#` to `]`.
pub fn is_skipped_under(alloc: Global, attrs: &[Attribute<'_>], name: &str) -> Result<bool, Error>
    ensures { spec.IsSkipUnder name.now attrs.now result }
{
    is_given::<Skip>(alloc, attrs, name)
}

/// Whether an attribute of this name is `forward` in any delimiters, with the refusals of [is_skipped_under].
pub fn is_forwarded_under(alloc: Global, attrs: &[Attribute<'_>], name: &str) -> Result<bool, Error>
    ensures { spec.IsForwardUnder name.now attrs.now result }
{
    is_given::<Forward>(alloc, attrs, name)
}

fn not_allowed(span: Span) -> Error
    ensures { result ≡ Refused (record { kind = AttrNotAllowed; span = span }) }
{
    Error::Refused(Refusal {
        kind: Kind::AttrNotAllowed,
        span,
    })
}

/// Refuses what was found, at its range.
fn refuse_found(found: Option<Spanning<Skip>>) -> Read<()>
    ensures { spec.IsRefusedBy (option_map spec.not_allowed found) result }
{
    match found {
        None => Ok(()),
        Some(found) => Err(not_allowed(found.span)),
    }
}

/// Refuses a place that may not be left out where attributes of this name leave it out: with the refusals of [is_skipped_under], and
/// an attribute that reads with `AttrNotAllowed` at its range.
pub fn refuse_skip(alloc: Global, attrs: &[Attribute<'_>], name: &str) -> Result<(), Error>
    ensures { spec.IsRefusedBy (spec.unskipped_refusal name.now attrs.now) result }
{
    let found: Option<Spanning<Skip>> = parse_attrs(alloc, attrs, name)?;
    refuse_found(found)
}

/// Whether `PartialEq` leaves out the place with these attributes: one of the name `partial_eq`, or of the name `eq` where there is
/// none of the first, is `skip` or `ignore`, with the refusals of [is_skipped_under].
pub fn is_left_out(alloc: Global, attrs: &[Attribute<'_>]) -> Result<bool, Error>
    ensures { spec.IsSkipAnswer attrs.now result }
{
    if is_skipped_under(alloc, attrs, "partial_eq")? {
        return Ok(true);
    }
    is_skipped_under(alloc, attrs, "eq")
}

//! How the attributes of one name are read and merged, for every kind.

ghost use Rattle.std.specs.Prelude.{None};
ghost use Rattle.dm_attr.specs.Answers.{Within, same};
ghost use Rattle.dm_attr.specs.Folding.{MergesOption, Turn, Folds};
ghost use Rattle.dm_attr.specs.Meanings.{knows_none};

use crate::examined::has_name;
use crate::parse_multiple::ParseMultiple;
use crate::parser::Parser;
use crate::spanning::Spanning;
use dm_ast::Attribute;
use dm_stream::{Error, Read};
use std::alloc::Global;

/// Merges two values where both are there. Else the answer is the one that is there, or none. It refuses what `merge_attrs` of
/// the kind refuses.
pub fn merge_opt_attrs<'a, T: ParseMultiple<'a>>(
    prev: Option<Spanning<T>>,
    new: Option<Spanning<T>>,
) -> Result<Option<Spanning<T>>, Error>
    ensures { Within (MergesOption T.merges prev new) same result }
{
    match (prev, new) {
        (Some(prev), Some(new)) => {
            let merged = T::merge_attrs(prev, new)?;
            Ok(Some(merged))
        }
        (prev, None) => Ok(prev),
        (None, new) => Ok(new),
    }
}

/// Reads an attribute of this name and merges it into what was found before.
fn take_attr<'a, T: ParseMultiple<'a>, P: Parser>(
    alloc: Global,
    attr: &Attribute<'a>,
    name: &str,
    parser: &P,
    found: Option<Spanning<T>>,
) -> Read<Option<Spanning<T>>>
    ensures { Within (Turn (λ a. T.reads_attr a (P.meaning parser.now)) T.merges name.now attr.now found) same result }
{
    if has_name(attr, name) {
        let item = T::parse_attr_with(alloc, attr, parser)?;
        merge_opt_attrs(found, Some(Spanning::new(item, attr.span)))
    } else {
        Ok(found)
    }
}

/// What the attributes of this name are, read and merged in order, or none where there is none of this name.
///
/// An attribute is of this name where its path is exactly one identifier that is spelled so, without `r#` and without `::` before
/// it. The characters are compared as they stand. The first attribute that doesn't read, or reads and doesn't merge with those
/// before it, is refused as `parse_attr_with` and `merge_attrs` of the kind say, and those behind it aren't looked at. The rule is
/// derive_more's.
pub fn parse_attrs_with<'a, T: ParseMultiple<'a>, P: Parser>(
    alloc: Global,
    attrs: &[Attribute<'a>],
    name: &str,
    parser: &P,
) -> Result<Option<Spanning<T>>, Error>
    ensures { Within (Folds (λ a. T.reads_attr a (P.meaning parser.now)) T.merges name.now attrs.now None) same result }
{
    let mut found = None;
    for attr in attrs {
        found = take_attr(alloc, attr, name, parser, found)?;
    }
    Ok(found)
}

/// What the attributes of this name are, where no form of earlier versions of derive_more is known. It is `parse_attrs_with` with
/// the parser `()`.
pub fn parse_attrs<'a, T: ParseMultiple<'a>>(
    alloc: Global,
    attrs: &[Attribute<'a>],
    name: &str,
) -> Result<Option<Spanning<T>>, Error>
    ensures { Within (Folds (λ a. T.reads_attr a knows_none) T.merges name.now attrs.now None) same result }
{
    parse_attrs_with(alloc, attrs, name, &())
}

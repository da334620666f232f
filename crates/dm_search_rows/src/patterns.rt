//! The patterns of arms, by what derive_more's `FieldsExt` says of them.

use crate::texts::{of_declaration, word};
use dm_arm_patterns::{exhaustive_arm_pattern, non_exhaustive_arm_pattern};
use dm_ast::{Data, DeriveInput, Fields};
use dm_generics::names;
use dm_generics::names::path_of_one;
use dm_output::{NamedPattern, Pattern};
use dm_rows::{Tells, made};
use dm_stream::{Error, Made, Read};
use std::alloc::{AllocError, Global};

/// The text of a pattern, without spaces and with no path.
#[derive(Clone, Copy)]
struct Spelled;

fn add_pattern(text: &mut String, pattern: &Pattern<'_>) -> Made<()> {
    match pattern {
        Pattern::Wild => text.push_str("_,"),
        Pattern::Bind(_, name) => {
            text.push_str(name.name.as_str())?;
            text.push_str(",")
        }
        _ => text.push_str("?"),
    }
}

fn add_named(text: &mut String, named: &NamedPattern<'_>) -> Made<()> {
    text.push_str(named.name.name.as_str())?;
    text.push_str(":")?;
    add_pattern(text, &named.pattern)
}

fn add_whole(text: &mut String, pattern: &Pattern<'_>) -> Made<()> {
    match pattern {
        Pattern::Named(_, all, rest) => {
            text.push_str("{")?;
            for named in all.as_slice() {
                add_named(text, named)?;
            }
            text.push_str(if *rest { "..}" } else { "}" })
        }
        Pattern::Tuple(_, all) => {
            text.push_str("(")?;
            for one in all.as_slice() {
                add_pattern(text, one)?;
            }
            text.push_str(")")
        }
        Pattern::Path(_) => text.push_str("unit"),
        _ => text.push_str("?"),
    }
}

impl<'a> Tells<Pattern<'a>> for Spelled {
    fn tell(pattern: &Pattern<'a>, alloc: Global, _way: &Spelled) -> Result<String, Error> {
        let mut text = String::new(alloc);
        add_whole(&mut text, pattern)?;
        Ok(text)
    }
}

/// Patterns of a struct's fields, bound by `x`: of all, and where these are skipped.
#[derive(Clone, Copy)]
struct Bound<'t> {
    skipped: &'t [usize],
}

fn of_all(fields: &Fields<'_>, alloc: Global) -> Read<String> {
    match path_of_one(alloc, names::word("P")) {
        Ok(path) => made(
            exhaustive_arm_pattern(alloc, path, fields, "x"),
            alloc,
            &Spelled,
        ),
        Err(AllocError) => Err(Error::NoMemory),
    }
}

fn of_some(fields: &Fields<'_>, alloc: Global, skipped: &[usize]) -> Read<String> {
    match path_of_one(alloc, names::word("P")) {
        Ok(path) => made(
            non_exhaustive_arm_pattern(alloc, path, fields, "x", skipped),
            alloc,
            &Spelled,
        ),
        Err(AllocError) => Err(Error::NoMemory),
    }
}

fn of_both(fields: &Fields<'_>, alloc: Global, skipped: &[usize]) -> Read<String> {
    let all = of_all(fields, alloc)?;
    let some = of_some(fields, alloc, skipped)?;
    let all = all.as_str();
    let some = some.as_str();
    Ok(format!(in alloc; "{all}\n{some}")?)
}

impl<'a, 't> Tells<DeriveInput<'a>> for Bound<'t> {
    fn tell(input: &DeriveInput<'a>, alloc: Global, way: &Bound<'t>) -> Result<String, Error> {
        match &input.shape {
            Data::Struct(one) => of_both(&one.fields, alloc, way.skipped),
            _ => word(alloc, "no struct"),
        }
    }
}

/// The patterns of a struct's fields: of all, and where these are skipped.
pub(crate) fn patterns(alloc: Global, declaration: &str, skipped: &[usize]) -> Read<String> {
    of_declaration(alloc, declaration, &Bound { skipped })
}

//! Format strings: their placeholders as they are spelled, and the values and the traits that these ask for.

use dm_fmtstr::{
    Align, Argument, Count, FmtType, Format, FormatSpec, FormatString, Parameter, Placeholder,
    Precision, Sign, format_string, read_format,
};
use dm_rows::{Tells, add_shown, made};
use dm_tokens::{Error, Seq};
use std::alloc::{AllocError, Global};

/// A side, as a part of a line.
fn side_name(side: Align) -> &'static str {
    match side {
        Align::Left => ", left",
        Align::Center => ", center",
        Align::Right => ", right",
    }
}

/// A sign, as a part of a line.
fn sign_name(sign: Option<Sign>) -> &'static str {
    match sign {
        Some(Sign::Plus) => ", sign +",
        Some(Sign::Minus) => ", sign -",
        None => "",
    }
}

/// Adds a position or a name.
fn add_argument(argument: &Argument<'_>, out: &mut String) -> Result<(), AllocError> {
    match argument {
        Argument::Integer(position) => write!(out, "position {position}"),
        Argument::Identifier(name) => write!(out, "name {name}"),
    }
}

/// Adds a number, or the argument that holds it.
fn add_count(count: &Count<'_>, out: &mut String) -> Result<(), AllocError> {
    match count {
        Count::Integer(number) => write!(out, "{number}"),
        Count::Parameter(argument) => add_argument(argument, out),
    }
}

/// Adds the width, where it is there.
fn add_width(width: &Option<Count<'_>>, out: &mut String) -> Result<(), AllocError> {
    match width {
        Some(count) => {
            out.push_str(", width ")?;
            add_count(count, out)
        }
        None => Ok(()),
    }
}

/// Adds the precision, where it is there.
fn add_precision(precision: &Option<Precision<'_>>, out: &mut String) -> Result<(), AllocError> {
    match precision {
        Some(Precision::Count(count)) => {
            out.push_str(", precision ")?;
            add_count(count, out)
        }
        Some(Precision::Star) => out.push_str(", precision *"),
        None => Ok(()),
    }
}

/// Adds the fill and the side, where they are there.
fn add_align(align: Option<(Option<char>, Align)>, out: &mut String) -> Result<(), AllocError> {
    match align {
        Some((Some(fill), side)) => {
            write!(out, ", fill [{fill}]")?;
            out.push_str(side_name(side))
        }
        Some((None, side)) => out.push_str(side_name(side)),
        None => Ok(()),
    }
}

/// Adds the sign, `#` and `0`, where they are there.
fn add_flags(spec: &FormatSpec<'_>, out: &mut String) -> Result<(), AllocError> {
    out.push_str(sign_name(spec.sign))?;
    out.push_str(if spec.alternate.is_some() { ", #" } else { "" })?;
    out.push_str(if spec.zero_padding.is_some() {
        ", 0"
    } else {
        ""
    })
}

/// Adds the parts of a spec, and its kind.
fn add_spec(spec: &FormatSpec<'_>, out: &mut String) -> Result<(), AllocError> {
    add_align(spec.align, out)?;
    add_flags(spec, out)?;
    add_width(&spec.width, out)?;
    add_precision(&spec.precision, out)?;
    let kind = spec.ty;
    write!(out, ", {kind:?}")
}

/// Adds the argument, and the parts of the spec that are there.
fn add_format(format: &Format<'_>, out: &mut String) -> Result<(), AllocError> {
    match &format.arg {
        Some(argument) => add_argument(argument, out)?,
        None => out.push_str("no argument")?,
    }
    match &format.spec {
        Some(spec) => add_spec(spec, out),
        None => out.push_str(", no spec"),
    }
}

/// Adds a position or a name.
fn add_parameter(parameter: &Parameter<'_>, out: &mut String) -> Result<(), AllocError> {
    match parameter {
        Parameter::Positional(position) => write!(out, "position {position}"),
        Parameter::Named(name) => write!(out, "name {name}"),
    }
}

/// Adds the value, whether there are modifiers, and the trait.
fn add_placeholder(placeholder: &Placeholder<'_>, out: &mut String) -> Result<(), AllocError> {
    add_parameter(&placeholder.arg, out)?;
    out.push_str(if placeholder.has_modifiers {
        ", modified, "
    } else {
        ", plain, "
    })?;
    out.push_str(placeholder.trait_name)
}

/// The line of a placeholder as it is spelled. A fill may be a control character.
fn format_line(format: &Format<'_>, alloc: Global) -> Result<String, AllocError> {
    let mut line = String::new(alloc);
    add_format(format, &mut line)?;
    let mut out = String::new(alloc);
    add_shown(&mut out, line.as_str())?;
    Ok(out)
}

/// A line for each placeholder as it is spelled.
fn all_formats(all: &[Format<'_>], alloc: Global) -> Result<String, AllocError> {
    let mut out = String::new(alloc);
    for format in all {
        let line = format_line(format, alloc)?;
        out.push_str(line.as_str())?;
        out.push_str("\n")?;
    }
    Ok(out)
}

/// A line for each placeholder with its value.
fn all_placeholders(all: &[Placeholder<'_>], alloc: Global) -> Result<String, AllocError> {
    let mut out = String::new(alloc);
    for placeholder in all {
        add_placeholder(placeholder, &mut out)?;
        out.push_str("\n")?;
    }
    Ok(out)
}

/// The lines of placeholders, or that there are none.
fn or_none(alloc: Global, lines: String) -> Result<String, Error> {
    if lines.as_str().is_empty() {
        Ok(String::from_str(alloc, "no placeholders")?)
    } else {
        Ok(lines)
    }
}

/// Tells of parts by their names.
struct Parts;

impl<'a> Tells<Format<'a>> for Parts {
    fn tell(value: &Format<'a>, alloc: Global, _way: &Parts) -> Result<String, Error> {
        Ok(format_line(value, alloc)?)
    }
}

impl<'a> Tells<Option<FormatString<'a>>> for Parts {
    fn tell(
        value: &Option<FormatString<'a>>,
        alloc: Global,
        _way: &Parts,
    ) -> Result<String, Error> {
        match value {
            Some(string) => or_none(alloc, all_formats(string.formats.as_slice(), alloc)?),
            None => Ok(String::from_str(alloc, "no format string")?),
        }
    }
}

impl<'a> Tells<Seq<Placeholder<'a>>> for Parts {
    fn tell(value: &Seq<Placeholder<'a>>, alloc: Global, _way: &Parts) -> Result<String, Error> {
        or_none(alloc, all_placeholders(value.as_slice(), alloc)?)
    }
}

/// Tells of the trait alone: of its letters, its name in `std::fmt`, and whether it is asked for as it is.
struct Trait;

impl<'a> Tells<Format<'a>> for Trait {
    fn tell(value: &Format<'a>, alloc: Global, _way: &Trait) -> Result<String, Error> {
        match &value.spec {
            Some(spec) => trait_of(alloc, spec.ty),
            None => Ok(String::from_str(alloc, "no spec")?),
        }
    }
}

/// The line of a kind and its trait.
fn trait_of(alloc: Global, kind: FmtType) -> Result<String, Error> {
    let name = kind.trait_name();
    let trivial = if kind.is_trivial() {
        "trivial"
    } else {
        "not trivial"
    };
    Ok(format!(in alloc; "{kind:?} is {name}, {trivial}")?)
}

/// With a line of what is left, where that is something.
fn with_rest(told: Result<String, Error>, rest: &str) -> Result<String, Error> {
    let mut out = told?;
    if !rest.is_empty() {
        out.push_str("\nleaves ")?;
        add_shown(&mut out, rest)?;
    }
    Ok(out)
}

/// What is told of what a text begins with, and what is left of it.
fn told_begun<T: Drop, W: Tells<T>>(
    begun: Option<(&str, T)>,
    alloc: Global,
    way: &W,
) -> Result<String, Error> {
    match begun {
        Some((rest, value)) => with_rest(W::tell(&value, alloc, way), rest),
        None => Ok(String::from_str(alloc, "no placeholder")?),
    }
}

/// What is asked of a text with placeholders.
#[derive(Clone, Copy)]
pub(crate) enum Asked {
    /// The placeholder in front, as it is spelled, and what is left.
    Front,
    /// The kind and the trait of the placeholder in front.
    Trait,
    /// The placeholders of a format string, as they are spelled.
    All,
    /// The placeholders of a format string, with the values that they take.
    Values,
}

/// What is told of a text's placeholders: lines, their control characters as rows spell them.
pub(crate) fn of_placeholders(alloc: Global, asked: Asked, text: &str) -> Result<String, Error> {
    match asked {
        Asked::Front => told_begun(read_format(text), alloc, &Parts),
        Asked::Trait => told_begun(read_format(text), alloc, &Trait),
        Asked::All => made(format_string(alloc, text), alloc, &Parts),
        Asked::Values => made(Placeholder::parse_fmt_string(alloc, text), alloc, &Parts),
    }
}

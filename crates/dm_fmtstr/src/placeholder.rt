//! Placeholders with the values that they take (std::fmt, "Positional parameters", "Precision").

ghost use Rattle.std.specs.Prelude.{◌≡◌, ◌+◌, ◌*◌, ◌<◌, ◌≤◌, ◌^◌, length, IfOk};
ghost use Rattle.std.specs.Str.{chars};
ghost use Rattle.dm_fmtstr.specs.Parts.{argument_of, format_of, formats_of, precision_of, spec_of};
ghost use Rattle.dm_fmtstr.specs.Positions as rule;
ghost use Rattle.std.specs.Option.{option_map};

use crate::argument::{Argument, Precision};
use crate::format::{Format, format_string};
use crate::kind::FmtType;
use crate::spec::FormatSpec;
use dm_stream::{Made, Seq};
use std::alloc::{AllocError, Global};

/// The value that a placeholder formats: by its position among the arguments, from 0, or by its name.
#[derive(Debug, PartialEq, Eq, Drop)]
pub enum Parameter<'a> {
    Positional(u64),
    Named(&'a str),
}

/// A placeholder: the value that it formats, whether anything but the trait's plain form is asked for, and the name of the trait.
#[derive(Debug, PartialEq, Eq, Drop)]
pub struct Placeholder<'a> {
    pub arg: Parameter<'a>,
    pub has_modifiers: bool,
    pub trait_name: &'static str,
}

impl<'a> Placeholder<'a> {
    /// The placeholders of a format string, in order, and none of a text that is no format string, as `format_string` says.
    ///
    /// A placeholder without an argument takes the next position, from 0; one whose precision is `*` takes the next position for the
    /// precision first. It has modifiers where anything but the trait stands behind its `:`, and where the trait is `x?` or `X?`.
    pub fn parse_fmt_string(
        alloc: Global,
        text: &'a str,
    ) -> Result<Seq<Placeholder<'a>>, AllocError>
        ensures { IfOk result (λ found. rule.ArePlaceholdersOf (chars text.now) (rule.placeholders_of found)) }
    {
        match format_string(alloc, text)? {
            Some(string) => numbered(alloc, string.formats.as_slice()),
            None => Ok(Seq::new(alloc)),
        }
    }
}

/// The placeholders, with their positions counted from 0.
fn numbered<'a>(alloc: Global, formats: &[Format<'a>]) -> Made<Seq<Placeholder<'a>>>
    requires { 2 * length formats.now < 2 ^ 64 }
    ensures { IfOk result (λ found. rule.placeholders_of found ≡ rule.placeholders (formats_of formats.now)) }
{
    let mut found = Seq::new(alloc);
    let mut next = 0;
    for format in formats {
        let at = next + stars(&format.spec);
        found.add(placeholder_at(at, format))?;
        next = at + own(&format.arg);
    }
    Ok(found)
}

/// A placeholder, of which `at` is the position if it has no argument.
fn placeholder_at<'a>(at: u64, format: &Format<'a>) -> Placeholder<'a>
    ensures { rule.placeholder_of result ≡ rule.placeholder_at at (format_of format.now) }
{
    let ty = asked(&format.spec);
    Placeholder {
        arg: parameter_at(at, &format.arg),
        has_modifiers: has_modifiers(&format.spec),
        trait_name: ty.trait_name(),
    }
}

fn parameter_at<'a>(at: u64, argument: &Option<Argument<'a>>) -> Parameter<'a>
    ensures { rule.parameter_of result ≡ rule.argument_from at (option_map argument_of argument.now) }
{
    match argument {
        Some(Argument::Integer(position)) => Parameter::Positional(*position),
        Some(Argument::Identifier(name)) => Parameter::Named(name),
        None => Parameter::Positional(at),
    }
}

/// The trait that a placeholder asks for.
fn asked(spec: &Option<FormatSpec<'_>>) -> FmtType
    ensures { result ≡ rule.asked (option_map spec_of spec.now) }
{
    match spec {
        Some(spec) => spec.ty,
        None => FmtType::Display,
    }
}

fn has_modifiers(spec: &Option<FormatSpec<'_>>) -> bool
    ensures { result ≡ rule.has_modifiers (option_map spec_of spec.now) }
{
    match spec {
        Some(spec) => is_modified(spec),
        None => false,
    }
}

fn is_modified(spec: &FormatSpec<'_>) -> bool
    ensures { result ≡ rule.is_modified (spec_of spec.now) }
{
    spec.align.is_some()
        || spec.sign.is_some()
        || spec.alternate.is_some()
        || spec.zero_padding.is_some()
        || spec.width.is_some()
        || spec.precision.is_some()
        || !spec.ty.is_trivial()
}

/// How many positions a precision takes.
fn stars(spec: &Option<FormatSpec<'_>>) -> u64
    ensures value { result ≡ rule.stars_of (option_map spec_of spec.now) }
    ensures most { result ≤ 1 }
{
    match spec {
        Some(spec) => match &spec.precision {
            Some(Precision::Star) => 1,
            Some(Precision::Count(_)) => 0,
            None => 0,
        },
        None => 0,
    }
}

/// How many positions a placeholder takes for its own value.
fn own(argument: &Option<Argument<'_>>) -> u64
    ensures value { result ≡ rule.own (option_map argument_of argument.now) }
    ensures most { result ≤ 1 }
{
    match argument {
        Some(_) => 0,
        None => 1,
    }
}

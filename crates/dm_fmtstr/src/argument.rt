//! The values that a format string names or counts (std::fmt, "Syntax": argument, integer, count).

ghost use Rattle.std.specs.Prelude.{◌≡◌, ◌+◌, ◌*◌, ◌<◌, ◌^◌, None, Some, length, MatchOption, IfSome, SomeIff};
ghost use Rattle.std.specs.Str.{chars};
ghost use Rattle.dm_fmtstr.specs.Grammar as spec;
ghost use Rattle.dm_fmtstr.specs.Parts.{argument_of, count_of};

use crate::chars::{behind_char, goes_on, word_size};
use dm_lexer::front::{first_char, text_from, text_to};

/// A value that is formatted, or that tells a width or a precision: by its position among the arguments, or by its name.
#[derive(Debug, PartialEq, Eq, Drop)]
pub enum Argument<'a> {
    Integer(u64),
    Identifier(&'a str),
}

/// A width or a precision: a number, or the argument that holds it.
#[derive(Debug, PartialEq, Eq, Drop)]
pub enum Count<'a> {
    Integer(u64),
    Parameter(Argument<'a>),
}

/// A precision. `Star` is `*`: the next argument holds it.
#[derive(Debug, PartialEq, Eq, Drop)]
pub enum Precision<'a> {
    Count(Count<'a>),
    Star,
}

/// The identifier at the front.
fn read_identifier<'a>(text: &'a str) -> Option<(&'a str, &'a str)>
    ensures { MatchOption result (spec.identifier_at (chars text.now) ≡ None) (λ r. spec.identifier_at (chars text.now) ≡ Some (chars r.0.now, r.1.now)) }
{
    let (c, rest) = first_char(text)?;
    if !begins_identifier(c, rest) {
        return None;
    }
    let size = c.len_utf8() + word_size(rest);
    Some((text_from(text, size), text_to(text, size)))
}

/// Whether an identifier begins with this character and goes on with this text.
fn begins_identifier(c: char, rest: &str) -> bool
    ensures { result ≡ spec.begins_identifier c (chars rest.now) }
{
    unicode_ident::is_xid_start(c) || c == '_' && goes_on(rest)
}

/// The integer at the front: all digits there, where they write a number below 2^64.
fn read_integer<'a>(text: &'a str) -> Option<(&'a str, u64)>
    ensures { MatchOption result (spec.integer_at (chars text.now) ≡ None) (λ r. spec.integer_at (chars text.now) ≡ Some (chars r.0.now, r.1)) }
{
    let mut rest = text;
    let mut value = 0;
    let mut seen = false;
    while let Some((after, digit)) = read_digit(rest) {
        let Some(next) = with_digit(value, digit) else {
            return None;
        };
        value = next;
        rest = after;
        seen = true;
    }
    if seen { Some((rest, value)) } else { None }
}

/// The value of the decimal digit at the front.
fn read_digit<'a>(text: &'a str) -> Option<(&'a str, u32)>
    ensures digit { MatchOption result (spec.digit_at (chars text.now) ≡ None) (λ r. spec.digit_at (chars text.now) ≡ Some (chars r.0.now, r.1)) }
    ensures shorter { IfSome result (λ r. length r.0.now < length text.now) }
{
    let (c, rest) = first_char(text)?;
    Some((rest, c.to_digit(10)?))
}

/// `value * 10 + digit`, where it is below 2^64.
fn with_digit(value: u64, digit: u32) -> Option<u64>
    ensures { SomeIff result (value * 10 + digit < 2 ^ 64) (value * 10 + digit) }
{
    match value.checked_mul(10) {
        Some(product) => product.checked_add(u64::from(digit)),
        None => None,
    }
}

/// The argument at the front.
pub fn read_argument<'a>(text: &'a str) -> Option<(&'a str, Argument<'a>)>
    ensures { MatchOption result (spec.argument_at (chars text.now) ≡ None) (λ r. spec.argument_at (chars text.now) ≡ Some (chars r.0.now, argument_of r.1)) }
{
    if let Some((rest, name)) = read_identifier(text) {
        return Some((rest, Argument::Identifier(name)));
    }
    let (rest, position) = read_integer(text)?;
    Some((rest, Argument::Integer(position)))
}

/// The argument at the front that `$` follows, and the text behind that.
fn read_parameter<'a>(text: &'a str) -> Option<(&'a str, Argument<'a>)>
    ensures { MatchOption result (spec.parameter_at (chars text.now) ≡ None) (λ r. spec.parameter_at (chars text.now) ≡ Some (chars r.0.now, argument_of r.1)) }
{
    let (rest, argument) = read_argument(text)?;
    Some((behind_char(rest, '$')?, argument))
}

/// The width at the front, or what stands behind `.` in a precision.
pub fn read_count<'a>(text: &'a str) -> Option<(&'a str, Count<'a>)>
    ensures { MatchOption result (spec.count_at (chars text.now) ≡ None) (λ r. spec.count_at (chars text.now) ≡ Some (chars r.0.now, count_of r.1)) }
{
    if let Some((rest, argument)) = read_parameter(text) {
        return Some((rest, Count::Parameter(argument)));
    }
    let (rest, number) = read_integer(text)?;
    Some((rest, Count::Integer(number)))
}

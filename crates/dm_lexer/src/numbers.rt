//! Integers at the front of a text, and their values: the row of digits of the table of tokens in docs/FORMATS.md (Rust Reference, "Tokens",
//! integer literals).
#![tactic(auto, using(crate::proofs::NumberSteps::numbers))]

ghost use Rattle.std.specs.Prelude.{◌≡◌, ◌+◌, ◌*◌, ◌<◌, ◌≤◌, ◌^◌, MatchOption, SomeIff, true, false, None, Some};
ghost use Rattle.std.specs.Str.{chars};
ghost use Rattle.std.specs.Str.Parse.{digits_value};
ghost use Rattle.dm_lexer.specs.TextFronts.{IsFront, IsSized};
ghost use Rattle.dm_lexer.specs.Numbers as spec;
ghost use Rattle.dm_lexer.specs.Words as word;

use crate::front::{first_char, text_from, text_to};
use crate::words::{Class, begins_word, behind_pair, run_size};
use dm_stream::{LitKind, Literal};

/// The base of a number's digits.
#[derive(Clone, Copy)]
pub enum Base {
    Binary,
    Octal,
    Decimal,
    Hexadecimal,
}

impl Base {
    pub fn radix(self) -> u32
        ensures value { result ≡ word.radix self }
        ensures least { 2 ≤ result }
        ensures most { result ≤ 16 }
    {
        match self {
            Base::Binary => 2,
            Base::Octal => 8,
            Base::Decimal => 10,
            Base::Hexadecimal => 16,
        }
    }
}

/// The base that the front of a text tells, by `0b`, `0o` or `0x`, the number of bytes of these, and the text behind them.
#[derive(Drop)]
struct BasePrefix<'a> {
    base: Base,
    size: usize,
    rest: &'a str,
}

/// The value of an Int literal, by the rule on integers of docs/FORMATS.md, "Tokens" (Rust Reference, "Tokens", integer literals): that
/// of its digits in their base, without the `_` among them. A suffix doesn't change it. None for another kind, and for a text that
/// is no integer below 2^128.
pub fn int_value(literal: &Literal<'_>) -> Option<u128>
    ensures { MatchOption
        result
        (spec.literal_value literal.now.kind literal.now.text ≡ None)
        (λ v. spec.literal_value literal.now.kind literal.now.text ≡ Some v) }
{
    match literal.kind {
        LitKind::Int => whole_value(literal.text.as_str()),
        LitKind::Str
        | LitKind::RawStr
        | LitKind::ByteStr
        | LitKind::RawByteStr
        | LitKind::CStr
        | LitKind::RawCStr
        | LitKind::Char
        | LitKind::Byte => None,
    }
}

fn whole_value(text: &str) -> Option<u128>
    ensures { MatchOption result (spec.whole_value (chars text.now) ≡ None) (λ v. spec.whole_value (chars text.now) ≡ Some v) }
{
    let Some((size, value)) = number(text) else {
        return None;
    };
    if size == text.len() {
        Some(value)
    } else {
        None
    }
}

/// The number of bytes of the integer at the front, with its suffix.
pub fn number_size(text: &str) -> Option<usize>
    ensures { MatchOption
        result
        (spec.number_length (chars text.now) ≡ None)
        (λ size. IsSized text.now size (spec.number_length (chars text.now))) }
{
    match number(text) {
        Some((size, _)) => Some(size),
        None => None,
    }
}

/// The number of bytes and the value of the integer at the front.
fn number(text: &str) -> Option<(usize, u128)>
    ensures { MatchOption
        result
        (spec.number (chars text.now) ≡ None)
        (λ r. spec.IsNumber text.now r.0 r.1 (spec.number (chars text.now))) }
{
    if !begins_digit(text) {
        return None;
    }
    let prefix = base_prefix_of(text);
    let Some((size, value)) = number_behind(prefix.rest, prefix.base) else {
        return None;
    };
    Some((prefix.size + size, value))
}

fn base_prefix_of<'a>(text: &'a str) -> BasePrefix<'a>
    ensures { spec.IsBasePrefix text.now result.base result.size result.rest.now }
{
    if let Some(rest) = behind_pair(text, '0', 'b') {
        return BasePrefix {
            base: Base::Binary,
            size: 2,
            rest,
        };
    }
    if let Some(rest) = behind_pair(text, '0', 'o') {
        return BasePrefix {
            base: Base::Octal,
            size: 2,
            rest,
        };
    }
    if let Some(rest) = behind_pair(text, '0', 'x') {
        return BasePrefix {
            base: Base::Hexadecimal,
            size: 2,
            rest,
        };
    }
    BasePrefix {
        base: Base::Decimal,
        size: 0,
        rest: text,
    }
}

/// The number of bytes and the value of the integer at the front, of which the opening that tells the base was taken away.
fn number_behind(text: &str, base: Base) -> Option<(usize, u128)>
    ensures { MatchOption
        result
        (spec.number_behind base (chars text.now) ≡ None)
        (λ r. spec.IsNumber text.now r.0 r.1 (spec.number_behind base (chars text.now))) }
{
    let digits = run_size(text, Class::Digits(base));
    let after = text_from(text, digits);
    if spoils(base, after) {
        return None;
    }
    let Some(value) = value_of(text_to(text, digits), base) else {
        return None;
    };
    Some((digits + suffix_size(after), value))
}

/// The value of the digits among some characters, where there is a digit and the value is below 2^128.
fn value_of(text: &str, base: Base) -> Option<u128>
    ensures { MatchOption
        result
        (spec.is_value base (spec.digits_among base (chars text.now)) ≡ false)
        (λ v. (spec.is_value base (spec.digits_among base (chars text.now)) ≡ true) × (v ≡ digits_value (word.radix base) (spec.digits_among base (chars text.now)))) }
{
    let radix = base.radix();
    let mut rest = text;
    let mut value = 0;
    let mut seen = false;
    while let Some((c, after)) = first_char(rest) {
        rest = after;
        let Some(digit) = c.to_digit(radix) else {
            continue;
        };
        let Some(next) = with_digit(value, radix, digit) else {
            return None;
        };
        value = next;
        seen = true;
    }
    if seen { Some(value) } else { None }
}

/// `value * radix + digit`, where it is below 2^128.
fn with_digit(value: u128, radix: u32, digit: u32) -> Option<u128>
    ensures { SomeIff result (value * radix + digit < 2 ^ 128) (value * radix + digit) }
{
    match value.checked_mul(u128::from(radix)) {
        Some(product) => product.checked_add(u128::from(digit)),
        None => None,
    }
}

fn spoils(base: Base, text: &str) -> bool
    ensures { result ≡ spec.spoils base (chars text.now) }
{
    begins_digit(text) || begins_float_suffix(text) || goes_on_as_float(base, text)
}

fn begins_float_suffix(text: &str) -> bool
    ensures { result ≡ spec.begins_float_suffix (chars text.now) }
{
    let size = suffix_size(text);
    begins_exponent(text) || is_float_name(text_to(text, size))
}

fn is_float_name(name: &str) -> bool
    ensures { result ≡ spec.is_float_name name.now }
{
    name == "f16" || name == "f32" || name == "f64" || name == "f128"
}

fn suffix_size(text: &str) -> usize
    ensures { IsFront text.now result (spec.suffix_length (chars text.now)) }
{
    if begins_word(text) {
        run_size(text, Class::Word)
    } else {
        0
    }
}

fn goes_on_as_float(base: Base, text: &str) -> bool
    ensures { result ≡ spec.goes_on_as_float base (chars text.now) }
{
    match base {
        Base::Decimal => begins_fraction(text),
        Base::Binary => false,
        Base::Octal => false,
        Base::Hexadecimal => false,
    }
}

fn begins_fraction(text: &str) -> bool
    ensures { result ≡ spec.begins_fraction (chars text.now) }
{
    match first_char(text) {
        Some((c, after)) => c == '.' && !(begins_point(after) || begins_word(after)),
        None => false,
    }
}

fn begins_point(text: &str) -> bool
    ensures { result ≡ spec.begins_point (chars text.now) }
{
    match first_char(text) {
        Some((c, _)) => c == '.',
        None => false,
    }
}

fn begins_exponent(text: &str) -> bool
    ensures { result ≡ spec.begins_exponent (chars text.now) }
{
    match first_char(text) {
        Some((c, _)) => c == 'e' || c == 'E',
        None => false,
    }
}

/// Whether a decimal digit stands at the front.
pub fn begins_digit(text: &str) -> bool
    ensures { result ≡ spec.begins_digit (chars text.now) }
{
    match first_char(text) {
        Some((c, _)) => c.is_ascii_digit(),
        None => false,
    }
}

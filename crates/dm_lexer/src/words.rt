//! Identifiers at the front of a text, and runs of characters: the rows of identifiers of the table of tokens in docs/FORMATS.md (Rust
//! Reference, "Identifiers").
#![tactic(auto, using(crate::proofs::WordSteps::words))]

ghost use Rattle.std.specs.Prelude.{◌≡◌, ◌+◌, ◌<◌, MatchOption, IsTrue, true, false, None};
ghost use Rattle.std.specs.Str.{chars};
ghost use Rattle.dm_lexer.specs.Characters.{ascii_bound};
ghost use Rattle.dm_lexer.specs.TextFronts.{IsFront, run, IsSized, IsBehind};
ghost use Rattle.dm_lexer.specs.Words as spec;

use crate::front::{first_char, text_from, text_to};
use crate::numbers::Base;

/// The characters whose runs are read: those that go on with an identifier (Unicode's XID_Continue), those of a line, and the
/// digits of a base with the `_` between them.
#[derive(Clone, Copy)]
pub enum Class {
    Word,
    Line,
    Digits(Base),
}

/// The number of bytes of the identifier at the front.
pub fn word_size(text: &str) -> Option<usize>
    ensures { MatchOption
        result
        (spec.word_length (chars text.now) ≡ None)
        (λ size. IsSized text.now size (spec.word_length (chars text.now))) }
{
    if begins_word(text) {
        Some(run_size(text, Class::Word))
    } else {
        None
    }
}

/// The number of bytes of the raw identifier at the front, with its `r#`.
pub fn raw_word_size(text: &str) -> Option<usize>
    ensures { MatchOption
        result
        (spec.raw_word_length (chars text.now) ≡ None)
        (λ size. IsSized text.now size (spec.raw_word_length (chars text.now))) }
{
    let rest = behind_pair(text, 'r', '#')?;
    if !begins_word(rest) {
        return None;
    }
    let size = run_size(rest, Class::Word);
    if is_never_raw(text_to(rest, size)) {
        return None;
    }
    Some(2 + size)
}

fn is_never_raw(name: &str) -> bool
    ensures { result ≡ spec.is_never_raw name.now }
{
    name == "_" || name == "self" || name == "Self" || name == "super" || name == "crate"
}

/// Whether a character that starts an identifier, or `_`, stands at the front.
pub fn begins_word(text: &str) -> bool
    ensures { result ≡ spec.begins_word (chars text.now) }
{
    match first_char(text) {
        Some((c, _)) => starts_word(c),
        None => false,
    }
}

/// Whether a character starts an identifier, by Unicode's XID_Start, or is `_`.
pub fn starts_word(c: char) -> bool
    ensures { result ≡ spec.starts_word c }
{
    unicode_ident::is_xid_start(c) || c == '_'
}

/// The number of bytes of the longest front whose characters are all of a class.
pub fn run_size(text: &str, class: Class) -> usize
    ensures { IsFront text.now result (run (spec.passes class) (chars text.now)) }
{
    let mut rest = text;
    let mut at = 0;
    while let Some((c, after)) = first_char(rest) {
        if !is_in(class, c) {
            break;
        }
        at += c.len_utf8();
        rest = after;
    }
    at
}

fn is_in(class: Class, c: char) -> bool
    ensures { result ≡ spec.passes class c }
{
    match class {
        Class::Word => unicode_ident::is_xid_continue(c),
        Class::Line => c != '\n',
        Class::Digits(base) => c.is_digit(base.radix()) || c == '_',
    }
}

/// The text behind two ASCII characters that it begins with.
pub fn behind_pair<'a>(text: &'a str, first: char, second: char) -> Option<&'a str>
    requires first_is_ascii { first < ascii_bound }
    requires second_is_ascii { second < ascii_bound }
    ensures { MatchOption
        result
        (spec.begins_pair first second (chars text.now) ≡ false)
        (λ rest. (spec.begins_pair first second (chars text.now) ≡ true) × IsBehind text.now 2 2 rest.now) }
{
    let (c, after) = first_char(text)?;
    if c == first {
        let (d, beyond) = first_char(after)?;
        if d == second {
            return Some(beyond);
        }
    }
    None
}

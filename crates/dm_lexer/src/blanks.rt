//! Blanks at the front of a text, by "Tokens" of docs/FORMATS.md (Rust Reference, "Whitespace" and "Comments").
#![tactic(auto, using(crate::proofs::BlankSteps::blanks))]

ghost use Rattle.std.specs.Prelude.{◌≡◌, MatchOption, None, false};
ghost use Rattle.std.specs.Str.{chars};
ghost use Rattle.dm_lexer.specs.TextFronts.{IsSized};
ghost use Rattle.dm_lexer.specs.Blanks as spec;

use crate::front::first_char;
use crate::quotes::begins_with;
use crate::words::{Class, behind_pair, run_size};

const NEXT_LINE: char = '\u{85}';

const LEFT_TO_RIGHT_MARK: char = '\u{200e}';

const RIGHT_TO_LEFT_MARK: char = '\u{200f}';

const LINE_SEPARATOR: char = '\u{2028}';

const PARAGRAPH_SEPARATOR: char = '\u{2029}';

/// What is blank at the front of a text.
#[derive(Drop)]
pub enum Blank {
    Absent,
    /// The number of bytes of one blank.
    Size(usize),
    /// A block comment that isn't closed.
    Unclosed,
}

/// What two characters are in a block comment.
#[derive(Drop)]
enum Mark {
    Opens,
    Closes,
    Other,
}

/// The number of bytes of the blank at the front: one character, a line comment up to before its LF, or a block comment.
pub fn blank_size(text: &str) -> Blank
    ensures { spec.IsBlank text.now result (spec.blank_length (chars text.now)) }
{
    if let Some(size) = blank_char_size(text) {
        return Blank::Size(size);
    }
    if !begins_with(text, '/') {
        return Blank::Absent;
    }
    if let Some(rest) = behind_pair(text, '/', '/') {
        return Blank::Size(2 + run_size(rest, Class::Line));
    }
    let Some(rest) = behind_pair(text, '/', '*') else {
        return Blank::Absent;
    };
    match comment_closing_size(rest) {
        Some(size) => Blank::Size(2 + size),
        None => Blank::Unclosed,
    }
}

/// The number of bytes of a blank character at the front.
fn blank_char_size(text: &str) -> Option<usize>
    ensures { MatchOption
        result
        (spec.begins_blank_char (chars text.now) ≡ false)
        (λ size. spec.IsBlankChar text.now size) }
{
    let (c, _) = first_char(text)?;
    if is_blank_char(c) {
        Some(c.len_utf8())
    } else {
        None
    }
}

fn is_blank_char(c: char) -> bool
    ensures { result ≡ spec.is_blank_char c }
{
    matches!(
        c,
        '\t'..='\r' | ' ' | NEXT_LINE | LEFT_TO_RIGHT_MARK..=RIGHT_TO_LEFT_MARK | LINE_SEPARATOR..=PARAGRAPH_SEPARATOR
    )
}

/// The number of bytes up to the `*/` that closes a block comment, with it. The text begins behind the `/*`.
fn comment_closing_size(text: &str) -> Option<usize>
    ensures { MatchOption
        result
        (spec.comment_closing 0 (chars text.now) ≡ None)
        (λ size. IsSized text.now size (spec.comment_closing 0 (chars text.now))) }
{
    let mut rest = text;
    let mut at = 0;
    let mut deep = 0usize;
    while let Some((c, after)) = first_char(rest) {
        let Some((d, beyond)) = first_char(after) else {
            return None;
        };
        match mark_of(c, d) {
            Mark::Opens => {
                deep += 1;
                at += c.len_utf8() + d.len_utf8();
                rest = beyond;
            }
            Mark::Closes => {
                at += c.len_utf8() + d.len_utf8();
                rest = beyond;
                if deep == 0 {
                    return Some(at);
                }
                deep -= 1;
            }
            Mark::Other => {
                at += c.len_utf8();
                rest = after;
            }
        }
    }
    None
}

fn mark_of(c: char, d: char) -> Mark
    ensures { result ≡ spec.mark c d }
{
    if c == '/' && d == '*' {
        Mark::Opens
    } else if c == '*' && d == '/' {
        Mark::Closes
    } else {
        Mark::Other
    }
}

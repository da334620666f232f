//! Strings, bytes, chars and lifetimes at the front of a text: the first four rows of the table of tokens in docs/FORMATS.md (Rust
//! Reference, "Tokens": character and string literals, byte and C strings, raw strings, escapes; lifetimes).

ghost use Rattle.std.specs.Prelude.{◌≡◌, ◌≤◌, ◌<◌, ◌*◌, ◌+◌, ◌^◌, [], true, false, Some, None, length, take, drop, MatchOption, IfSome, cond};
ghost use Rattle.std.specs.Char.{digit_value};
ghost use Rattle.std.specs.Str.{chars, IsCharBoundary};
ghost use Rattle.std.specs.Str.Parse.{digits_value};
ghost use Rattle.dm_lexer.specs.Characters.{quote, backslash};
ghost use Rattle.dm_lexer.specs.TextFronts.{run, IsFront};
ghost use Rattle.dm_lexer.specs.Words.{goes_on};
ghost use Rattle.dm_lexer.specs.Quotes.{begins, begins_raw, begins_hex, inside_of, is_code, code_digits, short_meaning, short_segment, hex_segment, unicode_segment, escape, line_end, is_gap, quoted_escape, is_plain, segment, string_closing, is_hash, begins_hashes, closes_raw, raw_closing, keeps_line, whole_lines, opens_raw, is_lone, lone_segment, lone_closing, raw_opening, second_raw, byte_opening, c_opening, opening, body, quoted_length, char_length, lifetime_length, with_code, IsCode, IsSegment, IsLoneSegment, IsSized};
ghost use Rattle.dm_lexer.specs.declared.quotes.Inside.TheVariants as inside_kind;

use crate::front::{first_char, text_from, text_to};
use crate::words::{Class, begins_word, behind_pair, run_size};
use dm_stream::LitKind;

/// What `\x` spells is below this, in a string of characters.
const ASCII_BOUND: u32 = 128;

/// What `\x` spells is below this, in a string of bytes.
const BYTE_BOUND: u32 = 256;

/// A raw string has fewer `#` than this.
const HASHES_BOUND: usize = 256;

/// The code of a character has at most so many digits.
const MOST_CODE_DIGITS: usize = 6;

/// The opening of a literal with quotes: the number of its `#`, and of its bytes.
#[derive(Clone, Copy)]
pub struct Opening {
    pub kind: LitKind,
    pub hashes: usize,
    pub size: usize,
}

/// What the characters of a string are.
#[derive(Clone, Copy)]
pub enum Inside {
    Characters,
    Bytes,
    Anything,
}

/// What stands inside a string: its size, and the character that it means. In an escape, where all characters are ASCII, the size
/// is the number of bytes and of characters.
#[derive(Clone, Copy)]
pub struct Segment {
    pub size: usize,
    pub means: Option<char>,
}

/// The hexadecimal digits of a code that were read: the bytes with their `_`, the digits, and what they spell.
#[derive(Clone, Copy)]
struct Code {
    size: usize,
    digits: usize,
    value: u32,
}

/// The opening of a literal with quotes, but for a character's, that a text begins with.
pub fn opening_of(text: &str) -> Option<Opening>
    ensures { result ≡ opening (chars text.now) }
{
    let (c, after) = first_char(text)?;
    match c {
        '"' => Some(Opening {
            kind: LitKind::Str,
            hashes: 0,
            size: 1,
        }),
        'b' => byte_opening_of(after),
        'c' => c_opening_of(after),
        'r' => raw_opening_of(after, LitKind::RawStr, 1),
        _ => None,
    }
}

/// The opening of which `text` is behind `b`.
fn byte_opening_of(text: &str) -> Option<Opening>
    ensures { result ≡ byte_opening (chars text.now) }
{
    if begins_with(text, '"') {
        return Some(Opening {
            kind: LitKind::ByteStr,
            hashes: 0,
            size: 2,
        });
    }
    if begins_with(text, '\'') {
        return Some(Opening {
            kind: LitKind::Byte,
            hashes: 0,
            size: 2,
        });
    }
    second_raw_of(text, LitKind::RawByteStr)
}

/// The opening of which `text` is behind `c`.
fn c_opening_of(text: &str) -> Option<Opening>
    ensures { result ≡ c_opening (chars text.now) }
{
    if begins_with(text, '"') {
        return Some(Opening {
            kind: LitKind::CStr,
            hashes: 0,
            size: 2,
        });
    }
    second_raw_of(text, LitKind::RawCStr)
}

/// The opening of a raw string whose second character `text` begins with.
fn second_raw_of(text: &str, kind: LitKind) -> Option<Opening>
    ensures { result ≡ second_raw kind (chars text.now) }
{
    let (c, after) = first_char(text)?;
    if c != 'r' {
        return None;
    }
    raw_opening_of(after, kind, 2)
}

/// The opening whose `#` and quote `text` begins with, behind `before` bytes.
fn raw_opening_of(text: &str, kind: LitKind, before: usize) -> Option<Opening>
    requires { before ≤ 2 }
    ensures { result ≡ raw_opening kind before (chars text.now) }
{
    if !is_raw_opening(text) {
        return None;
    }
    let hashes = hash_size(text);
    Some(Opening {
        kind,
        hashes,
        size: hashes + before + 1,
    })
}

fn is_raw_opening(text: &str) -> bool
    ensures is { result ≡ opens_raw (chars text.now) }
    ensures few { result ≡ true → run is_hash (chars text.now) < 256 }
{
    let hashes = hash_size(text);
    if hashes >= HASHES_BOUND {
        return false;
    }
    begins_with(text_from(text, hashes), '"')
}

/// The number of bytes of the literal that a text begins with by its opening; None where the opening's literal doesn't end or
/// something in it may not stand there.
pub fn quoted_size(text: &str, by: Opening) -> Option<usize>
    requires { opening (chars text.now) ≡ Some by }
    ensures { MatchOption result (quoted_length by (chars text.now) ≡ None) (λ size. IsSized text.now size (quoted_length by (chars text.now))) }
{
    let Some(behind) = body_size(text_from(text, by.size), by.kind, by.hashes) else {
        return None;
    };
    let size = by.size + behind;
    if !has_whole_lines(text_to(text, size)) {
        return None;
    }
    Some(size)
}

/// The number of bytes behind an opening, up to the literal's end.
fn body_size(text: &str, kind: LitKind, hashes: usize) -> Option<usize>
    requires { length text.now + 1 < 2 ^ 64 }
    ensures { MatchOption result (body kind hashes (chars text.now) ≡ None) (λ size. IsSized text.now size (body kind hashes (chars text.now))) }
{
    match kind {
        LitKind::Str => string_closing_size(text, Inside::Characters),
        LitKind::ByteStr => string_closing_size(text, Inside::Bytes),
        LitKind::CStr => string_closing_size(text, Inside::Anything),
        LitKind::RawStr => raw_closing_size(text, hashes),
        LitKind::RawByteStr => raw_closing_size(text, hashes),
        LitKind::RawCStr => raw_closing_size(text, hashes),
        LitKind::Byte => lone_closing_size(text, true),
        LitKind::Char => None,
        LitKind::Int => None,
    }
}

/// The number of bytes up to a string's closing quote, with it.
fn string_closing_size(text: &str, inside: Inside) -> Option<usize>
    ensures { MatchOption result (string_closing inside 0 (chars text.now) ≡ None) (λ size. IsSized text.now size (string_closing inside 0 (chars text.now))) }
{
    let mut at = 0;
    while at < text.len() {
        let rest = text_from(text, at);
        if begins_with(rest, '"') {
            return Some(at + 1);
        }
        at += segment_of(rest, inside)?.size;
    }
    None
}

/// What stands at the front of a text inside a string.
pub fn segment_of(text: &str, inside: Inside) -> Option<Segment>
    requires { length text.now < 2 ^ 64 }
    ensures { MatchOption result (segment inside (chars text.now) ≡ None) (λ p. IsSegment inside text.now p) }
{
    if begins_with(text, '\\') {
        return match inside {
            Inside::Characters => escaped_segment(text, false),
            Inside::Bytes => escaped_segment(text, true),
            Inside::Anything => any_segment(text),
        };
    }
    let (c, _) = first_char(text)?;
    if !is_plain_char(c, inside) {
        return None;
    }
    Some(Segment {
        size: c.len_utf8(),
        means: Some(c),
    })
}

/// An escape in a string that spells characters or bytes.
fn escaped_segment(text: &str, in_bytes: bool) -> Option<Segment>
    requires begins { begins backslash (chars text.now) ≡ true }
    requires fits { length text.now < 2 ^ 64 }
    ensures { MatchOption result (segment (inside_of in_bytes) (chars text.now) ≡ None) (λ p. IsSegment (inside_of in_bytes) text.now p) }
{
    let (_, after) = first_char(text)?;
    quoted_escape_of(after, in_bytes)
}

/// A text that begins with `\` and any next character.
fn any_segment(text: &str) -> Option<Segment>
    requires begins { begins backslash (chars text.now) ≡ true }
    requires fits { length text.now < 2 ^ 64 }
    ensures { MatchOption result (segment inside_kind.Anything (chars text.now) ≡ None) (λ p. IsSegment inside_kind.Anything text.now p) }
{
    let (_, after) = first_char(text)?;
    let (c, _) = first_char(after)?;
    Some(Segment {
        size: 1 + c.len_utf8(),
        means: None,
    })
}

fn is_plain_char(c: char, inside: Inside) -> bool
    ensures { result ≡ is_plain inside c }
{
    match inside {
        Inside::Characters => true,
        Inside::Bytes => c.is_ascii(),
        Inside::Anything => true,
    }
}

/// The escape in a string of which `text` is behind `\`.
fn quoted_escape_of(text: &str, in_bytes: bool) -> Option<Segment>
    requires { length text.now + 1 < 2 ^ 64 }
    ensures { result ≡ quoted_escape in_bytes (chars text.now) }
{
    if line_end_size(text) == 0 {
        return escape_of(text, in_bytes);
    }
    Some(Segment {
        size: gap_size(text) + 1,
        means: None,
    })
}

/// How many bytes of a text's front are an LF, or a CR and an LF.
fn line_end_size(text: &str) -> usize
    ensures { result ≡ line_end (chars text.now) }
{
    let Some((c, after)) = first_char(text) else {
        return 0;
    };
    if c == '\n' {
        return 1;
    }
    if c == '\r' && begins_with(after, '\n') {
        2
    } else {
        0
    }
}

/// How many spaces, tabs, LF and CR a text begins with.
fn gap_size(text: &str) -> usize
    ensures count { result ≡ run is_gap (chars text.now) }
    ensures fits { result ≤ length text.now }
{
    let mut rest = text;
    let mut size = 0;
    while let Some((c, after)) = first_char(rest) {
        if !is_gap_char(c) {
            break;
        }
        size += 1;
        rest = after;
    }
    size
}

fn is_gap_char(c: char) -> bool
    ensures { result ≡ is_gap c }
{
    c == ' ' || c == '\t' || c == '\n' || c == '\r'
}

/// The number of bytes up to the first quote that as many `#` follow, with these.
fn raw_closing_size(text: &str, hashes: usize) -> Option<usize>
    ensures { MatchOption result (raw_closing hashes (chars text.now) ≡ None) (λ size. IsSized text.now size (raw_closing hashes (chars text.now))) }
{
    let mut at = 0;
    let mut rest = text;
    while let Some((c, after)) = first_char(rest) {
        if is_raw_end(c, after, hashes) {
            return Some(at + 1 + hashes);
        }
        at += c.len_utf8();
        rest = after;
    }
    None
}

pub fn is_raw_end(c: char, after: &str, hashes: usize) -> bool
    ensures is { result ≡ closes_raw hashes c (chars after.now) }
    ensures fits { result ≡ true → hashes ≤ length after.now }
{
    if c != '"' {
        return false;
    }
    begins_with_hashes(after, hashes)
}

fn begins_with_hashes(text: &str, hashes: usize) -> bool
    ensures is { result ≡ begins_hashes hashes (chars text.now) }
    ensures fits { result ≡ true → hashes ≤ length text.now }
{
    hashes <= hash_size(text)
}

/// How many `#` a text begins with.
fn hash_size(text: &str) -> usize
    ensures count { result ≡ run is_hash (chars text.now) }
    ensures fits { result ≤ length text.now }
{
    let mut rest = text;
    let mut size = 0;
    while let Some((c, after)) = first_char(rest) {
        if c != '#' {
            break;
        }
        size += 1;
        rest = after;
    }
    size
}

/// Whether each CR stands right before an LF.
fn has_whole_lines(text: &str) -> bool
    ensures { result ≡ whole_lines (chars text.now) }
{
    let mut rest = text;
    while let Some((c, after)) = first_char(rest) {
        if !keeps_line_before(c, after) {
            return false;
        }
        rest = after;
    }
    true
}

fn keeps_line_before(c: char, after: &str) -> bool
    ensures { result ≡ keeps_line c (chars after.now) }
{
    if c == '\r' {
        begins_with(after, '\n')
    } else {
        true
    }
}

/// The number of bytes of the Char that begins a text; None where the text's `'` doesn't begin one.
pub fn char_size(text: &str) -> Option<usize>
    requires { begins quote (chars text.now) ≡ true }
    ensures { MatchOption result (char_length (chars text.now) ≡ None) (λ size. IsSized text.now size (char_length (chars text.now))) }
{
    let (_, after) = first_char(text)?;
    let Some(behind) = lone_closing_size(after, false) else {
        return None;
    };
    Some(1 + behind)
}

/// The number of bytes behind an opening `'` up to the closing one, with it.
fn lone_closing_size(text: &str, in_bytes: bool) -> Option<usize>
    requires { length text.now + 1 < 2 ^ 64 }
    ensures { MatchOption result (lone_closing in_bytes (chars text.now) ≡ None) (λ size. IsSized text.now size (lone_closing in_bytes (chars text.now))) }
{
    let segment = lone_segment_of(text, in_bytes)?;
    if !begins_with(text_from(text, segment.size), '\'') {
        return None;
    }
    Some(segment.size + 1)
}

/// What stands behind an opening `'`: one character or an escape.
fn lone_segment_of(text: &str, in_bytes: bool) -> Option<Segment>
    requires { length text.now + 1 < 2 ^ 64 }
    ensures { MatchOption result (lone_segment in_bytes (chars text.now) ≡ None) (λ p. IsLoneSegment in_bytes text.now p) }
{
    let (c, after) = first_char(text)?;
    if c == '\\' {
        return escape_of(after, in_bytes);
    }
    if !is_lone_char(c, in_bytes) {
        return None;
    }
    Some(Segment {
        size: c.len_utf8(),
        means: Some(c),
    })
}

fn is_lone_char(c: char, in_bytes: bool) -> bool
    ensures { result ≡ is_lone in_bytes c }
{
    if c == '\'' || c == '\\' || c == '\n' || c == '\r' || c == '\t' {
        return false;
    }
    !in_bytes || c.is_ascii()
}

/// The escape of which `text` is behind `\`.
fn escape_of(text: &str, in_bytes: bool) -> Option<Segment>
    requires { length text.now + 1 < 2 ^ 64 }
    ensures { result ≡ escape in_bytes (chars text.now) }
{
    let (c, after) = first_char(text)?;
    if c == 'x' {
        return hex_escape(after, if in_bytes { BYTE_BOUND } else { ASCII_BOUND });
    }
    if c != 'u' {
        return short_escape(c);
    }
    if in_bytes {
        None
    } else {
        unicode_escape(after)
    }
}

/// The escape of which `text` is behind `\x`.
fn hex_escape(text: &str, limit: u32) -> Option<Segment>
    requires { limit ≤ 256 }
    ensures { result ≡ hex_segment limit (chars text.now) }
{
    let (first, after) = first_char(text)?;
    let (second, _) = first_char(after)?;
    let value = first.to_digit(16)? * 16 + second.to_digit(16)?;
    if value >= limit {
        return None;
    }
    Some(Segment {
        size: 4,
        means: Some(char::from(value as u8)),
    })
}

/// The escape of which `text` is behind `\u`.
fn unicode_escape(text: &str) -> Option<Segment>
    requires { length text.now + 2 < 2 ^ 64 }
    ensures { result ≡ unicode_segment (chars text.now) }
{
    let (brace, after) = first_char(text)?;
    if brace != '{' || !begins_with_hex(after) {
        return None;
    }
    let code = code_of(after)?;
    if !begins_with(text_from(after, code.size), '}') {
        return None;
    }
    Some(Segment {
        size: code.size + 4,
        means: Some(char::from_u32(code.value)?),
    })
}

fn begins_with_hex(text: &str) -> bool
    ensures { result ≡ begins_hex (chars text.now) }
{
    match first_char(text) {
        Some((c, _)) => c.is_digit(16),
        None => false,
    }
}

/// The code that a text begins with; None where it has more than six digits.
fn code_of(text: &str) -> Option<Code>
    ensures { MatchOption result (6 < length (code_digits (chars text.now))) (λ code. IsCode text.now code) }
{
    let mut rest = text;
    let mut code = Code {
        size: 0,
        digits: 0,
        value: 0,
    };
    while let Some((c, after)) = first_char(rest) {
        if !is_code_char(c) {
            break;
        }
        code = code_with(code, c)?;
        rest = after;
    }
    Some(code)
}

fn is_code_char(c: char) -> bool
    ensures { result ≡ is_code c }
{
    c.is_digit(16) || c == '_'
}

/// A code of one more character; None where it has six digits already.
fn code_with(code: Code, c: char) -> Option<Code>
    requires size { code.size + 1 < 2 ^ 64 }
    requires digits { code.digits ≤ 6 }
    requires value { code.value < 16 ^ code.digits }
    ensures { result ≡ with_code code c }
{
    let size = code.size + 1;
    let Some(digit) = c.to_digit(16) else {
        return Some(Code {
            size,
            digits: code.digits,
            value: code.value,
        });
    };
    if code.digits >= MOST_CODE_DIGITS {
        return None;
    }
    Some(Code {
        size,
        digits: code.digits + 1,
        value: code.value * 16 + digit,
    })
}

fn short_escape(c: char) -> Option<Segment>
    ensures { result ≡ short_segment (short_meaning c) }
{
    Some(Segment {
        size: 2,
        means: Some(short_meaning_of(c)?),
    })
}

fn short_meaning_of(c: char) -> Option<char>
    ensures { result ≡ short_meaning c }
{
    match c {
        'n' => Some('\n'),
        'r' => Some('\r'),
        't' => Some('\t'),
        '\\' => Some('\\'),
        '0' => Some('\0'),
        '\'' => Some('\''),
        '"' => Some('"'),
        _ => None,
    }
}

/// The number of bytes of the lifetime that begins a text; None where the text's `'` doesn't begin one.
pub fn lifetime_size(text: &str) -> Option<usize>
    requires { begins quote (chars text.now) ≡ true }
    ensures { MatchOption result (lifetime_length (chars text.now) ≡ None) (λ size. IsSized text.now size (lifetime_length (chars text.now))) }
{
    let (_, after) = first_char(text)?;
    if !begins_word(after) {
        return None;
    }
    if is_raw(after) {
        return None;
    }
    let size = run_size(after, Class::Word);
    if begins_with(text_from(after, size), '\'') {
        return None;
    }
    Some(1 + size)
}

/// Whether a text begins with `r#`.
fn is_raw(text: &str) -> bool
    ensures { result ≡ begins_raw (chars text.now) }
{
    behind_pair(text, 'r', '#').is_some()
}

/// Whether a text begins with a character.
pub fn begins_with(text: &str, wanted: char) -> bool
    ensures { result ≡ begins wanted (chars text.now) }
{
    match first_char(text) {
        Some((c, _)) => c == wanted,
        None => false,
    }
}

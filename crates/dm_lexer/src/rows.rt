//! The table of tokens in docs/FORMATS.md: what begins a text, by the first row whose opening stands there (Rust Reference, "Tokens").
#![tactic(auto, using(crate::proofs::RowSteps::rows))]

ghost use Rattle.std.specs.Prelude.{◌≡◌, ◌<◌, ◌+◌, ◌^◌, length, take, false, true, None, Some};
ghost use Rattle.std.specs.Str.{chars, IsCharBoundary};
ghost use Rattle.dm_lexer.specs.Characters.{quote};
ghost use Rattle.dm_lexer.specs.TextFronts.{IsBehind};
ghost use Rattle.dm_lexer.specs.Words.{begins_raw_word};
ghost use Rattle.dm_lexer.specs.Quotes.{begins, char_length, opening};
ghost use Rattle.dm_lexer.specs.Lexemes.{is_punct, opened_by, closed_by};
ghost use Rattle.dm_lexer.specs.Rows as spec;

use crate::front::{first_char, text_to};
use crate::lexing::Lexeme;
use crate::numbers::{begins_digit, number_size};
use crate::quotes::{Opening, begins_with, char_size, lifetime_size, opening_of, quoted_size};
use crate::words::{Class, begins_word, behind_pair, raw_word_size, run_size, word_size};
use dm_stream::{Delim, Ident, Lifetime, LitKind, Literal, Punct, Spacing, Span, Text, Token};

/// What a row says, in numbers of bytes: a lexeme and its size, or the size of the range that is refused.
#[derive(Drop)]
pub enum Found<'a> {
    Gives(Lexeme<'a>, usize),
    Refuses(usize),
    Passes,
}

/// What begins a text, which is at `at`, by the table.
#[tactic(auto, unfolding(crate::specs::Rows::row))]
pub fn row<'a>(text: &'a str, at: usize) -> Found<'a>
    requires some { 0 < length text.now }
    requires fits { at + length text.now < 2 ^ 64 }
    ensures { spec.IsFound (spec.row at (chars text.now)) result text.now }
{
    match quoted_row(text, at) {
        Found::Passes => match tick_row(text, at) {
            Found::Passes => unquoted_row(text, at),
            found => found,
        },
        found => found,
    }
}

/// What begins a text, by the rows that follow those with quotes.
fn unquoted_row<'a>(text: &'a str, at: usize) -> Found<'a>
    requires some { 0 < length text.now }
    requires fits { at + length text.now < 2 ^ 64 }
    ensures { spec.IsFound (spec.unquoted_row at (chars text.now)) result text.now }
{
    match raw_row(text, at) {
        Found::Passes => match word_row(text, at) {
            Found::Passes => marked_row(text, at),
            found => found,
        },
        found => found,
    }
}

/// What begins a text, by the rows of numbers and marks.
fn marked_row<'a>(text: &'a str, at: usize) -> Found<'a>
    requires some { 0 < length text.now }
    requires fits { at + length text.now < 2 ^ 64 }
    ensures { spec.IsFound (spec.or_row (spec.number_row at (chars text.now)) (spec.mark_row at (chars text.now))) result text.now }
{
    match number_row(text, at) {
        Found::Passes => mark_row(text, at),
        found => found,
    }
}

fn quoted_row<'a>(text: &'a str, at: usize) -> Found<'a>
    requires some { 0 < length text.now }
    requires fits { at + length text.now < 2 ^ 64 }
    ensures { spec.IsFound (spec.quoted_row at (chars text.now)) result text.now }
{
    match opening_of(text) {
        Some(by) => quoted_of(text, by, at),
        None => Found::Passes,
    }
}

/// The literal of an opening that begins a text, or a refusal of that.
fn quoted_of<'a>(text: &'a str, by: Opening, at: usize) -> Found<'a>
    requires some { 0 < length text.now }
    requires begins { opening (chars text.now) ≡ Some by }
    requires fits { at + length text.now < 2 ^ 64 }
    ensures { spec.IsFound (spec.quoted_row at (chars text.now)) result text.now }
{
    match quoted_size(text, by) {
        Some(size) => {
            Found::Gives(
                Lexeme::Token(Token::Literal(literal_of(by.kind, text, at, size))),
                size,
            )
        }
        None => Found::Refuses(by.size),
    }
}

fn tick_row<'a>(text: &'a str, at: usize) -> Found<'a>
    requires some { 0 < length text.now }
    requires fits { at + length text.now < 2 ^ 64 }
    ensures { spec.IsFound (spec.tick_row at (chars text.now)) result text.now }
{
    if begins_with(text, '\'') {
        tick_of(text, at)
    } else {
        Found::Passes
    }
}

/// The Char or the lifetime that begins a text.
fn tick_of<'a>(text: &'a str, at: usize) -> Found<'a>
    requires some { 0 < length text.now }
    requires begins { begins quote (chars text.now) ≡ true }
    requires fits { at + length text.now < 2 ^ 64 }
    ensures { spec.IsFound (spec.tick_row at (chars text.now)) result text.now }
{
    match char_size(text) {
        Some(size) => {
            Found::Gives(
                Lexeme::Token(Token::Literal(literal_of(LitKind::Char, text, at, size))),
                size,
            )
        }
        None => lifetime_of(text, at),
    }
}

/// The lifetime that begins a text, or a refusal of its `'`.
fn lifetime_of<'a>(text: &'a str, at: usize) -> Found<'a>
    requires begins { begins quote (chars text.now) ≡ true }
    requires no_char { char_length (chars text.now) ≡ None }
    requires fits { at + length text.now < 2 ^ 64 }
    ensures { spec.IsFound (spec.tick_row at (chars text.now)) result text.now }
{
    let Some(_whole) = lifetime_size(text) else {
        return Found::Refuses(1);
    };
    let Some((_, after)) = first_char(text) else {
        return Found::Refuses(1);
    };
    let size = run_size(after, Class::Word);
    Found::Gives(
        Lexeme::Token(Token::Lifetime(lifetime_word(after, at, size))),
        1 + size,
    )
}

/// The lifetime whose `'` stands at `at`, and whose name is the first `size` bytes of `after`.
fn lifetime_word<'a>(after: &'a str, at: usize, size: usize) -> Lifetime<'a>
    requires boundary { IsCharBoundary after.now size }
    requires fits { at + (1 + length after.now) < 2 ^ 64 }
    ensures { result ≡ record { name = take size after.now; span = record { start = at; «end» = at + (1 + size) } } }
{
    Lifetime {
        name: Text::borrowed(text_to(after, size)),
        span: span_at(at, 1 + size),
    }
}

fn raw_row<'a>(text: &'a str, at: usize) -> Found<'a>
    requires some { 0 < length text.now }
    requires fits { at + length text.now < 2 ^ 64 }
    ensures { spec.IsFound (spec.raw_row at (chars text.now)) result text.now }
{
    let Some(rest) = behind_pair(text, 'r', '#') else {
        return Found::Passes;
    };
    if begins_word(rest) {
        raw_of(text, rest, at)
    } else {
        Found::Passes
    }
}

/// The raw identifier that begins a text, or a refusal of its `r#`, where `rest` is the text behind that.
fn raw_of<'a>(text: &'a str, rest: &'a str, at: usize) -> Found<'a>
    requires some { 0 < length text.now }
    requires begins { begins_raw_word (chars text.now) ≡ true }
    requires behind { IsBehind text.now 2 2 rest.now }
    requires fits { at + length text.now < 2 ^ 64 }
    ensures { spec.IsFound (spec.raw_row at (chars text.now)) result text.now }
{
    let Some(_whole) = raw_word_size(text) else {
        return Found::Refuses(2);
    };
    let size = run_size(rest, Class::Word);
    Found::Gives(
        Lexeme::Token(Token::Ident(raw_word_of(rest, at, size))),
        2 + size,
    )
}

/// The raw identifier whose `r#` stands at `at`, and whose name is the first `size` bytes of `rest`.
fn raw_word_of<'a>(rest: &'a str, at: usize, size: usize) -> Ident<'a>
    requires boundary { IsCharBoundary rest.now size }
    requires fits { at + (2 + length rest.now) < 2 ^ 64 }
    ensures { result ≡ record { name = take size rest.now; raw = true; span = record { start = at; «end» = at + (2 + size) } } }
{
    Ident {
        name: Text::borrowed(text_to(rest, size)),
        raw: true,
        span: span_at(at, 2 + size),
    }
}

fn word_row<'a>(text: &'a str, at: usize) -> Found<'a>
    requires some { 0 < length text.now }
    requires fits { at + length text.now < 2 ^ 64 }
    ensures { spec.IsFound (spec.word_row at (chars text.now)) result text.now }
{
    match word_size(text) {
        Some(size) => Found::Gives(Lexeme::Token(Token::Ident(word_of(text, at, size))), size),
        None => Found::Passes,
    }
}

/// The identifier of the first `size` bytes of a text.
fn word_of<'a>(text: &'a str, at: usize, size: usize) -> Ident<'a>
    requires boundary { IsCharBoundary text.now size }
    requires fits { at + length text.now < 2 ^ 64 }
    ensures { result ≡ record { name = take size text.now; raw = false; span = record { start = at; «end» = at + size } } }
{
    Ident {
        name: Text::borrowed(text_to(text, size)),
        raw: false,
        span: span_at(at, size),
    }
}

fn number_row<'a>(text: &'a str, at: usize) -> Found<'a>
    requires some { 0 < length text.now }
    requires fits { at + length text.now < 2 ^ 64 }
    ensures { spec.IsFound (spec.number_row at (chars text.now)) result text.now }
{
    if !begins_digit(text) {
        return Found::Passes;
    }
    match number_size(text) {
        Some(size) => {
            Found::Gives(
                Lexeme::Token(Token::Literal(literal_of(LitKind::Int, text, at, size))),
                size,
            )
        }
        None => Found::Refuses(run_size(text, Class::Word)),
    }
}

/// The literal of the first `size` bytes of a text.
fn literal_of<'a>(kind: LitKind, text: &'a str, at: usize, size: usize) -> Literal<'a>
    requires boundary { IsCharBoundary text.now size }
    requires fits { at + length text.now < 2 ^ 64 }
    ensures { result ≡ record { kind = kind; text = take size text.now; span = record { start = at; «end» = at + size } } }
{
    Literal {
        kind,
        text: Text::borrowed(text_to(text, size)),
        span: span_at(at, size),
    }
}

fn mark_row<'a>(text: &'a str, at: usize) -> Found<'a>
    requires some { 0 < length text.now }
    requires fits { at + length text.now < 2 ^ 64 }
    ensures { spec.IsFound (spec.mark_row at (chars text.now)) result text.now }
{
    let Some((c, after)) = first_char(text) else {
        return Found::Passes;
    };
    if let Some(delim) = opens(c) {
        return Found::Gives(Lexeme::Open(delim, span_at(at, 1)), 1);
    }
    if let Some(delim) = closes(c) {
        return Found::Gives(Lexeme::Close(delim, span_at(at, 1)), 1);
    }
    if is_punct_char(c) {
        return Found::Gives(Lexeme::Token(Token::Punct(punct_of(c, after, at))), 1);
    }
    Found::Refuses(c.len_utf8())
}

fn opens(c: char) -> Option<Delim>
    ensures { result ≡ opened_by c }
{
    match c {
        '(' => Some(Delim::Paren),
        '[' => Some(Delim::Bracket),
        '{' => Some(Delim::Brace),
        _ => None,
    }
}

fn closes(c: char) -> Option<Delim>
    ensures { result ≡ closed_by c }
{
    match c {
        ')' => Some(Delim::Paren),
        ']' => Some(Delim::Bracket),
        '}' => Some(Delim::Brace),
        _ => None,
    }
}

/// The punct of one character, before a text.
fn punct_of(c: char, after: &str, at: usize) -> Punct
    requires { at + 1 < 2 ^ 64 }
    ensures { result ≡ record { ch = c; spacing = spec.spacing_before (chars after.now); span = spec.byte_at at } }
{
    Punct {
        ch: c,
        spacing: spacing_of(after),
        span: span_at(at, 1),
    }
}

/// The spacing of a punct before a text.
fn spacing_of(after: &str) -> Spacing
    ensures { result ≡ spec.spacing_before (chars after.now) }
{
    if begins_comment(after) {
        Spacing::Alone
    } else if begins_punct(after) {
        Spacing::Joint
    } else {
        Spacing::Alone
    }
}

fn begins_comment(text: &str) -> bool
    ensures { result ≡ spec.begins_comment (chars text.now) }
{
    behind_pair(text, '/', '/').is_some() || behind_pair(text, '/', '*').is_some()
}

fn begins_punct(text: &str) -> bool
    ensures { result ≡ spec.begins_punct (chars text.now) }
{
    match first_char(text) {
        Some((c, _)) => is_punct_char(c),
        None => false,
    }
}

fn is_punct_char(c: char) -> bool
    ensures { result ≡ is_punct c }
{
    matches!(
        c,
        '~' | '!'
            | '@'
            | '#'
            | '$'
            | '%'
            | '^'
            | '&'
            | '*'
            | '-'
            | '='
            | '+'
            | '\\'
            | '|'
            | ';'
            | ':'
            | ','
            | '<'
            | '.'
            | '>'
            | '/'
            | '?'
    )
}

/// The range of a number of bytes.
pub fn span_at(at: usize, size: usize) -> Span
    requires { at + size < 2 ^ 64 }
    ensures { result ≡ record { start = at; «end» = at + size } }
{
    Span {
        start: at,
        end: at + size,
    }
}

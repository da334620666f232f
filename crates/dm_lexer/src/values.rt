//! The values of strings, by the rules on escapes in docs/FORMATS.md (Rust Reference, "Tokens", string literals).

ghost use Rattle.std.specs.Prelude.{◌≡◌, ◌++◌, option_map, IfOk, OnOk};
ghost use Rattle.std.specs.Str.{chars, encode_utf8_all};
ghost use Rattle.std.specs.String.{string_bytes};
ghost use Rattle.dm_lexer.specs.Quotes.{meaning};
ghost use Rattle.dm_lexer.specs.Values as spec;

use crate::front::{first_char, text_from, text_to};
use crate::quotes::{
    Inside, Opening, begins_with, is_raw_end, opening_of, quoted_size, segment_of,
};
use dm_stream::{LitKind, Literal, Made};
use std::alloc::{AllocError, Global};

/// The value of a string or a raw string, by the rules on escapes of docs/FORMATS.md, "Tokens" (Rust Reference, "Tokens", string and raw
/// string literals): the characters that it spells, without its quotes and `#`. A line end in it stays as it is spelled. None for a
/// literal of another kind, and for a text that is no literal of its kind. The error is want of memory.
pub fn str_value(alloc: Global, literal: &Literal<'_>) -> Result<Option<String>, AllocError>
    ensures { IfOk result (λ v. option_map string_bytes v ≡ spec.str_value literal.now.kind literal.now.text) }
{
    let text = literal.text.as_str();
    let Some(by) = whole_opening(text) else {
        return Ok(None);
    };
    meant_behind(alloc, literal.kind, by, text_from(text, by.size))
}

/// The opening of the literal with quotes that all of a text spells.
fn whole_opening(text: &str) -> Option<Opening>
    ensures { result ≡ spec.whole_opening (chars text.now) }
{
    let Some(by) = opening_of(text) else {
        return None;
    };
    let Some(size) = quoted_size(text, by) else {
        return None;
    };
    if size == text.len() { Some(by) } else { None }
}

/// What a literal means, by its opening and the text behind that.
fn meant_behind(alloc: Global, kind: LitKind, by: Opening, inside: &str) -> Made<Option<String>>
    ensures { IfOk result (λ v. option_map string_bytes v ≡ option_map encode_utf8_all (spec.meant_behind kind by.kind by.hashes (chars inside.now))) }
{
    match (kind, by.kind) {
        (LitKind::Str, LitKind::Str) => Ok(Some(meaning_of(alloc, inside)?)),
        (LitKind::RawStr, LitKind::RawStr) => {
            let front = raw_inside(inside, by.hashes);
            Ok(Some(String::from_str(alloc, front)?))
        }
        _ => Ok(None),
    }
}

/// What a string means, of which `text` is behind the opening quote.
fn meaning_of(alloc: Global, text: &str) -> Made<String>
    ensures { IfOk result (λ s. string_bytes s ≡ encode_utf8_all (meaning 0 (chars text.now))) }
{
    let mut out = String::new(alloc);
    let mut at = 0;
    while at < text.len() {
        let rest = text_from(text, at);
        if begins_with(rest, '"') {
            break;
        }
        let Some(segment) = segment_of(rest, Inside::Characters) else {
            break;
        };
        push_meant(&mut out, segment.means)?;
        at += segment.size;
    }
    Ok(out)
}

/// Adds the character that a segment of a string means, if any.
fn push_meant(out: &mut String, means: Option<char>) -> Made<()>
    ensures { OnOk result (string_bytes out.new ≡ string_bytes out.old ++ spec.meant_bytes means) }
{
    if let Some(c) = means {
        out.push(c)?;
    }
    Ok(())
}

/// The front of a raw string's text, up to the first quote that as many `#` follow.
fn raw_inside<'a>(text: &'a str, hashes: usize) -> &'a str
    ensures { result.now ≡ encode_utf8_all (spec.raw_meaning hashes (chars text.now)) }
{
    let mut at = 0;
    let mut rest = text;
    while let Some((c, after)) = first_char(rest) {
        if is_raw_end(c, after, hashes) {
            break;
        }
        at += c.len_utf8();
        rest = after;
    }
    text_to(text, at)
}

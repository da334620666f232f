//! Characters at the front of a text.

ghost use Rattle.std.specs.Prelude.{◌≡◌, ◌<◌, None, Some, MatchOption};
ghost use Rattle.std.specs.Str.{chars};
ghost use Rattle.dm_lexer.specs.TextFronts.{IsFront, run};
ghost use Rattle.dm_fmtstr.specs.Fronts.{behind, begins_with};
ghost use Rattle.dm_fmtstr.specs.Grammar as spec;
ghost use Rattle.unicode_ident.specs.Ident.{is_xid_continue};

use dm_lexer::front::first_char;

/// The text behind this character, where it stands at the front.
pub fn behind_char<'a>(text: &'a str, wanted: char) -> Option<&'a str>
    ensures { MatchOption result (behind wanted (chars text.now) ≡ None) (λ rest. behind wanted (chars text.now) ≡ Some (chars rest.now)) }
{
    match first_char(text) {
        Some((c, rest)) if c == wanted => Some(rest),
        _ => None,
    }
}

/// Whether this character stands at the front.
pub fn is_next(text: &str, wanted: char) -> bool
    ensures { result ≡ begins_with wanted (chars text.now) }
{
    match first_char(text) {
        Some((c, _)) => c == wanted,
        None => false,
    }
}

/// Whether a character that goes on with an identifier stands at the front.
pub fn goes_on(text: &str) -> bool
    ensures { result ≡ spec.goes_on (chars text.now) }
{
    match first_char(text) {
        Some((c, _)) => unicode_ident::is_xid_continue(c),
        None => false,
    }
}

/// The number of bytes of the longest front whose characters all go on with an identifier (Unicode's XID_Continue).
pub fn word_size(text: &str) -> usize
    ensures { IsFront text.now result (run is_xid_continue (chars text.now)) }
{
    let mut rest = text;
    let mut at = 0;
    while let Some((c, after)) = first_char(rest) {
        if !unicode_ident::is_xid_continue(c) {
            break;
        }
        at += c.len_utf8();
        rest = after;
    }
    at
}

/// What was read and the text behind it, or else nothing and the whole text.
pub fn optional<'a, T: Drop>(text: &'a str, read: Option<(&'a str, T)>) -> (&'a str, Option<T>)
    ensures { MatchOption read.entry ((result.0.now ≡ text.now) × (result.1 ≡ None)) (λ r. (result.0.now ≡ r.0.now) × (result.1 ≡ Some r.1)) }
{
    match read {
        Some((rest, part)) => (rest, Some(part)),
        None => (text, None),
    }
}

//! The front of a text: its first character, and the text up to a place and from it on. Places are counts of bytes.

ghost use Rattle.std.specs.Prelude.{◌≡◌, ◌++◌, ◌∷◌, [], ◌<◌, length, take, drop, MatchOption, IfSome, encode_utf8};
ghost use Rattle.std.specs.Str.{chars, IsCharBoundary};

/// The first character of a text, and the rest.
pub fn first_char<'a>(text: &'a str) -> Option<(char, &'a str)>
    ensures chars { MatchOption result (chars text.now ≡ []) (λ r. chars text.now ≡ r.0 ∷ chars r.1.now) }
    ensures bytes { MatchOption result (text.now ≡ []) (λ r. text.now ≡ encode_utf8 r.0 ++ r.1.now) }
    ensures shorter { IfSome result (λ r. length r.1.now < length text.now) }
{
    let mut chars = text.chars();
    match chars.next() {
        Some(c) => Some((c, chars.as_str())),
        None => None,
    }
}

/// The text from a place on.
pub fn text_from<'a>(text: &'a str, at: usize) -> &'a str
    requires { IsCharBoundary text.now at }
    ensures { result.now ≡ drop at text.now }
{
    &text[at..]
}

/// The text up to a place.
pub fn text_to<'a>(text: &'a str, at: usize) -> &'a str
    requires { IsCharBoundary text.now at }
    ensures { result.now ≡ take at text.now }
{
    &text[..at]
}

//! The traits that a format string asks for (std::fmt, "Formatting traits").

ghost use Rattle.std.specs.Prelude.{◌≡◌, None, Some, MatchOption};
ghost use Rattle.std.specs.Str.{chars};
ghost use Rattle.dm_fmtstr.specs.Grammar as spec;
ghost use Rattle.dm_fmtstr.specs.Positions as positions;

use crate::chars::behind_char;
use dm_lexer::front::first_char;

/// The formatting trait of a placeholder, which its last letters tell. `LowerDebug` is `x?` and `UpperDebug` is `X?`: `Debug` with
/// hexadecimal integers.
#[derive(Clone, Copy, Debug, PartialEq, Eq)]
pub enum FmtType {
    Display,
    Debug,
    LowerDebug,
    UpperDebug,
    Octal,
    LowerHex,
    UpperHex,
    Pointer,
    Binary,
    LowerExp,
    UpperExp,
}

impl FmtType {
    /// The name of the trait in `std::fmt`: the variant's own, but `Debug` for `LowerDebug` and `UpperDebug`.
    pub fn trait_name(&self) -> &'static str
        ensures { result.now ≡ positions.trait_name self.now }
    {
        match self {
            FmtType::Display => "Display",
            FmtType::Debug | FmtType::LowerDebug | FmtType::UpperDebug => "Debug",
            FmtType::Octal => "Octal",
            FmtType::LowerHex => "LowerHex",
            FmtType::UpperHex => "UpperHex",
            FmtType::Pointer => "Pointer",
            FmtType::Binary => "Binary",
            FmtType::LowerExp => "LowerExp",
            FmtType::UpperExp => "UpperExp",
        }
    }

    /// Whether the trait is asked for as it is: false for `LowerDebug` and `UpperDebug`, which say how integers are written.
    pub fn is_trivial(&self) -> bool
        ensures { result ≡ positions.is_trivial self.now }
    {
        match self {
            FmtType::LowerDebug | FmtType::UpperDebug => false,
            FmtType::Display
            | FmtType::Debug
            | FmtType::Octal
            | FmtType::LowerHex
            | FmtType::UpperHex
            | FmtType::Pointer
            | FmtType::Binary
            | FmtType::LowerExp
            | FmtType::UpperExp => true,
        }
    }
}

/// The kind at the front: its letters, or none before `}`.
pub fn read_kind<'a>(text: &'a str) -> Option<(&'a str, FmtType)>
    ensures { MatchOption result (spec.kind_at (chars text.now) ≡ None) (λ r. spec.kind_at (chars text.now) ≡ Some (chars r.0.now, r.1)) }
{
    if let Some(found) = read_hexadecimal(text) {
        return Some(found);
    }
    let (c, rest) = first_char(text)?;
    if c == '}' {
        return Some((text, FmtType::Display));
    }
    Some((rest, letter_of(c)?))
}

/// `x?` or `X?`.
fn read_hexadecimal<'a>(text: &'a str) -> Option<(&'a str, FmtType)>
    ensures { MatchOption result (spec.hexadecimal_at (chars text.now) ≡ None) (λ r. spec.hexadecimal_at (chars text.now) ≡ Some (chars r.0.now, r.1)) }
{
    let (c, rest) = first_char(text)?;
    let kind = hexadecimal_of(c)?;
    Some((behind_char(rest, '?')?, kind))
}

fn hexadecimal_of(c: char) -> Option<FmtType>
    ensures { result ≡ spec.hexadecimal_of c }
{
    match c {
        'x' => Some(FmtType::LowerDebug),
        'X' => Some(FmtType::UpperDebug),
        _ => None,
    }
}

fn letter_of(c: char) -> Option<FmtType>
    ensures { result ≡ spec.letter_of c }
{
    match c {
        '?' => Some(FmtType::Debug),
        'o' => Some(FmtType::Octal),
        'x' => Some(FmtType::LowerHex),
        'X' => Some(FmtType::UpperHex),
        'p' => Some(FmtType::Pointer),
        'b' => Some(FmtType::Binary),
        'e' => Some(FmtType::LowerExp),
        'E' => Some(FmtType::UpperExp),
        _ => None,
    }
}

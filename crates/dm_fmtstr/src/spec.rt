//! How a value is formatted: what stands behind `:` in a placeholder (std::fmt, "Formatting Parameters").

ghost use Rattle.std.specs.Prelude.{◌≡◌, None, Some, MatchOption};
ghost use Rattle.std.specs.Str.{chars};
ghost use Rattle.dm_fmtstr.specs.Grammar as spec;
ghost use Rattle.dm_fmtstr.specs.Parts.{precision_of, spec_of};

use crate::argument::{Count, Precision, read_count};
use crate::chars::{behind_char, is_next, optional};
use crate::kind::{FmtType, read_kind};
use dm_lexer::front::first_char;

/// To which side a value is moved within its width: `<`, `^` or `>`.
#[derive(Clone, Copy, Debug, PartialEq, Eq)]
pub enum Align {
    Left,
    Center,
    Right,
}

/// `+` or `-`.
#[derive(Clone, Copy, Debug, PartialEq, Eq)]
pub enum Sign {
    Plus,
    Minus,
}

/// `#`: the alternate form.
#[derive(Clone, Copy, Debug, PartialEq, Eq)]
pub struct Alternate;

/// `0`: the width is filled with zeros.
#[derive(Clone, Copy, Debug, PartialEq, Eq)]
pub struct ZeroPadding;

/// What stands behind `:`: the fill and the side, the sign, `#`, `0`, the width, the precision and the trait.
#[derive(Debug, PartialEq, Eq, Drop)]
pub struct FormatSpec<'a> {
    pub align: Option<(Option<char>, Align)>,
    pub sign: Option<Sign>,
    pub alternate: Option<Alternate>,
    pub zero_padding: Option<ZeroPadding>,
    pub width: Option<Count<'a>>,
    pub precision: Option<Precision<'a>>,
    pub ty: FmtType,
}

/// What stands behind `:`, up to the `}`.
pub fn read_spec<'a>(text: &'a str) -> Option<(&'a str, FormatSpec<'a>)>
    ensures { MatchOption result (spec.spec_at (chars text.now) ≡ None) (λ r. spec.spec_at (chars text.now) ≡ Some (chars r.0.now, spec_of r.1)) }
{
    let (rest, align) = optional(text, read_align(text));
    let (rest, sign) = optional(rest, read_sign(rest));
    let (rest, alternate) = optional(rest, read_alternate(rest));
    let (rest, zero_padding) = optional(rest, read_zero_padding(rest));
    let (rest, width) = optional(rest, read_count(rest));
    let (rest, precision) = optional(rest, read_precision(rest));
    let Some((rest, ty)) = read_kind(rest) else {
        return None;
    };
    let spec = FormatSpec {
        align,
        sign,
        alternate,
        zero_padding,
        width,
        precision,
        ty,
    };
    Some((rest, spec))
}

/// The fill, where there is one, and the side.
fn read_align<'a>(text: &'a str) -> Option<(&'a str, (Option<char>, Align))>
    ensures { MatchOption result (spec.align_at (chars text.now) ≡ None) (λ r. spec.align_at (chars text.now) ≡ Some (chars r.0.now, r.1)) }
{
    let (fill, behind) = first_char(text)?;
    if let Some((rest, align)) = read_side(behind) {
        return Some((rest, (Some(fill), align)));
    }
    let (rest, align) = read_side(text)?;
    Some((rest, (None, align)))
}

fn read_side<'a>(text: &'a str) -> Option<(&'a str, Align)>
    ensures { MatchOption result (spec.side_at (chars text.now) ≡ None) (λ r. spec.side_at (chars text.now) ≡ Some (chars r.0.now, r.1)) }
{
    let (c, rest) = first_char(text)?;
    Some((rest, align_of(c)?))
}

fn align_of(c: char) -> Option<Align>
    ensures { result ≡ spec.align_of c }
{
    match c {
        '<' => Some(Align::Left),
        '^' => Some(Align::Center),
        '>' => Some(Align::Right),
        _ => None,
    }
}

fn read_sign<'a>(text: &'a str) -> Option<(&'a str, Sign)>
    ensures { MatchOption result (spec.sign_at (chars text.now) ≡ None) (λ r. spec.sign_at (chars text.now) ≡ Some (chars r.0.now, r.1)) }
{
    let (c, rest) = first_char(text)?;
    let sign = match c {
        '+' => Sign::Plus,
        '-' => Sign::Minus,
        _ => return None,
    };
    Some((rest, sign))
}

fn read_alternate<'a>(text: &'a str) -> Option<(&'a str, Alternate)>
    ensures { MatchOption result (spec.alternate_at (chars text.now) ≡ None) (λ r. spec.alternate_at (chars text.now) ≡ Some (chars r.0.now, r.1)) }
{
    Some((behind_char(text, '#')?, Alternate))
}

/// `0`, where it isn't the position of an argument `0$`.
fn read_zero_padding<'a>(text: &'a str) -> Option<(&'a str, ZeroPadding)>
    ensures { MatchOption result (spec.padding_at (chars text.now) ≡ None) (λ r. spec.padding_at (chars text.now) ≡ Some (chars r.0.now, r.1)) }
{
    let rest = behind_char(text, '0')?;
    if is_next(rest, '$') {
        return None;
    }
    Some((rest, ZeroPadding))
}

fn read_precision<'a>(text: &'a str) -> Option<(&'a str, Precision<'a>)>
    ensures { MatchOption result (spec.precision_at (chars text.now) ≡ None) (λ r. spec.precision_at (chars text.now) ≡ Some (chars r.0.now, precision_of r.1)) }
{
    let behind = behind_char(text, '.')?;
    if let Some((rest, count)) = read_count(behind) {
        return Some((rest, Precision::Count(count)));
    }
    Some((behind_char(behind, '*')?, Precision::Star))
}

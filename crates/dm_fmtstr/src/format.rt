//! Placeholders as they are spelled, and whole format strings (std::fmt, "Syntax").

ghost use Rattle.std.specs.Prelude.{◌≡◌, ◌∷◌, None, Some, MatchOption, IfOk};
ghost use Rattle.std.specs.Str.{chars};
ghost use Rattle.dm_fmtstr.specs.Grammar as spec;
ghost use Rattle.dm_fmtstr.specs.Parts.{format_of, formats_of, spec_of};

use crate::argument::{Argument, read_argument};
use crate::chars::{behind_char, optional};
use crate::spec::{FormatSpec, read_spec};
use dm_lexer::front::first_char;
use dm_stream::Seq;
use std::alloc::{AllocError, Global};

/// A placeholder `{argument:spec}`, of which both parts may be absent.
#[derive(Debug, PartialEq, Eq, Drop)]
pub struct Format<'a> {
    pub arg: Option<Argument<'a>>,
    pub spec: Option<FormatSpec<'a>>,
}

/// The placeholders of a format string, in order.
#[derive(Debug, Drop)]
pub struct FormatString<'a> {
    pub formats: Seq<Format<'a>>,
}

/// The placeholder that begins a text, and the text behind it. Each name in the placeholder is a slice of the text. None exactly
/// where no placeholder begins the text: where it doesn't begin with `{`, where what follows isn't an argument, `:` and a spec, each
/// of which may be absent, up to a `}`, and where a number isn't below 2^64. So `{{` begins none.
///
/// The syntax is that of `std::fmt`; docs/FORMATS.md, "Format strings", has it whole.
pub fn read_format<'a>(text: &'a str) -> Option<(&'a str, Format<'a>)>
    ensures { MatchOption result (spec.format_at (chars text.now) ≡ None) (λ r. spec.format_at (chars text.now) ≡ Some (chars r.0.now, format_of r.1)) }
{
    let inside = behind_char(text, '{')?;
    let (rest, arg) = optional(inside, read_argument(inside));
    let (rest, spec) = optional(rest, read_spec_part(rest));
    let Some(rest) = behind_char(rest, '}') else {
        return None;
    };
    Some((rest, Format { arg, spec }))
}

/// `:` and the spec behind it.
fn read_spec_part<'a>(text: &'a str) -> Option<(&'a str, FormatSpec<'a>)>
    ensures { MatchOption result (spec.spec_part_at (chars text.now) ≡ None) (λ r. spec.spec_part_at (chars text.now) ≡ Some (chars r.0.now, spec_of r.1)) }
{
    read_spec(behind_char(text, ':')?)
}

/// The placeholders of a format string, in order: of a text in which each `{` begins a placeholder or `{{`, and each `}` ends a
/// placeholder or stands in `}}`. None exactly where the text is no such string. It takes linear time.
///
/// The syntax is that of `std::fmt`; docs/FORMATS.md, "Format strings", has it whole. No two lists are those of one text, as
/// `one_reading` says.
pub fn format_string<'a>(
    alloc: Global,
    text: &'a str,
) -> Result<Option<FormatString<'a>>, AllocError>
    ensures { IfOk result (λ found. MatchOption found (spec.HasNoFormats (chars text.now)) (λ s. spec.Formats (chars text.now) (formats_of s.formats))) }
{
    let mut formats = Seq::new(alloc);
    let mut rest = text;
    while let Some((c, after)) = first_char(rest) {
        if let Some(behind) = behind_text(c, after) {
            rest = behind;
            continue;
        }
        let Some((behind, format)) = read_format(rest) else {
            return Ok(None);
        };
        formats.add(format)?;
        rest = behind;
    }
    Ok(Some(FormatString { formats }))
}

/// The text behind a first character that is no brace, or behind `{{` or `}}`. The text begins with `c`, and `rest` follows.
fn behind_text<'a>(c: char, rest: &'a str) -> Option<&'a str>
    ensures { MatchOption result (spec.behind_text (c ∷ chars rest.now) ≡ None) (λ behind. spec.behind_text (c ∷ chars rest.now) ≡ Some (chars behind.now)) }
{
    if c == '{' || c == '}' {
        behind_char(rest, c)
    } else {
        Some(rest)
    }
}

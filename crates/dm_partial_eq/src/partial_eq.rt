//! `PartialEq`.
#![tactic(auto)]

ghost use Rattle.std.specs.Prelude.{IfOk, string_bytes};
ghost use Rattle.dm_ast.specs.Declarations.{declaration_view};
ghost use Rattle.dm_operands.specs.Places.{AreCases};
ghost use Rattle.dm_operands.specs.Readable.{IsReadable};
ghost use Rattle.dm_partial_eq.specs.Expanded.{IsPrinted, IsText};

use crate::checks::checked;
use crate::printing::printed_item;
use dm_ast::DeriveInput;
use dm_operands::cases::CaseRef;
use dm_stream::{Made, Read};
use std::alloc::Global;

fn printed<'x, 'a>(
    input: &'x DeriveInput<'a>,
    cases: &[CaseRef<'x, 'a>],
    alloc: Global,
) -> Made<String>
    requires readable { IsReadable (declaration_view input.now) }
    requires cases { AreCases (declaration_view input.now) cases.now }
    ensures { IfOk result (λ text. IsText (declaration_view input.now) (string_bytes text)) }
{
    printed_item(input, cases, alloc)
}

/// The text of the implementation of `PartialEq`: `eq`, and `ne` where some variant is compared, each field by field.
///
/// It has the declared parameters, lifetimes first, and the declared predicates. Behind these stands, for each field that is kept,
/// in an unskipped struct or variant, in order and with repeats, `F: derive_more::core::cmp::PartialEq`: for its type `F`, where that mentions
/// a parameter and neither `Self` nor the declared type with its parameters stands in it. A `for<..>` at the front of `F` is the predicate's.
///
/// The declaration is any that the reader gives, whose names may be declared. The trait's name isn't looked at.
///
/// A union is refused with `Kind::WrongShape` at the word `union`. Of a struct, then of each of its fields, or of each
/// variant of an enum and then its fields, the attributes `#[partial_eq(..)]` are looked at, or `#[eq(..)]` where there
/// are none. One that isn't `skip` or `ignore` between delimiters is refused with `Kind::AttrSyntax`, and a second one that is
/// with `Kind::AttrRepeated`, at its own range. The attributes of an enum and the fields of a skipped struct or variant
/// aren't looked at. The first refusal in this order is the answer.
pub fn print<'a>(alloc: Global, input: &DeriveInput<'a>, _trait_name: &str) -> Read<String>
    requires { IsReadable (declaration_view input.now) }
    ensures { IsPrinted (declaration_view input.now) result }
{
    let cases = checked(input, alloc)?;
    Ok(printed(input, cases.as_slice(), alloc)?)
}

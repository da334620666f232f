//! The cases of a declaration, in one form for structs and enums, each with its fields and the truth whether it is left out.

ghost use Rattle.std.specs.Prelude.{◌≡◌, map};
ghost use Rattle.dm_ast.specs.Declarations.{declaration_view};
ghost use Rattle.dm_output.specs.Values as values;
ghost use Rattle.dm_operands.specs.Sides as sides;
ghost use Rattle.dm_operands.specs.Kept as spec;
ghost use Rattle.dm_operands.specs.CaseViews.{case_view, field_ref_view};

use dm_ast::{Data, DeriveInput, Field};
use dm_stream::Ident;

/// What stands around the fields of a case: braces, parentheses, or nothing.
#[derive(Clone, Copy, Debug, PartialEq, Eq)]
pub enum Form {
    Named,
    Unnamed,
    Unit,
}

/// A field, and whether it is left out.
#[derive(Clone, Copy)]
pub struct FieldRef<'x, 'a> {
    pub field: &'x Field<'a>,
    pub left_out: bool,
}

/// A variant, or a struct as the only case. It has no fields where it is left out.
#[derive(Drop)]
pub struct CaseRef<'x, 'a> {
    pub ident: &'x Ident<'a>,
    pub form: Form,
    pub left_out: bool,
    pub fields: Vec<FieldRef<'x, 'a>>,
}

pub fn is_enum(input: &DeriveInput<'_>) -> bool
    ensures { result ≡ values.is_enum (declaration_view input.now) }
{
    match &input.shape {
        Data::Struct(_) => false,
        Data::Enum(_) => true,
        Data::Union(_) => false,
    }
}

/// Whether some field isn't left out.
pub fn keeps_some(fields: &[FieldRef<'_, '_>]) -> bool
    ensures { result ≡ spec.keeps_some (map field_ref_view fields.now) }
{
    for field in fields {
        if !field.left_out {
            return true;
        }
    }
    false
}

pub fn some_left_out(fields: &[FieldRef<'_, '_>]) -> bool
    ensures { result ≡ sides.some_left_out (map field_ref_view fields.now) }
{
    for field in fields {
        if field.left_out {
            return true;
        }
    }
    false
}

/// Whether a case has an arm.
pub fn is_compared(case: &CaseRef<'_, '_>) -> bool
    ensures { result ≡ spec.is_compared (case_view case.now) }
{
    !case.left_out && keeps_some(case.fields.as_slice())
}

pub fn some_compared(cases: &[CaseRef<'_, '_>]) -> bool
    ensures { result ≡ spec.some_compared (map case_view cases.now) }
{
    for case in cases {
        if is_compared(case) {
            return true;
        }
    }
    false
}

pub fn all_compared(cases: &[CaseRef<'_, '_>]) -> bool
    ensures { result ≡ spec.all_compared (map case_view cases.now) }
{
    for case in cases {
        if !is_compared(case) {
            return false;
        }
    }
    true
}

pub fn some_case_left_out(cases: &[CaseRef<'_, '_>]) -> bool
    ensures { result ≡ spec.some_case_left_out (map case_view cases.now) }
{
    for case in cases {
        if case.left_out {
            return true;
        }
    }
    false
}

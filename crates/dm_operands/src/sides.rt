//! The names by which a case's fields are bound, for each operand.
#![tactic(auto)]

ghost use Rattle.std.specs.Prelude.{◌≡◌, IfOk, IfSome, string_bytes};
ghost use Rattle.dm_operands.specs.Sides as spec;
ghost use Rattle.dm_operands.specs.Numbered.{self_name, other_name, right_name, inner_name};
ghost use Rattle.dm_operands.specs.CaseViews.{naming};

use dm_ast::Field;
use dm_generics::names::word;
use dm_stream::{Ident, Made};
use std::alloc::Global;

/// Whose fields are named.
#[derive(Clone, Copy, Debug, PartialEq, Eq)]
pub enum Operand {
    /// The left one of two values: `__self_0`.
    Mine,
    /// The right one of two that are compared: `__other_0`.
    Theirs,
    /// The right one of an operator's: `__rhs_0`.
    Right,
    /// The only one: `__0`.
    Inner,
}

/// The names of the first fields of the left operand, which need no memory.
fn first_mine(n: usize) -> Option<&'static str>
    ensures { IfSome result (λ name. name.now ≡ self_name n) }
{
    match n {
        0 => Some("__self_0"),
        1 => Some("__self_1"),
        2 => Some("__self_2"),
        3 => Some("__self_3"),
        4 => Some("__self_4"),
        5 => Some("__self_5"),
        6 => Some("__self_6"),
        7 => Some("__self_7"),
        _ => None,
    }
}

/// The names of the first fields of the right operand of a comparison.
fn first_theirs(n: usize) -> Option<&'static str>
    ensures { IfSome result (λ name. name.now ≡ other_name n) }
{
    match n {
        0 => Some("__other_0"),
        1 => Some("__other_1"),
        2 => Some("__other_2"),
        3 => Some("__other_3"),
        4 => Some("__other_4"),
        5 => Some("__other_5"),
        6 => Some("__other_6"),
        7 => Some("__other_7"),
        _ => None,
    }
}

/// The names of the first fields of the right operand of an operator.
fn first_right(n: usize) -> Option<&'static str>
    ensures { IfSome result (λ name. name.now ≡ right_name n) }
{
    match n {
        0 => Some("__rhs_0"),
        1 => Some("__rhs_1"),
        2 => Some("__rhs_2"),
        3 => Some("__rhs_3"),
        4 => Some("__rhs_4"),
        5 => Some("__rhs_5"),
        6 => Some("__rhs_6"),
        7 => Some("__rhs_7"),
        _ => None,
    }
}

/// The names of the first fields of the only operand.
fn first_inner(n: usize) -> Option<&'static str>
    ensures { IfSome result (λ name. name.now ≡ inner_name n) }
{
    match n {
        0 => Some("__0"),
        1 => Some("__1"),
        2 => Some("__2"),
        3 => Some("__3"),
        4 => Some("__4"),
        5 => Some("__5"),
        6 => Some("__6"),
        7 => Some("__7"),
        _ => None,
    }
}

pub fn first_name(operand: Operand, n: usize) -> Option<&'static str>
    ensures { IfSome result (λ name. name.now ≡ naming operand n) }
{
    match operand {
        Operand::Mine => first_mine(n),
        Operand::Theirs => first_theirs(n),
        Operand::Right => first_right(n),
        Operand::Inner => first_inner(n),
    }
}

pub fn formatted(alloc: Global, operand: Operand, n: usize) -> Made<String>
    ensures { IfOk result (λ name. string_bytes name ≡ naming operand n) }
{
    match operand {
        Operand::Mine => format!(in alloc; "__self_{n}"),
        Operand::Theirs => format!(in alloc; "__other_{n}"),
        Operand::Right => format!(in alloc; "__rhs_{n}"),
        Operand::Inner => format!(in alloc; "__{n}"),
    }
}

/// The name of a field in braces.
pub fn field_ident<'a>(alloc: Global, field: &Field<'a>) -> Made<Ident<'a>>
    ensures { IfOk result (λ i. i ≡ spec.field_ident field.now.ident) }
{
    match &field.ident {
        Some(ident) => ident.clone_in(alloc),
        None => Ok(word("")),
    }
}

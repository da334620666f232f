//! The families of operators: one function each. It answers for the traits of its family, and refuses any other name with `UnknownTrait`
//! at 0..0. What is derived is told at [crate::expand::derived].

ghost use Rattle.std.specs.Prelude.{true, false};
ghost use Rattle.dm_ast.specs.Declarations.{declaration_view};
ghost use Rattle.dm_operators.specs.Operators.{structural, scalar, unary};
ghost use Rattle.dm_cmp_ops.specs.Expanded.{IsOfText};
ghost use Rattle.dm_cmp_ops.specs.Families.{IsFamilyAnswer};

use crate::expand::expand_in;
use dm_ast::DeriveInput;
use dm_expansion::Expansion;
use dm_operators::operator::Form;
use dm_stream::Read;
use std::alloc::Global;

/// `Add`, `BitAnd`, `BitOr`, `BitXor` and `Sub`: a value of the same type stands right of self.
pub fn add<'a>(alloc: Global, input: &DeriveInput<'a>, trait_name: &str) -> Read<Expansion<'a>>
    requires { IsOfText (declaration_view input.now) }
    ensures { IsFamilyAnswer structural false trait_name.now (declaration_view input.now) result }
{
    expand_in(alloc, input, trait_name, Form::Structural, false)
}

/// `AddAssign`, `BitAndAssign`, `BitOrAssign`, `BitXorAssign` and `SubAssign`: self is changed by a value of the same type.
pub fn add_assign<'a>(
    alloc: Global,
    input: &DeriveInput<'a>,
    trait_name: &str,
) -> Read<Expansion<'a>>
    requires { IsOfText (declaration_view input.now) }
    ensures { IsFamilyAnswer structural true trait_name.now (declaration_view input.now) result }
{
    expand_in(alloc, input, trait_name, Form::Structural, true)
}

/// `Div`, `Mul`, `Rem`, `Shl` and `Shr`: any value stands right of self, or one of the same type where the type says `forward`.
pub fn mul<'a>(alloc: Global, input: &DeriveInput<'a>, trait_name: &str) -> Read<Expansion<'a>>
    requires { IsOfText (declaration_view input.now) }
    ensures { IsFamilyAnswer scalar false trait_name.now (declaration_view input.now) result }
{
    expand_in(alloc, input, trait_name, Form::Scalar, false)
}

/// `DivAssign`, `MulAssign`, `RemAssign`, `ShlAssign` and `ShrAssign`: self is changed by any value, or by one of the same type where the
/// type says `forward`.
pub fn mul_assign<'a>(
    alloc: Global,
    input: &DeriveInput<'a>,
    trait_name: &str,
) -> Read<Expansion<'a>>
    requires { IsOfText (declaration_view input.now) }
    ensures { IsFamilyAnswer scalar true trait_name.now (declaration_view input.now) result }
{
    expand_in(alloc, input, trait_name, Form::Scalar, true)
}

/// `Not` and `Neg`: nothing stands right of self.
pub fn not_like<'a>(alloc: Global, input: &DeriveInput<'a>, trait_name: &str) -> Read<Expansion<'a>>
    requires { IsOfText (declaration_view input.now) }
    ensures { IsFamilyAnswer unary false trait_name.now (declaration_view input.now) result }
{
    expand_in(alloc, input, trait_name, Form::Unary, false)
}

//! What the head of an implementation takes over from a declaration, as text.
#![tactic(auto, using(crate::proofs::Patterns::pattern_steps))]

ghost use Rattle.std.specs.Prelude.{◌≡◌, OnOk};
ghost use Rattle.dm_ast.specs.Implementors as spec;
ghost use Rattle.dm_output.specs.Tokens as tokens;
ghost use Rattle.dm_print_types.specs.Prelude.{declaration_view, type_trees, lay};

use crate::made::{made_params, made_type};
use dm_ast::DeriveInput;
use dm_generics::implementor_type;
use dm_generics::implementors::params;
use dm_layout::{Layout, Printed};

/// Adds the declared parameters, lifetimes first, in `<..>` where there are some.
pub fn declared_params(input: &DeriveInput<'_>, out: &mut Layout) -> Printed
    ensures { OnOk result (out.new ≡ lay out.old (tokens.params_trees (spec.params_of (declaration_view input.now)))) }
{
    made_params(params(out.allocator(), input), out)
}

/// Adds the declared type with an argument for each of its parameters.
pub fn declared_type(input: &DeriveInput<'_>, out: &mut Layout) -> Printed
    ensures { OnOk result (out.new ≡ lay out.old (type_trees (spec.implementor (declaration_view input.now)))) }
{
    made_type(implementor_type(out.allocator(), input), out)
}

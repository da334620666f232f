//! Types and bounds that nest as deep as their levels may go.
#![tactic(auto)]

ghost use Rattle.dm_ast.specs.Declarations.{listed};
ghost use Rattle.dm_read.specs.DeclarationReaders as spec;
ghost use Rattle.dm_read_paths.specs.TypeReaders as types;
ghost use Rattle.dm_read_paths.specs.Prelude.{ty_view, bound_view, Reads, read_type};
ghost use Rattle.dm_read_paths.specs.WholeReaders.{whole_type, whole_bound};

use crate::ty::ty as nested;
use dm_ast::{Bound, Ty};
use dm_input::Input;
use dm_read_paths::grammar::Grammar;
use dm_read_paths::kind::Mode;
use dm_stream::{Punctuated, Read};

/// How deep types nest: as deep as the levels of their tokens may go, and one more.
pub const DEPTH: usize = 129;

/// A type.
#[tactic(auto, unfolding(dm_read_paths::specs::WholeReaders::whole_type))]
pub fn ty<'a>(input: &mut Input<'_, 'a>) -> Read<Ty<'a>>
    ensures { Reads ty_view whole_type input.old result input.new }
{
    nested(input, DEPTH, Mode::Whole)
}

/// Bounds with `+` between, whose types nest down to a depth.
fn bounds_within<'a>(depth: usize, input: &mut Input<'_, 'a>) -> Read<Punctuated<Bound<'a>>>
    ensures { Reads (listed bound_view) (spec.read_bound_list (types.read_bound (read_type depth) (types.inner_path (read_type depth)))) input.old result input.new }
{
    Grammar { depth, ty: nested }.bound_list(input)
}

/// Bounds with `+` between.
#[tactic(auto, unfolding(dm_read_paths::specs::WholeReaders::whole_bound))]
pub fn bounds<'a>(input: &mut Input<'_, 'a>) -> Read<Punctuated<Bound<'a>>>
    ensures { Reads (listed bound_view) (spec.read_bound_list whole_bound) input.old result input.new }
{
    bounds_within(DEPTH, input)
}

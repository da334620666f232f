//! Types that nest down to a depth.
#![tactic(auto)]

ghost use Rattle.dm_read_paths.specs.Prelude.{ty_view, Reads, read_type};

use crate::rules::Types;
use dm_ast::Ty;
use dm_input::Input;
use dm_read_paths::grammar::Grammar;
use dm_read_paths::kind::Mode;
use dm_stream::Read;

/// What may stand where a type may, with at most `depth` types in one another.
pub fn ty<'a>(input: &mut Input<'_, 'a>, depth: usize, mode: Mode) -> Read<Ty<'a>>
    ensures { Reads ty_view (read_type depth mode) input.old result input.new }
{
    if depth == 0 {
        return Err(input.too_deep());
    }
    let grammar = Grammar {
        depth: depth - 1,
        ty,
    };
    Types { grammar }.level(mode, input)
}

//! Whole declarations.
#![tactic(auto)]

ghost use Rattle.dm_ast.specs.Declarations as tree;
ghost use Rattle.dm_read.specs.DeclarationReaders as spec;
ghost use Rattle.dm_read_paths.specs.WholeReaders.{parts, ReadsWhole};
ghost use Rattle.dm_input.specs.Inputs.{Reads};

use crate::forms::marked;
use crate::item::ShapeRule;
use dm_ast::DeriveInput;
use dm_input::Input;
use dm_input::join::ended;
use dm_stream::{Error, Read, TokenStream};
use std::alloc::Global;

/// A declaration at the front.
fn front<'a>(input: &mut Input<'_, 'a>) -> Read<DeriveInput<'a>>
    ensures { Reads tree.declaration_view (spec.read_front parts) input.old result input.new }
{
    let (attrs, (vis, (shape, (ident, generics)))) = marked(&ShapeRule, input)?;
    Ok(DeriveInput {
        attrs,
        vis,
        ident,
        generics,
        shape,
    })
}

/// The declaration that a stream holds, all of it.
pub fn read_declaration<'a>(
    alloc: Global,
    stream: &TokenStream<'a>,
) -> Result<DeriveInput<'a>, Error>
    ensures { ReadsWhole (spec.read_declaration parts stream.now.limit stream.now.trees) result }
{
    let mut input = Input::new(alloc, 0, stream.cursor());
    let found = front(&mut input)?;
    ended(found, input.close())
}

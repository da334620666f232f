//! From the text of a declaration to the declaration.
#![tactic(auto, using(crate::proofs::Reading::reading_steps))]

ghost use Rattle.std.specs.Prelude.{◌≡◌, IfOk};
ghost use Rattle.dm_ast.specs.Declarations.{declaration_view};
ghost use Rattle.dm_printed.specs.Derived.{Reads};
ghost use Rattle.dm_printed.specs.Texts.{IsOfText};

use dm_ast::DeriveInput;
use dm_gather::Node;
use dm_lexer::lex;
use dm_names::check_names_in;
use dm_read_decl::parse_decl;
use dm_stream::Read;
use std::alloc::Global;

/// A declaration that was read, in a box that hides how its tree is dropped.
pub type Declaration<'a> = Node<DeriveInput<'a>>;

/// The declaration of a text, whose names may be declared. The refusals are those of `lex`, `parse_decl` and `check_names_in`, in this order.
pub fn read<'a>(alloc: Global, decl: &'a str) -> Read<Declaration<'a>>
    ensures reads { Reads decl.now result }
    ensures of_text { IfOk result (λ d. IsOfText (declaration_view d)) }
{
    let stream = lex(alloc, decl)?;
    let input = Declaration::new(alloc, parse_decl(alloc, &stream)?)?;
    check_names_in(alloc, input.as_tree())?;
    Ok(input)
}

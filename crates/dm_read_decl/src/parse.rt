//! Reading a declaration.
#![tactic(auto)]

ghost use Rattle.std.specs.Prelude.{IfOk, IfErr};
ghost use Rattle.dm_ast.specs.Declarations.{declaration_view};
ghost use Rattle.dm_ast.specs.Parsed.{IsTheDeclaration, IsRefusal};

use crate::whole::read_declaration;
use dm_ast::DeriveInput;
use dm_stream::{Error, TokenStream};
use std::alloc::Global;

/// The one declaration with these tokens, by the grammar of docs/FORMATS.md, "Read": a struct, an enum or a union as in the Rust
/// Reference, without unnamed fields, trait objects without `dyn`, and the bounds `use<..>` and `~const`.
///
/// Where a token stands at a level over 128 it refuses with `Kind::TooDeep` at the first such token. The level is the number of
/// groups and `<..>` around the token, of types `&`, `*`, `fn`, `dyn` and `impl` in whose part behind that word or punct it stands,
/// and of parameter lists of paths behind whose `->` it stands.
/// Where no declaration has these tokens, it refuses with `Kind::Syntax`, at a token's range or at the place where a list ends;
/// or with `Kind::TooDeep` at such a place, if more than 128 of `( [ { < & *` and the words `fn`, `dyn`, `impl` stand before it.
pub fn parse_decl<'a>(alloc: Global, stream: &TokenStream<'a>) -> Result<DeriveInput<'a>, Error>
    ensures found { IfOk result (λ d. IsTheDeclaration (declaration_view d) stream.now.limit stream.now.trees) }
    ensures refused { IfErr result (λ e. IsRefusal e stream.now.limit stream.now.trees) }
{
    read_declaration(alloc, stream)
}

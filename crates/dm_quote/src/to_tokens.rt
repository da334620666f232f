//! What types, paths and declarations are as tokens. Each is gathered apart and added at once, so that after want of
//! memory nothing of it is there.
#![tactic(auto, using(crate::proofs::Adding::adding_steps))]

ghost use Rattle.std.specs.Prelude.{◌≡◌, OnOk, OnErr};
ghost use Rattle.dm_quote.specs.Appends.{IsPartly};
ghost use Rattle.dm_stream.specs.Layout.{nowhere};
ghost use Rattle.dm_stream.specs.Trees.{Trees, join};
ghost use Rattle.dm_ast.specs.Tree.{ty_view, path_view, bound_view};
ghost use Rattle.dm_ast.specs.TypeTokens.{type_trees, path_trees, bound_trees};
ghost use Rattle.dm_ast.specs.Declarations.{param_view, predicate_view, declaration_view};
ghost use Rattle.dm_ast.specs.DeclarationTokens.{param_trees, predicate_trees, declaration_trees};

use crate::ToTokens;
use crate::emit::{write_bound, write_path, write_type};
use crate::emit_decl::write_declaration;
use crate::emit_parts::Item;
use dm_ast::{Bound, DeriveInput, GenericParam, Opaque, Path, Ty, WherePredicate};
use dm_stream::{Made, Span, TokenStream};
use std::alloc::AllocError;

/// Adds all trees of a list, or none for want of memory.
fn add_all<'a>(out: &mut TokenStream<'a>, tokens: &TokenStream<'a>) -> Made<()>
    ensures added { OnOk result (out.new.trees ≡ join out.old.trees tokens.now.trees) }
    ensures partly { OnErr result (IsPartly out.old.trees tokens.now.trees out.new.trees) }
    ensures limit { out.new.limit ≡ out.old.limit }
{
    out.extend(tokens.piece())
}

impl<'a> ToTokens<'a> for Opaque<'a> {
    ghost trees_of = { λ x. x.tokens.trees };

    ghost stands = { λ x. Unit {0} };

    fn to_tokens(&self, out: &mut TokenStream<'a>) -> Result<(), AllocError> {
        add_all(out, &self.tokens)
    }
}

impl<'a> ToTokens<'a> for Ty<'a> {
    ghost trees_of = { λ x. type_trees (ty_view x) };

    ghost stands = { λ x. Unit {0} };

    fn to_tokens(&self, out: &mut TokenStream<'a>) -> Result<(), AllocError> {
        let mut tokens = TokenStream::new(out.allocator());
        write_type(&mut tokens, self)?;
        add_all(out, &tokens)
    }
}

impl<'a> ToTokens<'a> for Path<'a> {
    ghost trees_of = { λ x. path_trees nowhere (path_view x) };

    ghost stands = { λ x. Unit {0} };

    fn to_tokens(&self, out: &mut TokenStream<'a>) -> Result<(), AllocError> {
        let mut tokens = TokenStream::new(out.allocator());
        write_path(&mut tokens, self, Span::nowhere())?;
        add_all(out, &tokens)
    }
}

impl<'a> ToTokens<'a> for Bound<'a> {
    ghost trees_of = { λ x. bound_trees nowhere (bound_view x) };

    ghost stands = { λ x. Unit {0} };

    fn to_tokens(&self, out: &mut TokenStream<'a>) -> Result<(), AllocError> {
        let mut tokens = TokenStream::new(out.allocator());
        write_bound(&mut tokens, self, Span::nowhere())?;
        add_all(out, &tokens)
    }
}

impl<'a> ToTokens<'a> for GenericParam<'a> {
    ghost trees_of = { λ x. param_trees (param_view x) };

    ghost stands = { λ x. Unit {0} };

    fn to_tokens(&self, out: &mut TokenStream<'a>) -> Result<(), AllocError> {
        let mut tokens = TokenStream::new(out.allocator());
        self.write(&mut tokens)?;
        add_all(out, &tokens)
    }
}

impl<'a> ToTokens<'a> for WherePredicate<'a> {
    ghost trees_of = { λ x. predicate_trees (predicate_view x) };

    ghost stands = { λ x. Unit {0} };

    fn to_tokens(&self, out: &mut TokenStream<'a>) -> Result<(), AllocError> {
        let mut tokens = TokenStream::new(out.allocator());
        self.write(&mut tokens)?;
        add_all(out, &tokens)
    }
}

impl<'a> ToTokens<'a> for DeriveInput<'a> {
    ghost trees_of = { λ x. declaration_trees (declaration_view x) };

    ghost stands = { λ x. Unit {0} };

    fn to_tokens(&self, out: &mut TokenStream<'a>) -> Result<(), AllocError> {
        let mut tokens = TokenStream::new(out.allocator());
        write_declaration(&mut tokens, self)?;
        add_all(out, &tokens)
    }
}

//! The tokens of a head, as it is printed.
#![tactic(auto, using(crate::proofs::TokenSteps::token_steps))]

ghost use Rattle.std.specs.Prelude.{◌≡◌, OnOk, true, map, option_map};
ghost use Rattle.dm_stream.specs.Trees.{join};
ghost use Rattle.dm_ast.specs.Tree.{path_view};
ghost use Rattle.dm_ast.specs.Declarations.{param_view, predicate_view};
ghost use Rattle.dm_ast.specs.TypeTokens as syntax;
ghost use Rattle.dm_output.specs.Tokens as spell;
ghost use Rattle.dm_reread.specs.Items.{between_trees};
ghost use Rattle.dm_read_heads.specs.Heads.{head_view};

use crate::head::Head;
use dm_ast::{GenericParam, Path, WherePredicate};
use dm_quote::ToTokens;
use dm_quote::emit_parts::{Separator, punct, word, write_separated};
use dm_stream::{Made, Span, TokenStream};
use std::alloc::AllocError;

/// Adds parameters with commas between them.
fn joined_params<'a>(out: &mut TokenStream<'a>, all: &[GenericParam<'a>]) -> Made<()>
    ensures added { OnOk result (out.new.trees ≡ join out.old.trees (syntax.spaced spell.comma true (map spell.param_trees (map param_view all.now)))) }
    ensures limit { out.new.limit ≡ out.old.limit }
{
    write_separated(out, all, Separator::Comma, Span::nowhere())
}

/// Adds `<..>`, or nothing where there are no parameters.
fn write_params<'a>(out: &mut TokenStream<'a>, params: &[GenericParam<'a>]) -> Made<()>
    ensures added { OnOk result (out.new.trees ≡ join out.old.trees (spell.params_trees (map param_view params.now))) }
    ensures limit { out.new.limit ≡ out.old.limit }
{
    if params.is_empty() {
        return Ok(());
    }
    punct(out, '<', Span::nowhere())?;
    joined_params(out, params)?;
    punct(out, '>', Span::nowhere())
}

/// Adds a trait's path and `for`, or nothing.
fn write_trait<'a>(out: &mut TokenStream<'a>, path: &Option<Path<'a>>) -> Made<()>
    ensures added { OnOk result (out.new.trees ≡ join out.old.trees (spell.trait_trees (option_map path_view path.now))) }
    ensures limit { out.new.limit ≡ out.old.limit }
{
    match path {
        None => Ok(()),
        Some(path) => {
            path.to_tokens(out)?;
            word(out, "for", Span::nowhere())
        }
    }
}

/// Adds predicates with commas between them.
fn joined_predicates<'a>(out: &mut TokenStream<'a>, all: &[WherePredicate<'a>]) -> Made<()>
    ensures added { OnOk result (out.new.trees ≡ join out.old.trees (syntax.spaced spell.comma true (map spell.predicate_trees (map predicate_view all.now)))) }
    ensures limit { out.new.limit ≡ out.old.limit }
{
    write_separated(out, all, Separator::Comma, Span::nowhere())
}

/// Adds `where` and the predicates, or nothing where there are none.
fn write_where<'a>(out: &mut TokenStream<'a>, predicates: &[WherePredicate<'a>]) -> Made<()>
    ensures added { OnOk result (out.new.trees ≡ join out.old.trees (spell.where_trees (map predicate_view predicates.now))) }
    ensures limit { out.new.limit ≡ out.old.limit }
{
    if predicates.is_empty() {
        return Ok(());
    }
    word(out, "where", Span::nowhere())?;
    joined_predicates(out, predicates)
}

/// Adds a head.
fn write_head<'a>(out: &mut TokenStream<'a>, head: &Head<'a>) -> Made<()>
    ensures added { OnOk result (out.new.trees ≡ join out.old.trees (between_trees (head_view head.now))) }
    ensures limit { out.new.limit ≡ out.old.limit }
{
    write_params(out, head.params.as_slice())?;
    write_trait(out, &head.trait_path)?;
    head.ty.to_tokens(out)?;
    write_where(out, head.predicates.as_slice())
}

impl<'a> ToTokens<'a> for Head<'a> {
    ghost trees_of = { λ h. between_trees (head_view h) };

    ghost stands = { λ h. Unit {0} };

    fn to_tokens(&self, out: &mut TokenStream<'a>) -> Result<(), AllocError> {
        let mut tokens = TokenStream::new(out.allocator());
        write_head(&mut tokens, self)?;
        out.extend(tokens.piece())
    }
}

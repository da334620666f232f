//! What a value is as tokens.
#![tactic(auto, using(crate::proofs::Appending::append_steps))]

ghost use Rattle.std.specs.Prelude.{◌≡◌, OnOk, OnErr, [], ◌∷◌};
ghost use Rattle.dm_stream.specs.declared.tokens.Token.TheVariants as t;
ghost use Rattle.dm_stream.specs.Trees.{Trees, join, no_trees, token};
ghost use Rattle.dm_quote.specs.Appends.{IsPartly};
ghost use Rattle.dm_stream.specs.Cursors.{sound_piece, trees_in};

use dm_stream::{Ident, Lifetime, Literal, Made, Piece, Punct, Token, TokenStream};
use std::alloc::AllocError;

/// A value that stands for tokens.
pub trait ToTokens<'a> {
    /// The trees that the value stands for.
    ghost trees_of: { Self → Trees };

    /// When it stands for them.
    ghost stands: { Self → Type 0 };

    /// Adds the value's trees at the end of `out`. After want of memory a front of them may be there.
    fn to_tokens(&self, out: &mut TokenStream<'a>) -> Result<(), AllocError>
        requires { stands self.now }
        ensures added { OnOk result (out.new.trees ≡ join out.old.trees (trees_of self.now)) }
        ensures partly { OnErr result (IsPartly out.old.trees (trees_of self.now) out.new.trees) }
        ensures limit { out.new.limit ≡ out.old.limit };
}

fn push_token<'a>(out: &mut TokenStream<'a>, item: Token<'a>) -> Made<()>
    ensures added { OnOk result (out.new.trees ≡ join out.old.trees (token item.entry no_trees)) }
    ensures partly { OnErr result (IsPartly out.old.trees (token item.entry no_trees) out.new.trees) }
    ensures limit { out.new.limit ≡ out.old.limit }
{
    out.add(item)
}

impl<'a> ToTokens<'a> for Token<'a> {
    ghost trees_of = { λ x. token x no_trees };

    ghost stands = { λ x. Unit {0} };

    fn to_tokens(&self, out: &mut TokenStream<'a>) -> Result<(), AllocError> {
        let copy = self.clone_in(out.allocator())?;
        push_token(out, copy)
    }
}

impl<'a> ToTokens<'a> for Ident<'a> {
    ghost trees_of = { λ x. token (t.Ident x) no_trees };

    ghost stands = { λ x. Unit {0} };

    fn to_tokens(&self, out: &mut TokenStream<'a>) -> Result<(), AllocError> {
        let copy = self.clone_in(out.allocator())?;
        push_token(out, Token::Ident(copy))
    }
}

impl<'a> ToTokens<'a> for Lifetime<'a> {
    ghost trees_of = { λ x. token (t.Lifetime x) no_trees };

    ghost stands = { λ x. Unit {0} };

    fn to_tokens(&self, out: &mut TokenStream<'a>) -> Result<(), AllocError> {
        let copy = self.clone_in(out.allocator())?;
        push_token(out, Token::Lifetime(copy))
    }
}

impl<'a> ToTokens<'a> for Punct {
    ghost trees_of = { λ x. token (t.Punct x) no_trees };

    ghost stands = { λ x. Unit {0} };

    fn to_tokens(&self, out: &mut TokenStream<'a>) -> Result<(), AllocError> {
        push_token(out, Token::Punct(*self))
    }
}

impl<'a> ToTokens<'a> for Literal<'a> {
    ghost trees_of = { λ x. token (t.Literal x) no_trees };

    ghost stands = { λ x. Unit {0} };

    fn to_tokens(&self, out: &mut TokenStream<'a>) -> Result<(), AllocError> {
        let copy = self.clone_in(out.allocator())?;
        push_token(out, Token::Literal(copy))
    }
}

impl<'a> ToTokens<'a> for TokenStream<'a> {
    ghost trees_of = { λ x. x.trees };

    ghost stands = { λ x. Unit {0} };

    fn to_tokens(&self, out: &mut TokenStream<'a>) -> Result<(), AllocError> {
        out.extend(self.piece())
    }
}

impl<'t, 'a> ToTokens<'a> for Piece<'t, 'a> {
    ghost trees_of = { λ x. trees_in x };

    ghost stands = { λ x. sound_piece x };

    fn to_tokens(&self, out: &mut TokenStream<'a>) -> Result<(), AllocError> {
        out.extend(*self)
    }
}

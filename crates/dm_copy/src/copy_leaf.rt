//! Copies of names, tokens and texts.

ghost use Rattle.std.specs.Prelude.{◌≡◌, IfOk, refl};

use crate::clone_in::CloneIn;
use crate::self_type::SelfType;
use dm_stream::{Ident, Lifetime, Literal, Text, Token, TokenStream};
use std::alloc::{AllocError, Global};

impl<'a> CloneIn for Ident<'a> {
    ghost use Rattle.dm_stream.specs.declared.tokens.Ident.{Ident};

    ghost Shape = { Ident };

    ghost shape = { λ it. it };

    ghost replaced = { λ own it. it };

    ghost same = { λ it. refl };

    fn replace_self(&self, _own: Option<&SelfType>, alloc: Global) -> Result<Self, AllocError> {
        Ident::clone_in(self, alloc)
    }
}

impl<'a> CloneIn for Lifetime<'a> {
    ghost use Rattle.dm_stream.specs.declared.tokens.Lifetime.{Lifetime};

    ghost Shape = { Lifetime };

    ghost shape = { λ it. it };

    ghost replaced = { λ own it. it };

    ghost same = { λ it. refl };

    fn replace_self(&self, _own: Option<&SelfType>, alloc: Global) -> Result<Self, AllocError> {
        Lifetime::clone_in(self, alloc)
    }
}

impl<'a> CloneIn for Literal<'a> {
    ghost use Rattle.dm_stream.specs.declared.tokens.Literal.{Literal};

    ghost Shape = { Literal };

    ghost shape = { λ it. it };

    ghost replaced = { λ own it. it };

    ghost same = { λ it. refl };

    fn replace_self(&self, _own: Option<&SelfType>, alloc: Global) -> Result<Self, AllocError> {
        Literal::clone_in(self, alloc)
    }
}

impl<'a> CloneIn for Token<'a> {
    ghost use Rattle.dm_stream.specs.declared.tokens.Token.{Token};

    ghost Shape = { Token };

    ghost shape = { λ it. it };

    ghost replaced = { λ own it. it };

    ghost same = { λ it. refl };

    fn replace_self(&self, _own: Option<&SelfType>, alloc: Global) -> Result<Self, AllocError> {
        Token::clone_in(self, alloc)
    }
}

impl<'a> CloneIn for Text<'a> {
    ghost use Rattle.std.specs.Prelude.{List, ℕ};

    ghost Shape = { List ℕ };

    ghost shape = { λ it. it };

    ghost replaced = { λ own it. it };

    ghost same = { λ it. refl };

    fn replace_self(&self, _own: Option<&SelfType>, alloc: Global) -> Result<Self, AllocError> {
        Text::clone_in(self, alloc)
    }
}

impl<'a> CloneIn for TokenStream<'a> {
    ghost use Rattle.dm_stream.specs.Trees.{Stream};

    ghost Shape = { Stream };

    ghost shape = { λ it. it };

    ghost replaced = { λ own it. it };

    ghost same = { λ it. refl };

    fn replace_self(&self, _own: Option<&SelfType>, alloc: Global) -> Result<Self, AllocError> {
        TokenStream::clone_in(self, alloc)
    }
}

//! Copies of the parts that hold no types.
#![tactic(auto, using(crate::proofs::Copies::plain_steps))]

ghost use Rattle.std.specs.Prelude.{◌≡◌, IfOk, refl};

use crate::clone_in::CloneIn;
use crate::joined::both;
use crate::self_type::SelfType;
use dm_ast::{AttrArgs, Attribute, ConstArg, Opaque, PlainPath, Vis};
use std::alloc::{AllocError, Global};

impl<'a> CloneIn for Opaque<'a> {
    ghost use Rattle.dm_ast.specs.declared.plain.Opaque.{Opaque};

    ghost Shape = { Opaque };

    ghost shape = { λ it. it };

    ghost replaced = { λ own it. it };

    ghost same = { λ it. refl };

    fn replace_self(&self, _own: Option<&SelfType>, alloc: Global) -> Result<Self, AllocError> {
        Ok(Opaque {
            tokens: self.tokens.clone_in(alloc)?,
        })
    }
}

impl<'a> CloneIn for PlainPath<'a> {
    ghost use Rattle.dm_ast.specs.declared.plain.PlainPath.{PlainPath};

    ghost Shape = { PlainPath };

    ghost shape = { λ it. it };

    ghost replaced = { λ own it. it };

    ghost same = { λ it. refl };

    fn replace_self(&self, _own: Option<&SelfType>, alloc: Global) -> Result<Self, AllocError> {
        Ok(PlainPath {
            leading_colon: self.leading_colon,
            segments: self.segments.clone_in(alloc)?,
        })
    }
}

impl<'a> CloneIn for Vis<'a> {
    ghost use Rattle.dm_ast.specs.declared.plain.Vis.{Vis};

    ghost Shape = { Vis };

    ghost shape = { λ it. it };

    ghost replaced = { λ own it. it };

    ghost same = { λ it. refl };

    fn replace_self(&self, _own: Option<&SelfType>, alloc: Global) -> Result<Self, AllocError> {
        match self {
            Vis::Public => Ok(Vis::Public),
            Vis::Crate => Ok(Vis::Crate),
            Vis::SelfOnly => Ok(Vis::SelfOnly),
            Vis::Super => Ok(Vis::Super),
            Vis::In(path) => Ok(Vis::In(path.clone_in(alloc)?)),
        }
    }
}

impl<'a> CloneIn for AttrArgs<'a> {
    ghost use Rattle.dm_ast.specs.declared.plain.AttrArgs.{AttrArgs};

    ghost Shape = { AttrArgs };

    ghost shape = { λ it. it };

    ghost replaced = { λ own it. it };

    ghost same = { λ it. refl };

    fn replace_self(&self, _own: Option<&SelfType>, alloc: Global) -> Result<Self, AllocError> {
        match self {
            AttrArgs::Absent => Ok(AttrArgs::Absent),
            AttrArgs::List(delim, tokens) => Ok(AttrArgs::List(*delim, tokens.clone_in(alloc)?)),
            AttrArgs::Value(value) => Ok(AttrArgs::Value(value.clone_in(alloc)?)),
        }
    }
}

impl<'a> CloneIn for Attribute<'a> {
    ghost use Rattle.dm_ast.specs.declared.plain.Attribute.{Attribute};

    ghost Shape = { Attribute };

    ghost shape = { λ it. it };

    ghost replaced = { λ own it. it };

    ghost same = { λ it. refl };

    fn replace_self(&self, _own: Option<&SelfType>, alloc: Global) -> Result<Self, AllocError> {
        let (path, args) = both(self.path.clone_in(alloc), self.args.clone_in(alloc))?;
        Ok(Attribute {
            path,
            args,
            span: self.span,
        })
    }
}

impl<'a> CloneIn for ConstArg<'a> {
    ghost use Rattle.dm_ast.specs.declared.plain.ConstArg.{ConstArg};

    ghost Shape = { ConstArg };

    ghost shape = { λ it. it };

    ghost replaced = { λ own it. it };

    ghost same = { λ it. refl };

    fn replace_self(&self, _own: Option<&SelfType>, alloc: Global) -> Result<Self, AllocError> {
        match self {
            ConstArg::Literal(minus, literal) => {
                Ok(ConstArg::Literal(*minus, literal.clone_in(alloc)?))
            }
            ConstArg::Bool(word) => Ok(ConstArg::Bool(word.clone_in(alloc)?)),
            ConstArg::Block(tokens) => Ok(ConstArg::Block(tokens.clone_in(alloc)?)),
            ConstArg::Name(name) => Ok(ConstArg::Name(name.clone_in(alloc)?)),
        }
    }
}

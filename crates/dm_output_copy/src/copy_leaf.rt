//! Copies of paths, members and formats, which hold no expressions that are read.
#![tactic(auto, using(dm_copy::proofs::Copies::plain_steps))]

ghost use Rattle.std.specs.Prelude.{◌≡◌, IfOk};
ghost use Rattle.dm_ast.specs.Tree.{path_view, maybe_self_view};
ghost use Rattle.dm_output.specs.Views.{fmt_arg_view, fmt_view};

use crate::clone_emitted::CloneEmitted;
use dm_ast::QSelf;
use dm_copy::{CloneIn, both};
use dm_output::{FmtArg, FmtArgs, Member, PathExpr};
use dm_stream::Made;
use std::alloc::Global;

impl<'a> CloneEmitted for PathExpr<'a> {
    ghost use Rattle.dm_ast.specs.Tree.{MaybeSelf, PathTree};

    ghost Shape = { MaybeSelf × PathTree };

    ghost shape = { λ p. (maybe_self_view p.qself, path_view p.path) };

    fn clone_in(&self, alloc: Global) -> Made<Self> {
        let (qself, path) = both(copy_self(&self.qself, alloc), self.path.clone_in(alloc))?;
        Ok(PathExpr { qself, path })
    }
}

fn copy_self<'a>(qself: &Option<Box<QSelf<'a>>>, alloc: Global) -> Made<Option<Box<QSelf<'a>>>>
    ensures { IfOk result (λ r. maybe_self_view r ≡ maybe_self_view qself.now) }
{
    match qself {
        None => Ok(None),
        Some(qself) => Ok(Some(qself.clone_in(alloc)?)),
    }
}

impl<'a> CloneEmitted for Member<'a> {
    ghost use Rattle.dm_output.specs.declared.expr.Member.{Member};

    ghost Shape = { Member };

    ghost shape = { λ it. it };

    fn clone_in(&self, alloc: Global) -> Made<Self> {
        match self {
            Member::Named(name) => Ok(Member::Named(name.clone_in(alloc)?)),
            Member::Index(number) => Ok(Member::Index(number.clone_in(alloc)?)),
        }
    }
}

impl<'a> CloneEmitted for FmtArgs<'a> {
    ghost use Rattle.dm_output.specs.Output.{FmtTree};

    ghost Shape = { FmtTree };

    ghost shape = { fmt_view };

    fn clone_in(&self, alloc: Global) -> Made<Self> {
        let (lit, args) = both(self.lit.clone_in(alloc), self.args.clone_in(alloc))?;
        Ok(FmtArgs { lit, args })
    }
}

impl<'a> CloneEmitted for FmtArg<'a> {
    ghost use Rattle.dm_output.specs.Output.{FmtArgTree};

    ghost Shape = { FmtArgTree };

    ghost shape = { fmt_arg_view };

    fn clone_in(&self, alloc: Global) -> Made<Self> {
        let (alias, value) = both(self.alias.clone_in(alloc), self.value.clone_in(alloc))?;
        Ok(FmtArg { alias, value })
    }
}

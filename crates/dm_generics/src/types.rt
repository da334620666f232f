//! Types of names.
#![tactic(auto, using(crate::proofs::Builders::builder_steps))]

ghost use Rattle.std.specs.Prelude.{◌≡◌, IfOk};
ghost use Rattle.dm_ast.specs.Tree.{ty_view, path_view, type_tree, path as tree_path, no_self};
ghost use Rattle.dm_stream.specs.Layout.{nowhere};
ghost use Rattle.dm_ast.specs.Implementors as implementors;
ghost use Rattle.dm_generics.specs.Words as spec;

use crate::names::{path_of_one, word};
use dm_ast::{Path, Ty, TyNode};
use dm_stream::{Ident, Span};
use std::alloc::{AllocError, Global};

#[tactic(auto, using(crate::proofs::Builders::type_steps))]
pub fn plain_type(path: Path<'_>) -> Ty<'_>
    ensures { ty_view result ≡ type_tree (tree_path no_self (path_view path.entry)) nowhere }
{
    Ty {
        node: TyNode::Path(None, path),
        span: Span::nowhere(),
    }
}

pub fn name_type(alloc: Global, ident: Ident<'_>) -> Result<Ty<'_>, AllocError>
    ensures { IfOk result (λ t. ty_view t ≡ implementors.name_type ident.entry) }
{
    let path = path_of_one(alloc, ident)?;
    Ok(plain_type(path))
}

/// The type of that name.
pub fn word_type<'a>(alloc: Global, name: &'a str) -> Result<Ty<'a>, AllocError>
    ensures { IfOk result (λ t. ty_view t ≡ implementors.name_type (spec.word name.now)) }
{
    name_type(alloc, word(name))
}

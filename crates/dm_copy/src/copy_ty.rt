//! Copies of types and of their parts.
#![tactic(auto, using(crate::proofs::Copies::copy_steps))]

ghost use Rattle.dm_ast.specs.Tree as tree;
ghost use Rattle.dm_copy.specs.Replaced as spec;
ghost use Rattle.dm_copy.specs.Unreplaced.{
  argument_same,
  bound_same,
  function_same,
  input_same,
  node_same,
  path_same,
  qself_same,
  segment_arguments_same,
  segment_same,
  trait_same,
  type_same,
};

use crate::clone_in::CloneIn;
use crate::joined::both;
use crate::nodes::{qself_of, trait_of};
use crate::self_type::SelfType;
use crate::types::{
    replaced_argument, replaced_bound, replaced_fn, replaced_input, replaced_node, replaced_path,
    replaced_segment, replaced_segment_arguments, replaced_ty,
};
use dm_ast::{
    BareFn, Bound, FnArg, GenericArgument, Path, PathArguments, PathSegment, QSelf, TraitBound, Ty,
    TyNode,
};
use std::alloc::{AllocError, Global};

impl<'a> CloneIn for Ty<'a> {
    ghost use Rattle.dm_ast.specs.Tree.{TypeTree};

    ghost Shape = { TypeTree };

    ghost shape = { tree.ty_view };

    ghost replaced = { spec.replaced_type };

    ghost same = { type_same };

    fn replace_self(&self, own: Option<&SelfType>, alloc: Global) -> Result<Self, AllocError> {
        replaced_ty(self, own, alloc)
    }
}

impl<'a> CloneIn for TyNode<'a> {
    ghost use Rattle.dm_ast.specs.Tree.{TypeNode};

    ghost Shape = { TypeNode };

    ghost shape = { tree.node_view };

    ghost replaced = { spec.replaced_node };

    ghost same = { node_same };

    fn replace_self(&self, own: Option<&SelfType>, alloc: Global) -> Result<Self, AllocError> {
        replaced_node(self, own, alloc)
    }
}

impl<'a> CloneIn for Bound<'a> {
    ghost use Rattle.dm_ast.specs.Tree.{BoundTree};

    ghost Shape = { BoundTree };

    ghost shape = { tree.bound_view };

    ghost replaced = { spec.replaced_bound };

    ghost same = { bound_same };

    fn replace_self(&self, own: Option<&SelfType>, alloc: Global) -> Result<Self, AllocError> {
        replaced_bound(self, own, alloc)
    }
}

impl<'a> CloneIn for BareFn<'a> {
    ghost use Rattle.dm_ast.specs.Tree.{FnTree};

    ghost Shape = { FnTree };

    ghost shape = { tree.fn_view };

    ghost replaced = { spec.replaced_function };

    ghost same = { function_same };

    fn replace_self(&self, own: Option<&SelfType>, alloc: Global) -> Result<Self, AllocError> {
        replaced_fn(self, own, alloc)
    }
}

impl<'a> CloneIn for FnArg<'a> {
    ghost use Rattle.dm_ast.specs.Tree.{InputTree};

    ghost Shape = { InputTree };

    ghost shape = { tree.input_view };

    ghost replaced = { spec.replaced_input };

    ghost same = { input_same };

    fn replace_self(&self, own: Option<&SelfType>, alloc: Global) -> Result<Self, AllocError> {
        replaced_input(self, own, alloc)
    }
}

impl<'a> CloneIn for Path<'a> {
    ghost use Rattle.dm_ast.specs.Tree.{PathTree};

    ghost Shape = { PathTree };

    ghost shape = { tree.path_view };

    ghost replaced = { spec.replaced_path };

    ghost same = { path_same };

    fn replace_self(&self, own: Option<&SelfType>, alloc: Global) -> Result<Self, AllocError> {
        replaced_path(self, own, alloc)
    }
}

impl<'a> CloneIn for PathSegment<'a> {
    ghost use Rattle.dm_ast.specs.Tree.{SegmentTree};

    ghost Shape = { SegmentTree };

    ghost shape = { tree.segment_view };

    ghost replaced = { spec.replaced_segment };

    ghost same = { segment_same };

    fn replace_self(&self, own: Option<&SelfType>, alloc: Global) -> Result<Self, AllocError> {
        replaced_segment(self, own, alloc)
    }
}

impl<'a> CloneIn for PathArguments<'a> {
    ghost use Rattle.dm_ast.specs.Tree.{ArgumentsTree};

    ghost Shape = { ArgumentsTree };

    ghost shape = { tree.arguments_view };

    ghost replaced = { spec.replaced_segment_arguments };

    ghost same = { segment_arguments_same };

    fn replace_self(&self, own: Option<&SelfType>, alloc: Global) -> Result<Self, AllocError> {
        replaced_segment_arguments(self, own, alloc)
    }
}

impl<'a> CloneIn for GenericArgument<'a> {
    ghost use Rattle.dm_ast.specs.Tree.{ArgumentTree};

    ghost Shape = { ArgumentTree };

    ghost shape = { tree.argument_view };

    ghost replaced = { spec.replaced_argument };

    ghost same = { argument_same };

    fn replace_self(&self, own: Option<&SelfType>, alloc: Global) -> Result<Self, AllocError> {
        replaced_argument(self, own, alloc)
    }
}

impl<'a> CloneIn for TraitBound<'a> {
    ghost use Rattle.dm_ast.specs.Tree.{TraitBoundTree};

    ghost Shape = { TraitBoundTree };

    ghost shape = { tree.trait_view };

    ghost replaced = { spec.replaced_trait };

    ghost same = { trait_same };

    fn replace_self(&self, own: Option<&SelfType>, alloc: Global) -> Result<Self, AllocError> {
        let parts = both(
            self.path.replace_self(own, alloc),
            self.lifetimes.clone_in(alloc),
        );
        trait_of(parts, self.parens, self.maybe)
    }
}

impl<'a> CloneIn for QSelf<'a> {
    ghost use Rattle.std.specs.Prelude.{ℕ};
    ghost use Rattle.dm_ast.specs.Tree.{TypeTree};

    ghost Shape = { TypeTree × ℕ };

    ghost shape = { tree.self_view };

    ghost replaced = { λ own q. (spec.replaced_type own q.0, q.1) };

    ghost same = { qself_same };

    fn replace_self(&self, own: Option<&SelfType>, alloc: Global) -> Result<Self, AllocError> {
        qself_of(self.ty.replace_self(own, alloc), self.position)
    }
}

//! Copies of expressions, statements, blocks and arms, out of their nodes.

use crate::clone_emitted::CloneEmitted;
use crate::copy_expr::{copy_arm, copy_block, copy_body, copy_expr, copy_stmt};
use crate::copy_parts::field_of;
use crate::node::tree_of;
use dm_output::{Arm, ArmBody, Block, Expr, NamedExpr, Stmt};
use dm_stream::Made;
use std::alloc::Global;

impl<'a> CloneEmitted for Expr<'a> {
    ghost use Rattle.dm_output.specs.Output.{ExprTree};
    ghost use Rattle.dm_output.specs.Views.{expr_view};

    ghost Shape = { ExprTree };

    ghost shape = { expr_view };

    fn clone_in(&self, alloc: Global) -> Made<Self> {
        tree_of(copy_expr(self, alloc))
    }
}

impl<'a> CloneEmitted for NamedExpr<'a> {
    ghost use Rattle.dm_stream.specs.declared.tokens.Ident.{Ident};
    ghost use Rattle.dm_output.specs.Output.{ExprTree};
    ghost use Rattle.dm_output.specs.Views.{named_expr_view};

    ghost Shape = { Ident × ExprTree };

    ghost shape = { named_expr_view };

    fn clone_in(&self, alloc: Global) -> Made<Self> {
        tree_of(field_of(self, alloc, copy_expr(&self.value, alloc)))
    }
}

impl<'a> CloneEmitted for Block<'a> {
    ghost use Rattle.dm_output.specs.Output.{BlockTree};
    ghost use Rattle.dm_output.specs.Views.{block_view};

    ghost Shape = { BlockTree };

    ghost shape = { block_view };

    fn clone_in(&self, alloc: Global) -> Made<Self> {
        tree_of(copy_block(self, alloc))
    }
}

impl<'a> CloneEmitted for Stmt<'a> {
    ghost use Rattle.dm_output.specs.Output.{StmtTree};
    ghost use Rattle.dm_output.specs.Views.{stmt_view};

    ghost Shape = { StmtTree };

    ghost shape = { stmt_view };

    fn clone_in(&self, alloc: Global) -> Made<Self> {
        tree_of(copy_stmt(self, alloc))
    }
}

impl<'a> CloneEmitted for Arm<'a> {
    ghost use Rattle.dm_output.specs.Output.{ArmTree};
    ghost use Rattle.dm_output.specs.Views.{arm_view};

    ghost Shape = { ArmTree };

    ghost shape = { arm_view };

    fn clone_in(&self, alloc: Global) -> Made<Self> {
        tree_of(copy_arm(self, alloc))
    }
}

impl<'a> CloneEmitted for ArmBody<'a> {
    ghost use Rattle.dm_output.specs.Output.{ArmBodyTree};
    ghost use Rattle.dm_output.specs.Views.{body_view};

    ghost Shape = { ArmBodyTree };

    ghost shape = { body_view };

    fn clone_in(&self, alloc: Global) -> Made<Self> {
        tree_of(copy_body(self, alloc))
    }
}

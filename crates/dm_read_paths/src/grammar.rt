//! The rules of paths and bounds, over a reader of the types one level deeper.
#![tactic(auto, using(dm_input::proofs::Levels::level_steps))]

ghost use Rattle.std.specs.Prelude.{◌≤◌, option_map};
ghost use Rattle.dm_ast.specs.Tree.{maybe_type};
ghost use Rattle.dm_read.specs.Stops.{list_view};
ghost use Rattle.dm_read_paths.specs.TypeReaders as types;
ghost use Rattle.dm_read_paths.specs.declared.kind.Mode.TheVariants.{Whole, Single};
ghost use Rattle.dm_read_paths.specs.Prelude.{deepest, ty_view, Reads, read_type, Nests};

use crate::kind::Mode;
use dm_ast::Ty;
use dm_input::Input;
use dm_input::join::ended;
use dm_input::list::{Rule, listed};
use dm_read::list::Stop;
use dm_stream::{Delim, Punctuated, Read};

/// The rules of paths and bounds, and the types in them.
#[derive(Clone, Copy)]
pub struct Grammar<F> {
    /// How deep the types in a type may still nest.
    pub depth: usize,
    /// Reads a type of the next level.
    pub ty: F,
}

impl<'a, F: for<'t> Fn(&mut Input<'t, 'a>, usize, Mode) -> Read<Ty<'a>>> Grammar<F> {
    /// A type of the next level.
    pub fn ty(&self, mode: Mode, input: &mut Input<'_, 'a>) -> Read<Ty<'a>>
        requires { Nests self.now.depth (F.pre self.now.ty) (F.post self.now.ty) }
        ensures { Reads ty_view (read_type self.now.depth mode) input.old result input.new }
    {
        (self.ty)(input, self.depth, mode)
    }

    /// A type whose tokens stand one level deeper.
    pub fn deep_ty(&self, mode: Mode, input: &mut Input<'_, 'a>) -> Read<Ty<'a>>
        requires level { input.old.at.level ≤ deepest }
        requires nests { Nests self.now.depth (F.pre self.now.ty) (F.post self.now.ty) }
        ensures { Reads ty_view (types.read_deep (read_type self.now.depth) mode) input.old result input.new }
    {
        input.down();
        let found = self.ty(mode, input)?;
        input.up();
        Ok(found)
    }

    /// Types with commas between.
    pub fn types(&self, input: &mut Input<'_, 'a>) -> Read<Punctuated<Ty<'a>>>
        requires { Nests self.now.depth (F.pre self.now.ty) (F.post self.now.ty) }
        ensures { Reads (λ v. types.types_pair (list_view ty_view v)) (types.read_types (read_type self.now.depth)) input.old result input.new }
    {
        listed(&TypeRule { grammar: self }, ',', Stop::End, input)
    }

    /// Types in parentheses, with commas between.
    pub fn enclosed_types(&self, input: &mut Input<'_, 'a>) -> Read<Punctuated<Ty<'a>>>
        requires { Nests self.now.depth (F.pre self.now.ty) (F.post self.now.ty) }
        ensures { Reads (λ v. types.types_pair (list_view ty_view v)) (types.read_enclosed (read_type self.now.depth)) input.old result input.new }
    {
        let mut inside = input.open(Delim::Paren)?;
        let found = self.types(&mut inside)?;
        ended(found, inside.close())
    }

    /// `->`, and a type whose tokens stand one level deeper.
    fn deep_behind_arrow(&self, input: &mut Input<'_, 'a>) -> Read<Ty<'a>>
        requires { Nests self.now.depth (F.pre self.now.ty) (F.post self.now.ty) }
        ensures { Reads ty_view (types.read_deep_behind_arrow (read_type self.now.depth)) input.old result input.new }
    {
        input.arrow()?;
        self.deep_ty(Mode::Single, input)
    }

    /// `-> T` where it comes next, with the type's tokens one level deeper.
    pub fn deep_output(&self, input: &mut Input<'_, 'a>) -> Read<Option<Ty<'a>>>
        requires { Nests self.now.depth (F.pre self.now.ty) (F.post self.now.ty) }
        ensures { Reads (λ o. maybe_type (option_map ty_view o)) (types.read_deep_output (read_type self.now.depth)) input.old result input.new }
    {
        if !input.sees_arrow() {
            return Ok(None);
        }
        Ok(Some(self.deep_behind_arrow(input)?))
    }
}

/// A type in a list.
#[derive(Drop)]
struct TypeRule<'g, F> {
    grammar: &'g Grammar<F>,
}

impl<'g, 'a, F: for<'t> Fn(&mut Input<'t, 'a>, usize, Mode) -> Read<Ty<'a>>> Rule<'a>
    for TypeRule<'g, F> {
    ghost use Rattle.dm_ast.specs.Tree.{TypeTree, ty_view};
    ghost use Rattle.dm_read_paths.specs.Nests.{Nests};
    ghost use Rattle.dm_read_paths.specs.TypeReaders.{read_type};
    ghost use Rattle.dm_read_paths.specs.declared.kind.Mode.TheVariants.{Whole};

    type Part = Ty<'a>;

    ghost Tree = { TypeTree };

    ghost view = { ty_view };

    ghost usable = { λ r. Nests r.grammar.now.depth (F.pre r.grammar.now.ty) (F.post r.grammar.now.ty) };

    ghost reader = { λ r w. read_type r.grammar.now.depth Whole w };

    fn read(&self, input: &mut Input<'_, 'a>) -> Read<Ty<'a>> {
        self.grammar.ty(Mode::Whole, input)
    }
}

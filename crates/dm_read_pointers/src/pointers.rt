//! References and pointers.
#![tactic(auto)]

ghost use Rattle.std.specs.Prelude.{◌≡◌, ◌≤◌, IfOk, true, false, codes};
ghost use Rattle.dm_ast.specs.Tree.{reference, pointer};
ghost use Rattle.dm_read_paths.specs.TypeReaders as types;
ghost use Rattle.dm_read_paths.specs.Prelude.{deepest, ty_view, node_view, Reads, read_type, Nests};

use dm_ast::{Ty, TyNode};
use dm_input::Input;
use dm_input::join::{boxed, joined};
use dm_read_paths::grammar::Grammar;
use dm_read_paths::kind::Mode;
use dm_stream::{Lifetime, Made, Read};
use std::alloc::Global;

/// A lifetime where it comes next.
fn maybe_lifetime<'a>(input: &mut Input<'_, 'a>) -> Read<Option<Lifetime<'a>>>
    ensures { Reads (λ l. l) types.read_maybe_lifetime input.old result input.new }
{
    if !input.sees_lifetime() {
        return Ok(None);
    }
    Ok(Some(input.lifetime()?))
}

/// A keyword where it comes next: whether it stands there.
pub fn keyword(spelled: &str, input: &mut Input<'_, '_>) -> Read<bool>
    ensures { Reads (λ b. b) (types.read_keyword spelled.now) input.old result input.new }
{
    if !input.sees_word(spelled) {
        return Ok(false);
    }
    input.word(spelled)?;
    Ok(true)
}

/// A reference.
#[tactic(auto, using(dm_ast::proofs::View::view_steps))]
fn reference_node<'a>(
    alloc: Global,
    name: Option<Lifetime<'a>>,
    is_mut: bool,
    found: Ty<'a>,
) -> Made<TyNode<'a>>
    ensures { IfOk result (λ n. node_view n ≡ reference name.entry is_mut (ty_view found.entry)) }
{
    let inner = boxed(alloc, found)?;
    Ok(TyNode::Reference(name, is_mut, inner))
}

/// A pointer.
#[tactic(auto, using(dm_ast::proofs::View::view_steps))]
fn pointer_node<'a>(alloc: Global, is_mut: bool, found: Ty<'a>) -> Made<TyNode<'a>>
    ensures { IfOk result (λ n. node_view n ≡ pointer is_mut (ty_view found.entry)) }
{
    let inner = boxed(alloc, found)?;
    Ok(TyNode::Pointer(is_mut, inner))
}

/// The rules of references and pointers.
#[derive(Clone, Copy)]
pub struct Pointers<'g, F> {
    /// The rules of the types in them.
    pub grammar: &'g Grammar<F>,
}

impl<'g, 'a, F: for<'t> Fn(&mut Input<'t, 'a>, usize, Mode) -> Read<Ty<'a>>> Pointers<'g, F> {
    /// A type, perhaps behind `mut`.
    fn mutable(&self, input: &mut Input<'_, 'a>) -> Read<(bool, Ty<'a>)>
        requires { Nests self.now.grammar.now.depth (F.pre self.now.grammar.now.ty) (F.post self.now.grammar.now.ty) }
        ensures { Reads (λ v. (v.0, ty_view v.1)) (types.read_mutable (read_type self.now.grammar.now.depth)) input.old result input.new }
    {
        let is_mut = keyword("mut", input)?;
        joined(is_mut, self.grammar.ty(Mode::Single, input))
    }

    /// A lifetime, `mut` and a type, the first two where they come next.
    fn referred(&self, input: &mut Input<'_, 'a>) -> Read<(Option<Lifetime<'a>>, (bool, Ty<'a>))>
        requires { Nests self.now.grammar.now.depth (F.pre self.now.grammar.now.ty) (F.post self.now.grammar.now.ty) }
        ensures { Reads (λ v. (v.0, (v.1.0, ty_view v.1.1))) (types.read_referred (read_type self.now.grammar.now.depth)) input.old result input.new }
    {
        let name = maybe_lifetime(input)?;
        joined(name, self.mutable(input))
    }

    /// What follows `&`: its tokens stand one level deeper.
    #[tactic(auto, using(dm_input::proofs::Levels::level_steps))]
    fn deep_referred(
        &self,
        input: &mut Input<'_, 'a>,
    ) -> Read<(Option<Lifetime<'a>>, (bool, Ty<'a>))>
        requires level { input.old.at.level ≤ deepest }
        requires nests { Nests self.now.grammar.now.depth (F.pre self.now.grammar.now.ty) (F.post self.now.grammar.now.ty) }
        ensures { Reads (λ v. (v.0, (v.1.0, ty_view v.1.1))) (types.read_deep_referred (read_type self.now.grammar.now.depth)) input.old result input.new }
    {
        input.down();
        let found = self.referred(input)?;
        input.up();
        Ok(found)
    }

    /// `&` and what follows it.
    fn behind_and(&self, input: &mut Input<'_, 'a>) -> Read<(Option<Lifetime<'a>>, (bool, Ty<'a>))>
        requires { Nests self.now.grammar.now.depth (F.pre self.now.grammar.now.ty) (F.post self.now.grammar.now.ty) }
        ensures { Reads (λ v. (v.0, (v.1.0, ty_view v.1.1))) (types.read_behind_and (read_type self.now.grammar.now.depth)) input.old result input.new }
    {
        input.punct('&')?;
        self.deep_referred(input)
    }

    /// A reference.
    pub fn reference(&self, input: &mut Input<'_, 'a>) -> Read<TyNode<'a>>
        requires { Nests self.now.grammar.now.depth (F.pre self.now.grammar.now.ty) (F.post self.now.grammar.now.ty) }
        ensures { Reads node_view (types.read_reference (read_type self.now.grammar.now.depth)) input.old result input.new }
    {
        let (name, (is_mut, found)) = self.behind_and(input)?;
        Ok(reference_node(input.alloc(), name, is_mut, found)?)
    }

    /// `mut` and a type.
    fn mut_pointed(&self, input: &mut Input<'_, 'a>) -> Read<Ty<'a>>
        requires { Nests self.now.grammar.now.depth (F.pre self.now.grammar.now.ty) (F.post self.now.grammar.now.ty) }
        ensures { Reads ty_view (types.pointed_at (read_type self.now.grammar.now.depth) true) input.old result input.new }
    {
        input.word("mut")?;
        self.grammar.ty(Mode::Single, input)
    }

    /// `const` and a type.
    fn const_pointed(&self, input: &mut Input<'_, 'a>) -> Read<Ty<'a>>
        requires { Nests self.now.grammar.now.depth (F.pre self.now.grammar.now.ty) (F.post self.now.grammar.now.ty) }
        ensures { Reads ty_view (types.pointed_at (read_type self.now.grammar.now.depth) false) input.old result input.new }
    {
        input.word("const")?;
        self.grammar.ty(Mode::Single, input)
    }

    /// A pointer by what follows its `*`, which is `mut` and a type.
    fn mut_pointer(&self, input: &mut Input<'_, 'a>) -> Read<TyNode<'a>>
        requires { Nests self.now.grammar.now.depth (F.pre self.now.grammar.now.ty) (F.post self.now.grammar.now.ty) }
        ensures { Reads node_view (types.pointer_at (read_type self.now.grammar.now.depth) true) input.old result input.new }
    {
        let found = self.mut_pointed(input)?;
        Ok(pointer_node(input.alloc(), true, found)?)
    }

    /// A pointer by what follows its `*`, which is `const` and a type.
    fn const_pointer(&self, input: &mut Input<'_, 'a>) -> Read<TyNode<'a>>
        requires { Nests self.now.grammar.now.depth (F.pre self.now.grammar.now.ty) (F.post self.now.grammar.now.ty) }
        ensures { Reads node_view (types.pointer_at (read_type self.now.grammar.now.depth) false) input.old result input.new }
    {
        let found = self.const_pointed(input)?;
        Ok(pointer_node(input.alloc(), false, found)?)
    }

    /// A pointer by what follows its `*`.
    fn pointed(&self, input: &mut Input<'_, 'a>) -> Read<TyNode<'a>>
        requires { Nests self.now.grammar.now.depth (F.pre self.now.grammar.now.ty) (F.post self.now.grammar.now.ty) }
        ensures { Reads node_view (types.read_pointed_at (read_type self.now.grammar.now.depth)) input.old result input.new }
    {
        if input.sees_word("mut") {
            return self.mut_pointer(input);
        }
        self.const_pointer(input)
    }

    /// A pointer by what follows its `*`: its tokens stand one level deeper.
    #[tactic(auto, using(dm_input::proofs::Levels::level_steps))]
    fn deep_pointed(&self, input: &mut Input<'_, 'a>) -> Read<TyNode<'a>>
        requires level { input.old.at.level ≤ deepest }
        requires nests { Nests self.now.grammar.now.depth (F.pre self.now.grammar.now.ty) (F.post self.now.grammar.now.ty) }
        ensures { Reads node_view (types.read_pointed (read_type self.now.grammar.now.depth)) input.old result input.new }
    {
        input.down();
        let found = self.pointed(input)?;
        input.up();
        Ok(found)
    }

    /// A pointer.
    pub fn pointer(&self, input: &mut Input<'_, 'a>) -> Read<TyNode<'a>>
        requires { Nests self.now.grammar.now.depth (F.pre self.now.grammar.now.ty) (F.post self.now.grammar.now.ty) }
        ensures { Reads node_view (types.read_pointer (read_type self.now.grammar.now.depth)) input.old result input.new }
    {
        input.punct('*')?;
        self.deep_pointed(input)
    }
}

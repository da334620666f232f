//! Function types.
#![tactic(auto)]

ghost use Rattle.std.specs.Prelude.{◌≡◌, ◌≤◌, IfOk, codes, map, option_map};
ghost use Rattle.dm_ast.specs.Tree.{input_view, input, inputs_of, maybe_type, bare_fn, fn_tree};
ghost use Rattle.dm_read.specs.Stops.{list_view};
ghost use Rattle.dm_read_types.specs.FunctionViews.{signature_view, abi_view, unsafe_view, function_view};
ghost use Rattle.dm_read_paths.specs.TypeReaders as types;
ghost use Rattle.dm_read_paths.specs.Prelude.{deepest, ty_view, node_view, Reads, read_type, Nests};

use crate::rules::Types;
use dm_ast::{Attribute, BareFn, FnArg, Ty, TyNode};
use dm_input::Input;
use dm_input::join::{boxed, ended, joined};
use dm_input::list::{Rule, listed};
use dm_read::list::Stop;
use dm_read_paths::kind::Mode;
use dm_read_pointers::pointers::keyword;
use dm_stream::{Delim, Ident, Lifetime, Literal, Made, Punctuated, Read, Seq};
use std::alloc::Global;

/// Parameters, and what follows `->`.
type Signature<'a> = (Punctuated<FnArg<'a>>, Option<Ty<'a>>);

/// What follows `extern`, and the signature behind it.
type Callable<'a> = (Option<Option<Literal<'a>>>, Signature<'a>);

/// A name of a parameter and `:`.
fn label<'a>(input: &mut Input<'_, 'a>) -> Read<Ident<'a>>
    ensures { Reads (λ i. i) types.read_label input.old result input.new }
{
    let name = input.input_name()?;
    ended(name, input.colon())
}

/// A literal where it comes next.
fn maybe_literal<'a>(input: &mut Input<'_, 'a>) -> Read<Option<Literal<'a>>>
    ensures { Reads (λ l. l) types.read_maybe_literal input.old result input.new }
{
    if !input.sees_literal() {
        return Ok(None);
    }
    Ok(Some(input.literal()?))
}

/// `extern`, perhaps with a literal.
fn some_abi<'a>(input: &mut Input<'_, 'a>) -> Read<Option<Literal<'a>>>
    ensures { Reads (λ l. l) types.read_some_abi input.old result input.new }
{
    input.word("extern")?;
    maybe_literal(input)
}

/// `extern` where it comes next.
fn maybe_abi<'a>(input: &mut Input<'_, 'a>) -> Read<Option<Option<Literal<'a>>>>
    ensures { Reads (λ l. l) types.read_maybe_abi input.old result input.new }
{
    if !input.sees_word("extern") {
        return Ok(None);
    }
    Ok(Some(some_abi(input)?))
}

/// A parameter.
#[tactic(auto, using(dm_ast::proofs::View::view_steps))]
fn input_of<'a>(attrs: Seq<Attribute<'a>>, name: Option<Ident<'a>>, ty: Ty<'a>) -> FnArg<'a>
    ensures { input_view result ≡ input attrs.entry name.entry (ty_view ty.entry) }
{
    FnArg { attrs, name, ty }
}

/// A function type.
#[tactic(auto, using(crate::proofs::Built::built_steps))]
fn function_node<'a>(
    alloc: Global,
    lifetimes: Option<Punctuated<Lifetime<'a>>>,
    is_unsafe: bool,
    abi: Option<Option<Literal<'a>>>,
    inputs: Punctuated<FnArg<'a>>,
    output: Option<Ty<'a>>,
) -> Made<TyNode<'a>>
    ensures { IfOk result (λ n. node_view n ≡ bare_fn (fn_tree lifetimes.entry is_unsafe abi.entry (inputs_of (map input_view inputs.entry.items)) inputs.entry.trailing (maybe_type (option_map ty_view output.entry)))) }
{
    let function = BareFn {
        lifetimes,
        is_unsafe,
        abi,
        inputs,
        output,
    };
    let inner = boxed(alloc, function)?;
    Ok(TyNode::BareFn(inner))
}

impl<'a, F: for<'t> Fn(&mut Input<'t, 'a>, usize, Mode) -> Read<Ty<'a>>> Types<F> {
    /// A name, `:` and a type.
    fn labelled(&self, input: &mut Input<'_, 'a>) -> Read<(Ident<'a>, Ty<'a>)>
        requires { Nests self.now.grammar.depth (F.pre self.now.grammar.ty) (F.post self.now.grammar.ty) }
        ensures { Reads (λ v. (v.0, ty_view v.1)) (types.read_labelled (read_type self.now.grammar.depth)) input.old result input.new }
    {
        let name = label(input)?;
        joined(name, self.grammar.ty(Mode::Whole, input))
    }

    /// A type, perhaps with a name.
    fn named_type(&self, input: &mut Input<'_, 'a>) -> Read<(Option<Ident<'a>>, Ty<'a>)>
        requires { Nests self.now.grammar.depth (F.pre self.now.grammar.ty) (F.post self.now.grammar.ty) }
        ensures { Reads (λ v. (v.0, ty_view v.1)) (types.read_named_type (read_type self.now.grammar.depth)) input.old result input.new }
    {
        if input.sees_named() {
            let (name, found) = self.labelled(input)?;
            return Ok((Some(name), found));
        }
        Ok((None, self.grammar.ty(Mode::Whole, input)?))
    }

    /// The parts of a parameter.
    fn input_parts(
        &self,
        input: &mut Input<'_, 'a>,
    ) -> Read<(Seq<Attribute<'a>>, (Option<Ident<'a>>, Ty<'a>))>
        requires { Nests self.now.grammar.depth (F.pre self.now.grammar.ty) (F.post self.now.grammar.ty) }
        ensures { Reads (λ v. (v.0, (v.1.0, ty_view v.1.1))) (types.read_input_parts (read_type self.now.grammar.depth)) input.old result input.new }
    {
        let attrs = input.attributes()?;
        joined(attrs, self.named_type(input))
    }

    /// A parameter.
    fn input(&self, input: &mut Input<'_, 'a>) -> Read<FnArg<'a>>
        requires { Nests self.now.grammar.depth (F.pre self.now.grammar.ty) (F.post self.now.grammar.ty) }
        ensures { Reads input_view (types.read_input (read_type self.now.grammar.depth)) input.old result input.new }
    {
        let (attrs, (name, ty)) = self.input_parts(input)?;
        Ok(input_of(attrs, name, ty))
    }

    /// Parameters with commas between.
    fn inputs(&self, input: &mut Input<'_, 'a>) -> Read<Punctuated<FnArg<'a>>>
        requires { Nests self.now.grammar.depth (F.pre self.now.grammar.ty) (F.post self.now.grammar.ty) }
        ensures { Reads (λ v. types.inputs_pair (list_view input_view v)) (types.read_inputs (read_type self.now.grammar.depth)) input.old result input.new }
    {
        listed(&InputRule { rules: self }, ',', Stop::End, input)
    }

    /// Parameters in parentheses.
    fn enclosed_inputs(&self, input: &mut Input<'_, 'a>) -> Read<Punctuated<FnArg<'a>>>
        requires { Nests self.now.grammar.depth (F.pre self.now.grammar.ty) (F.post self.now.grammar.ty) }
        ensures { Reads (λ v. types.inputs_pair (list_view input_view v)) (types.read_enclosed_inputs (read_type self.now.grammar.depth)) input.old result input.new }
    {
        let mut inside = input.open(Delim::Paren)?;
        let found = self.inputs(&mut inside)?;
        ended(found, inside.close())
    }

    /// `->` and a type.
    fn behind_arrow(&self, input: &mut Input<'_, 'a>) -> Read<Ty<'a>>
        requires { Nests self.now.grammar.depth (F.pre self.now.grammar.ty) (F.post self.now.grammar.ty) }
        ensures { Reads ty_view (types.read_behind_arrow (read_type self.now.grammar.depth)) input.old result input.new }
    {
        input.arrow()?;
        self.grammar.ty(Mode::Single, input)
    }

    /// `-> T` where it comes next.
    fn output(&self, input: &mut Input<'_, 'a>) -> Read<Option<Ty<'a>>>
        requires { Nests self.now.grammar.depth (F.pre self.now.grammar.ty) (F.post self.now.grammar.ty) }
        ensures { Reads (λ o. maybe_type (option_map ty_view o)) (types.read_output_here (read_type self.now.grammar.depth)) input.old result input.new }
    {
        if !input.sees_arrow() {
            return Ok(None);
        }
        Ok(Some(self.behind_arrow(input)?))
    }

    /// Parameters and what follows `->`.
    fn behind_fn(&self, input: &mut Input<'_, 'a>) -> Read<Signature<'a>>
        requires { Nests self.now.grammar.depth (F.pre self.now.grammar.ty) (F.post self.now.grammar.ty) }
        ensures { Reads signature_view (types.read_behind_fn (read_type self.now.grammar.depth)) input.old result input.new }
    {
        let inputs = self.enclosed_inputs(input)?;
        joined(inputs, self.output(input))
    }

    /// What follows `fn`: its tokens stand one level deeper.
    #[tactic(auto, using(dm_input::proofs::Levels::level_steps))]
    fn deep_behind_fn(&self, input: &mut Input<'_, 'a>) -> Read<Signature<'a>>
        requires level { input.old.at.level ≤ deepest }
        requires nests { Nests self.now.grammar.depth (F.pre self.now.grammar.ty) (F.post self.now.grammar.ty) }
        ensures { Reads signature_view (types.read_deep_behind_fn (read_type self.now.grammar.depth)) input.old result input.new }
    {
        input.down();
        let found = self.behind_fn(input)?;
        input.up();
        Ok(found)
    }

    /// `fn` and what follows.
    fn signature(&self, input: &mut Input<'_, 'a>) -> Read<Signature<'a>>
        requires { Nests self.now.grammar.depth (F.pre self.now.grammar.ty) (F.post self.now.grammar.ty) }
        ensures { Reads signature_view (types.read_signature (read_type self.now.grammar.depth)) input.old result input.new }
    {
        input.word("fn")?;
        self.deep_behind_fn(input)
    }

    /// What follows `unsafe`.
    fn behind_unsafe(&self, input: &mut Input<'_, 'a>) -> Read<Callable<'a>>
        requires { Nests self.now.grammar.depth (F.pre self.now.grammar.ty) (F.post self.now.grammar.ty) }
        ensures { Reads abi_view (types.read_behind_unsafe (read_type self.now.grammar.depth)) input.old result input.new }
    {
        let abi = maybe_abi(input)?;
        joined(abi, self.signature(input))
    }

    /// What follows the lifetimes of a function type.
    fn behind_for(&self, input: &mut Input<'_, 'a>) -> Read<(bool, Callable<'a>)>
        requires { Nests self.now.grammar.depth (F.pre self.now.grammar.ty) (F.post self.now.grammar.ty) }
        ensures { Reads unsafe_view (types.read_behind_for (read_type self.now.grammar.depth)) input.old result input.new }
    {
        let is_unsafe = keyword("unsafe", input)?;
        joined(is_unsafe, self.behind_unsafe(input))
    }

    /// All parts of a function type.
    fn function_parts(
        &self,
        input: &mut Input<'_, 'a>,
    ) -> Read<(Option<Punctuated<Lifetime<'a>>>, (bool, Callable<'a>))>
        requires { Nests self.now.grammar.depth (F.pre self.now.grammar.ty) (F.post self.now.grammar.ty) }
        ensures { Reads function_view (types.read_function_parts (read_type self.now.grammar.depth)) input.old result input.new }
    {
        let lifetimes = input.for_lifetimes()?;
        joined(lifetimes, self.behind_for(input))
    }

    /// A function type.
    pub fn function(&self, input: &mut Input<'_, 'a>) -> Read<TyNode<'a>>
        requires { Nests self.now.grammar.depth (F.pre self.now.grammar.ty) (F.post self.now.grammar.ty) }
        ensures { Reads node_view (types.read_function (read_type self.now.grammar.depth)) input.old result input.new }
    {
        let (lifetimes, (is_unsafe, (abi, (inputs, output)))) = self.function_parts(input)?;
        let alloc = input.alloc();
        Ok(function_node(alloc, lifetimes, is_unsafe, abi, inputs, output)?)
    }
}

/// A parameter in a list.
#[derive(Drop)]
struct InputRule<'g, F> {
    rules: &'g Types<F>,
}

impl<'g, 'a, F: for<'t> Fn(&mut Input<'t, 'a>, usize, Mode) -> Read<Ty<'a>>> Rule<'a>
    for InputRule<'g, F> {
    ghost use Rattle.dm_ast.specs.Tree.{InputTree, input_view};
    ghost use Rattle.dm_read_paths.specs.Nests.{Nests};
    ghost use Rattle.dm_read_paths.specs.TypeReaders as types;
    ghost use Rattle.dm_read_paths.specs.TypeReaders.{read_type};

    type Part = FnArg<'a>;

    ghost Tree = { InputTree };

    ghost view = { input_view };

    ghost usable = { λ r. Nests r.rules.now.grammar.depth (F.pre r.rules.now.grammar.ty) (F.post r.rules.now.grammar.ty) };

    ghost reader = { λ r w. types.read_input (read_type r.rules.now.grammar.depth) w };

    fn read(&self, input: &mut Input<'_, 'a>) -> Read<FnArg<'a>> {
        self.rules.input(input)
    }
}

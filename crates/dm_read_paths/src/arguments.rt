//! Generic arguments.
#![tactic(auto)]

ghost use Rattle.std.specs.Prelude.{◌≡◌, map, option_map};
ghost use Rattle.dm_read.specs.Stops.{list_view};
ghost use Rattle.dm_read_paths.specs.Bindings as bindings;
ghost use Rattle.dm_read_paths.specs.Bindings.{binding_view};
ghost use Rattle.dm_read_paths.specs.TypeReaders as types;
ghost use Rattle.dm_ast.specs.Tree.{segments_of, lifetime_arg, const_arg, type_arg};
ghost use Rattle.dm_read_paths.specs.Prelude.{Reads, read_type, Nests, ty_view, bound_view, path_view, segment_view, argument_view};

use crate::grammar::Grammar;
use crate::kind::Mode;
use crate::path::path_alone;
use dm_ast::{Bound, ConstArg, GenericArgument, Path, PathArguments, PathSegment, Ty};
use dm_input::Input;
use dm_input::join::{ended, joined};
use dm_input::list::{Rule, listed};
use dm_read::list::Stop;
use dm_read::words::is_name;
use dm_stream::{Delim, Ident, Lifetime, Punctuated, Read, Seq};

/// A name, and the arguments that may stand behind it.
type Binding<'a> = (Ident<'a>, Option<Punctuated<GenericArgument<'a>>>);

/// Whether a constant comes next.
fn sees_constant(input: &Input<'_, '_>) -> bool
    ensures { result ≡ types.sees_constant input.now.trees }
{
    !input.sees_macro()
        && (input.sees('-')
            || (input.sees_literal() || (input.sees_group(Delim::Brace) || input.sees_truth())))
}

/// The name and the arguments of a segment.
#[tactic(auto, using(crate::proofs::Bindings::binding_steps))]
fn segment_binding<'a>(found: PathSegment<'a>) -> Option<Binding<'a>>
    ensures { option_map binding_view result ≡ bindings.segment_binding (segment_view found.entry) }
{
    let (ident, arguments) = found.into_parts();
    match arguments {
        PathArguments::Absent => {
            if is_name(&ident) {
                Some((ident, None))
            } else {
                None
            }
        }
        PathArguments::Angle(double, all) => {
            if !double && is_name(&ident) {
                Some((ident, Some(all)))
            } else {
                None
            }
        }
        PathArguments::Paren(_, _) => None,
    }
}

/// The name and the arguments of one segment alone.
#[tactic(auto, using(crate::proofs::Bindings::binding_steps))]
fn segments_binding<'a>(segments: Seq<PathSegment<'a>>) -> Option<Binding<'a>>
    ensures { option_map binding_view result ≡ bindings.segments_binding (segments_of (map segment_view segments.entry)) }
{
    let mut all = segments;
    if all.len() != 1 {
        return None;
    }
    match all.pop() {
        Some(only) => segment_binding(only),
        None => unreachable!(),
    }
}

/// The name and the arguments that a path is.
#[tactic(auto, using(crate::proofs::Bindings::binding_steps))]
fn path_binding<'a>(found: Path<'a>) -> Option<Binding<'a>>
    ensures { option_map binding_view result ≡ bindings.path_binding (path_view found.entry) }
{
    let Path {
        leading_colon,
        segments,
    } = found;
    if leading_colon {
        return None;
    }
    segments_binding(segments)
}

/// The name and the arguments that a type is.
#[tactic(auto, using(crate::proofs::Bindings::alone_steps))]
fn binding_of<'a>(found: Ty<'a>) -> Option<Binding<'a>>
    ensures { option_map binding_view result ≡ types.binding_of (ty_view found.entry) }
{
    match path_alone(found) {
        Some(path) => path_binding(path),
        None => None,
    }
}

/// A lifetime as an argument.
#[tactic(auto, using(dm_ast::proofs::View::view_steps))]
fn lifetime_argument<'a>(found: Lifetime<'a>) -> GenericArgument<'a>
    ensures { argument_view result ≡ lifetime_arg found.entry }
{
    GenericArgument::Lifetime(found)
}

/// A type as an argument.
#[tactic(auto, using(dm_ast::proofs::View::view_steps))]
fn type_argument<'a>(found: Ty<'a>) -> GenericArgument<'a>
    ensures { argument_view result ≡ type_arg (ty_view found.entry) }
{
    GenericArgument::Ty(found)
}

/// A constant as an argument.
#[tactic(auto, using(dm_ast::proofs::View::view_steps))]
fn constant_argument<'a>(found: ConstArg<'a>) -> GenericArgument<'a>
    ensures { argument_view result ≡ const_arg found.entry }
{
    GenericArgument::Const(found)
}

/// A name, `=` and a type.
#[tactic(auto, using(dm_ast::proofs::View::view_steps))]
fn type_value<'a>(binding: Binding<'a>, found: Ty<'a>) -> GenericArgument<'a>
    ensures { argument_view result ≡ types.type_value (binding_view binding.entry) (ty_view found.entry) }
{
    let (name, arguments) = binding;
    GenericArgument::AssocTy(name, arguments, found)
}

/// A name, `=` and a constant.
#[tactic(auto, using(dm_ast::proofs::View::view_steps))]
fn constant_value<'a>(binding: Binding<'a>, found: ConstArg<'a>) -> GenericArgument<'a>
    ensures { argument_view result ≡ types.constant_value (binding_view binding.entry) found.entry }
{
    let (name, arguments) = binding;
    GenericArgument::AssocConst(name, arguments, found)
}

/// A name, `:` and bounds.
#[tactic(auto, using(dm_ast::proofs::View::view_steps))]
fn constraint_of<'a>(binding: Binding<'a>, found: Punctuated<Bound<'a>>) -> GenericArgument<'a>
    ensures { argument_view result ≡ types.constraint_of (binding_view binding.entry) (types.bounds_pair (list_view bound_view found.entry)) }
{
    let (name, arguments) = binding;
    GenericArgument::Constraint(name, arguments, found)
}

/// A constant that follows a name and `=`.
fn constant_binding<'a>(
    binding: Binding<'a>,
    input: &mut Input<'_, 'a>,
) -> Read<GenericArgument<'a>>
    ensures { Reads argument_view (types.read_constant_value (binding_view binding.entry)) input.old result input.new }
{
    let (binding, found) = joined(binding, input.constant())?;
    Ok(constant_value(binding, found))
}

impl<'a, F: for<'t> Fn(&mut Input<'t, 'a>, usize, Mode) -> Read<Ty<'a>>> Grammar<F> {
    /// A type that follows a name and `=`.
    fn type_binding(
        &self,
        binding: Binding<'a>,
        input: &mut Input<'_, 'a>,
    ) -> Read<GenericArgument<'a>>
        requires { Nests self.now.depth (F.pre self.now.ty) (F.post self.now.ty) }
        ensures { Reads argument_view (types.read_type_value (read_type self.now.depth) (binding_view binding.entry)) input.old result input.new }
    {
        let (binding, found) = joined(binding, self.ty(Mode::Whole, input))?;
        Ok(type_value(binding, found))
    }

    /// What follows a name and `=`.
    fn binding_value(
        &self,
        binding: Binding<'a>,
        input: &mut Input<'_, 'a>,
    ) -> Read<GenericArgument<'a>>
        requires { Nests self.now.depth (F.pre self.now.ty) (F.post self.now.ty) }
        ensures { Reads argument_view (types.read_binding_value (read_type self.now.depth) (binding_view binding.entry)) input.old result input.new }
    {
        if sees_constant(input) {
            return constant_binding(binding, input);
        }
        self.type_binding(binding, input)
    }

    /// `=` and a value.
    fn behind_equals(
        &self,
        binding: Binding<'a>,
        input: &mut Input<'_, 'a>,
    ) -> Read<GenericArgument<'a>>
        requires { Nests self.now.depth (F.pre self.now.ty) (F.post self.now.ty) }
        ensures { Reads argument_view (types.read_behind_equals (read_type self.now.depth) (binding_view binding.entry)) input.old result input.new }
    {
        let binding = ended(binding, input.equals())?;
        self.binding_value(binding, input)
    }

    /// `:` and bounds.
    fn behind_colon(&self, input: &mut Input<'_, 'a>) -> Read<Punctuated<Bound<'a>>>
        requires { Nests self.now.depth (F.pre self.now.ty) (F.post self.now.ty) }
        ensures { Reads (λ v. types.bounds_pair (list_view bound_view v)) (types.read_behind_colon (read_type self.now.depth)) input.old result input.new }
    {
        input.colon()?;
        self.bounds(input)
    }

    /// A name, `:` and bounds.
    fn constraint(
        &self,
        binding: Binding<'a>,
        input: &mut Input<'_, 'a>,
    ) -> Read<GenericArgument<'a>>
        requires { Nests self.now.depth (F.pre self.now.ty) (F.post self.now.ty) }
        ensures { Reads argument_view (types.read_constraint (read_type self.now.depth) (binding_view binding.entry)) input.old result input.new }
    {
        let (binding, found) = joined(binding, self.behind_colon(input))?;
        Ok(constraint_of(binding, found))
    }

    /// What follows a name.
    fn behind_name(
        &self,
        binding: Binding<'a>,
        input: &mut Input<'_, 'a>,
    ) -> Read<GenericArgument<'a>>
        requires { Nests self.now.depth (F.pre self.now.ty) (F.post self.now.ty) }
        ensures { Reads argument_view (types.read_behind_name (read_type self.now.depth) (binding_view binding.entry)) input.old result input.new }
    {
        if input.sees_equals() {
            return self.behind_equals(binding, input);
        }
        self.constraint(binding, input)
    }

    /// What follows a type that may be a name.
    fn behind_binding(
        &self,
        binding: Option<Binding<'a>>,
        input: &mut Input<'_, 'a>,
    ) -> Read<GenericArgument<'a>>
        requires { Nests self.now.depth (F.pre self.now.ty) (F.post self.now.ty) }
        ensures { Reads argument_view (λ w. types.behind_name (read_type self.now.depth) w (option_map binding_view binding.entry)) input.old result input.new }
    {
        match binding {
            Some(binding) => self.behind_name(binding, input),
            None => Err(input.refused()),
        }
    }

    /// What follows a type.
    fn behind_type(&self, found: Ty<'a>, input: &mut Input<'_, 'a>) -> Read<GenericArgument<'a>>
        requires { Nests self.now.depth (F.pre self.now.ty) (F.post self.now.ty) }
        ensures { Reads argument_view (λ w. types.behind_type (read_type self.now.depth) w (ty_view found.entry)) input.old result input.new }
    {
        if input.sees_equals() || input.sees_colon() {
            return self.behind_binding(binding_of(found), input);
        }
        Ok(type_argument(found))
    }

    /// A type, and what follows it.
    fn typed_argument(&self, input: &mut Input<'_, 'a>) -> Read<GenericArgument<'a>>
        requires { Nests self.now.depth (F.pre self.now.ty) (F.post self.now.ty) }
        ensures { Reads argument_view (types.read_typed_argument (read_type self.now.depth)) input.old result input.new }
    {
        let found = self.ty(Mode::Whole, input)?;
        self.behind_type(found, input)
    }

    /// An argument.
    fn argument(&self, input: &mut Input<'_, 'a>) -> Read<GenericArgument<'a>>
        requires { Nests self.now.depth (F.pre self.now.ty) (F.post self.now.ty) }
        ensures { Reads argument_view (types.read_argument (read_type self.now.depth)) input.old result input.new }
    {
        if input.sees_lifetime() {
            return Ok(lifetime_argument(input.lifetime()?));
        }
        if sees_constant(input) {
            return Ok(constant_argument(input.constant()?));
        }
        self.typed_argument(input)
    }

    /// Arguments with commas between.
    pub fn arguments(&self, input: &mut Input<'_, 'a>) -> Read<Punctuated<GenericArgument<'a>>>
        requires { Nests self.now.depth (F.pre self.now.ty) (F.post self.now.ty) }
        ensures { Reads (λ v. types.arguments_pair (list_view argument_view v)) (types.read_arguments (read_type self.now.depth)) input.old result input.new }
    {
        listed(&ArgumentRule { grammar: self }, ',', Stop::Angle, input)
    }
}

/// An argument in a list.
#[derive(Drop)]
struct ArgumentRule<'g, F> {
    grammar: &'g Grammar<F>,
}

impl<'g, 'a, F: for<'t> Fn(&mut Input<'t, 'a>, usize, Mode) -> Read<Ty<'a>>> Rule<'a>
    for ArgumentRule<'g, F> {
    ghost use Rattle.dm_ast.specs.Tree.{ArgumentTree, argument_view};
    ghost use Rattle.dm_read_paths.specs.Nests.{Nests};
    ghost use Rattle.dm_read_paths.specs.TypeReaders as types;
    ghost use Rattle.dm_read_paths.specs.TypeReaders.{read_type};

    type Part = GenericArgument<'a>;

    ghost Tree = { ArgumentTree };

    ghost view = { argument_view };

    ghost usable = { λ r. Nests r.grammar.now.depth (F.pre r.grammar.now.ty) (F.post r.grammar.now.ty) };

    ghost reader = { λ r w. types.read_argument (read_type r.grammar.now.depth) w };

    fn read(&self, input: &mut Input<'_, 'a>) -> Read<GenericArgument<'a>> {
        self.grammar.argument(input)
    }
}

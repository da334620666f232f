//! Types: which rule reads one, and its range.
#![tactic(auto)]

ghost use Rattle.std.specs.Prelude.{◌≡◌};
ghost use Rattle.dm_stream.specs.Cursors.{left, sound};
ghost use Rattle.dm_read_paths.specs.TypeReaders as types;
ghost use Rattle.dm_read_paths.specs.Prelude.{ty_view, node_view, Reads, read_type, Nests};

use crate::rules::Types;
use crate::small::{call_type, infer_type, never_type, path_node};
use dm_ast::{Ty, TyNode};
use dm_input::Input;
use dm_read::group::delim;
use dm_read::macro_call::sees_macro;
use dm_read::token::is_word;
use dm_read_paths::kind::{Mode, NodeKind};
use dm_read_pointers::pointers::Pointers;
use dm_stream::{Cursor, Delim, Ident, Read, Span};

fn punct_kind(ch: char) -> NodeKind
    ensures { result ≡ types.punct_kind ch }
{
    if ch == '&' {
        NodeKind::Reference
    } else if ch == '*' {
        NodeKind::Pointer
    } else if ch == '!' {
        NodeKind::Never
    } else if ch == '<' {
        NodeKind::Qualified
    } else {
        NodeKind::Path
    }
}

fn begins_function(ident: &Ident<'_>) -> bool
    ensures { result ≡ types.begins_function ident.now }
{
    is_word("for", ident)
        || (is_word("unsafe", ident) || (is_word("extern", ident) || is_word("fn", ident)))
}

fn word_kind(ident: &Ident<'_>) -> NodeKind
    ensures { result ≡ types.word_kind ident.now }
{
    if begins_function(ident) {
        NodeKind::Function
    } else if is_word("dyn", ident) {
        NodeKind::Object
    } else if is_word("impl", ident) {
        NodeKind::Implied
    } else if is_word("_", ident) {
        NodeKind::Infer
    } else {
        NodeKind::Path
    }
}

fn delim_kind(found: Delim) -> NodeKind
    ensures { result ≡ types.delim_kind found }
{
    match found {
        Delim::Paren => NodeKind::Round,
        Delim::Bracket => NodeKind::Square,
        Delim::Brace => NodeKind::Path,
    }
}

/// The rule that what comes next begins.
#[tactic(auto, using(crate::proofs::FrontKinds::front_steps))]
fn front_kind(c: Cursor<'_, '_>) -> NodeKind
    requires { sound c }
    ensures { result ≡ types.front_kind (left c.entry) }
{
    match c.punct() {
        Some((punct, _)) => punct_kind(punct.ch),
        None => match c.ident() {
            Some((ident, _)) => word_kind(ident),
            None => match delim(c) {
                Some(found) => delim_kind(found),
                None => NodeKind::Path,
            },
        },
    }
}

/// The rule of the type that comes next.
fn node_kind(c: Cursor<'_, '_>) -> NodeKind
    requires { sound c }
    ensures { result ≡ types.node_kind (left c.entry) }
{
    if sees_macro(c) {
        NodeKind::Call
    } else {
        front_kind(c)
    }
}

/// A type of this range.
#[tactic(auto, using(dm_ast::proofs::View::view_steps))]
fn type_of<'a>(node: TyNode<'a>, span: Span) -> Ty<'a>
    ensures { ty_view result ≡ types.type_of (node_view node.entry, span) }
{
    Ty { node, span }
}

impl<'a, F: for<'t> Fn(&mut Input<'t, 'a>, usize, Mode) -> Read<Ty<'a>>> Types<F> {
    /// A reference.
    fn reference(&self, input: &mut Input<'_, 'a>) -> Read<TyNode<'a>>
        requires { Nests self.now.grammar.depth (F.pre self.now.grammar.ty) (F.post self.now.grammar.ty) }
        ensures { Reads node_view (types.read_reference (read_type self.now.grammar.depth)) input.old result input.new }
    {
        let rules = Pointers {
            grammar: &self.grammar,
        };
        rules.reference(input)
    }

    /// A pointer.
    fn pointer(&self, input: &mut Input<'_, 'a>) -> Read<TyNode<'a>>
        requires { Nests self.now.grammar.depth (F.pre self.now.grammar.ty) (F.post self.now.grammar.ty) }
        ensures { Reads node_view (types.read_pointer (read_type self.now.grammar.depth)) input.old result input.new }
    {
        let rules = Pointers {
            grammar: &self.grammar,
        };
        rules.pointer(input)
    }

    /// What the type that comes next is.
    fn node(&self, single: bool, input: &mut Input<'_, 'a>) -> Read<TyNode<'a>>
        requires { Nests self.now.grammar.depth (F.pre self.now.grammar.ty) (F.post self.now.grammar.ty) }
        ensures { Reads node_view (types.read_node (read_type self.now.grammar.depth) single) input.old result input.new }
    {
        match node_kind(input.cursor()) {
            NodeKind::Call => call_type(input),
            NodeKind::Round => self.round(input),
            NodeKind::Square => self.square(input),
            NodeKind::Reference => self.reference(input),
            NodeKind::Pointer => self.pointer(input),
            NodeKind::Function => self.function(input),
            NodeKind::Object => self.object(single, input),
            NodeKind::Implied => self.implied(single, input),
            NodeKind::Infer => infer_type(input),
            NodeKind::Never => never_type(input),
            NodeKind::Qualified => self.grammar.qualified(input),
            NodeKind::Path => self.path_type(input),
        }
    }

    /// A type with its range.
    fn ranged_node(&self, single: bool, input: &mut Input<'_, 'a>) -> Read<Ty<'a>>
        requires { Nests self.now.grammar.depth (F.pre self.now.grammar.ty) (F.post self.now.grammar.ty) }
        ensures { Reads ty_view (types.read_ranged_node (read_type self.now.grammar.depth) single) input.old result input.new }
    {
        let begun = input.cursor();
        let node = self.node(single, input)?;
        Ok(type_of(node, input.since(begun)))
    }

    /// A path with its range, as a type.
    fn ranged_path(&self, input: &mut Input<'_, 'a>) -> Read<Ty<'a>>
        requires { Nests self.now.grammar.depth (F.pre self.now.grammar.ty) (F.post self.now.grammar.ty) }
        ensures { Reads ty_view (types.read_ranged_path (read_type self.now.grammar.depth)) input.old result input.new }
    {
        let begun = input.cursor();
        let found = self.grammar.path(false, input)?;
        Ok(type_of(path_node(found), input.since(begun)))
    }

    /// What may stand where a type may.
    pub fn level(&self, mode: Mode, input: &mut Input<'_, 'a>) -> Read<Ty<'a>>
        requires { Nests self.now.grammar.depth (F.pre self.now.grammar.ty) (F.post self.now.grammar.ty) }
        ensures { Reads ty_view (types.read_level (read_type self.now.grammar.depth) mode) input.old result input.new }
    {
        match mode {
            Mode::Whole => self.ranged_node(false, input),
            Mode::Single => self.ranged_node(true, input),
            Mode::PathOnly => self.ranged_path(input),
        }
    }
}

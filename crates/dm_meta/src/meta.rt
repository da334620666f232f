//! Metas: what lists in attributes hold.
#![tactic(auto)]

ghost use Rattle.std.specs.Prelude.{◌≡◌, ◌<◌, ℕ, Result, IfOk, IfErr, OnOk};
ghost use Rattle.dm_stream.specs.declared.error.Refusal.{Refusal};
ghost use Rattle.dm_stream.specs.Trees.{Trees, join};
ghost use Rattle.dm_stream.specs.Cursors.{left, end_of, sound, SharesEnd};
ghost use Rattle.dm_ast.specs.Readers.{place, Reads};
ghost use Rattle.dm_meta.specs.Fronts.{IsFront};
ghost use Rattle.dm_meta.specs.ArgReaders.{Within};
ghost use Rattle.dm_meta.specs.Metas as metas;
ghost use Rattle.dm_meta.specs.Metas.{NoMeta};
ghost use Rattle.dm_meta.specs.MetaReaders as spec;

use crate::path_or_keyword::{PathOrKeyword, at_front, path_or_keyword};
use dm_quote::ToTokens;
use dm_quote::emit_parts::group;
use dm_read::parts::kept_in;
use dm_read::token::{literal, sees_group, sees_literal};
use dm_stream::{Cursor, Delim, Error, Literal, Made, Read, TokenStream};
use std::alloc::{AllocError, Global};

/// A path or a keyword, and the tokens in parentheses behind it.
#[derive(Drop)]
pub struct MetaList<'a> {
    pub path: PathOrKeyword<'a>,
    pub tokens: TokenStream<'a>,
}

/// A path or a keyword, alone or with tokens in parentheses behind it.
#[derive(Drop)]
pub enum Meta<'a> {
    Path(PathOrKeyword<'a>),
    List(MetaList<'a>),
}

/// A meta or a literal.
#[derive(Drop)]
pub enum NestedMeta<'a> {
    Meta(Meta<'a>),
    Lit(Literal<'a>),
}

/// Reads the tokens of a list, as an attribute's own syntax wants them.
pub trait ArgReader<'a> {
    /// What the tokens are read as.
    type Output;

    /// Which answers a reader may give to trees, with the end of their list.
    ghost answers: { Self → Trees → ℕ → Result Self.Output Refusal → Type 0 };

    /// Reads all that is left.
    fn read(&self, alloc: Global, c: Cursor<'_, 'a>) -> Result<Self::Output, Error>
        requires { sound c }
        ensures { Within (answers self.now (left c.entry) (end_of c.entry)) result };
}

/// A path or a keyword, and trees in parentheses.
fn meta_list<'t, 'a>(
    alloc: Global,
    level: usize,
    c: Cursor<'t, 'a>,
) -> Read<(MetaList<'a>, Cursor<'t, 'a>)>
    requires here { sound c }
    requires fits { level < 130 }
    ensures reads { Reads metas.meta_list_view (spec.read_meta_list (place level c.entry) (left c.entry)) result }
    ensures place { IfOk result (λ r. SharesEnd c.entry r.1) }
{
    let (path, behind) = path_or_keyword(alloc, level, c)?;
    let (tokens, rest) = kept_in(alloc, Delim::Paren, level, behind)?;
    Ok((MetaList { path, tokens }, rest))
}

/// What stands behind the path of a meta.
fn behind_path<'t, 'a>(
    alloc: Global,
    path: PathOrKeyword<'a>,
    level: usize,
    c: Cursor<'t, 'a>,
) -> Read<(Meta<'a>, Cursor<'t, 'a>)>
    requires here { sound c }
    requires fits { level < 130 }
    ensures reads { Reads metas.meta_view (spec.behind_path (place level c.entry) (metas.path_or_keyword_view path.entry) (left c.entry)) result }
    ensures place { IfOk result (λ r. SharesEnd c.entry r.1) }
{
    if !sees_group(Delim::Paren, c) {
        return Ok((Meta::Path(path), c));
    }
    let (tokens, rest) = kept_in(alloc, Delim::Paren, level, c)?;
    Ok((Meta::List(MetaList { path, tokens }), rest))
}

/// A meta.
fn one_meta<'t, 'a>(
    alloc: Global,
    level: usize,
    c: Cursor<'t, 'a>,
) -> Read<(Meta<'a>, Cursor<'t, 'a>)>
    requires here { sound c }
    requires fits { level < 130 }
    ensures reads { Reads metas.meta_view (spec.read_meta (place level c.entry) (left c.entry)) result }
    ensures place { IfOk result (λ r. SharesEnd c.entry r.1) }
{
    let (path, behind) = path_or_keyword(alloc, level, c)?;
    behind_path(alloc, path, level, behind)
}

/// A literal as a nested meta.
fn nested_literal<'t, 'a>(
    alloc: Global,
    level: usize,
    c: Cursor<'t, 'a>,
) -> Read<(NestedMeta<'a>, Cursor<'t, 'a>)>
    requires { sound c }
    ensures reads { Reads metas.nested_meta_view (spec.read_lit (place level c.entry) (left c.entry)) result }
    ensures place { IfOk result (λ r. SharesEnd c.entry r.1) }
{
    let (found, rest) = literal(level, c)?;
    let own = found.clone_in(alloc)?;
    Ok((NestedMeta::Lit(own), rest))
}

/// A meta or a literal.
fn nested_meta<'t, 'a>(
    alloc: Global,
    level: usize,
    c: Cursor<'t, 'a>,
) -> Read<(NestedMeta<'a>, Cursor<'t, 'a>)>
    requires here { sound c }
    requires fits { level < 130 }
    ensures reads { Reads metas.nested_meta_view (spec.read_nested_meta (place level c.entry) (left c.entry)) result }
    ensures place { IfOk result (λ r. SharesEnd c.entry r.1) }
{
    if sees_literal(c) {
        return nested_literal(alloc, level, c);
    }
    let (found, rest) = one_meta(alloc, level, c)?;
    Ok((NestedMeta::Meta(found), rest))
}

/// Adds the tokens of a list.
#[tactic(auto, using(dm_quote::proofs::Adding::adding_steps))]
fn write_list<'a>(alloc: Global, out: &mut TokenStream<'a>, list: &MetaList<'a>) -> Made<()>
    ensures { OnOk result (out.new.trees ≡ join out.old.trees (metas.meta_list_trees (metas.meta_list_view list.now))) }
{
    list.path.to_tokens(out)?;
    group(out, Delim::Paren, list.tokens.clone_in(alloc)?)
}

impl<'a> MetaList<'a> {
    /// The one that the trees begin with, and the place behind it.
    ///
    /// The refusal is `Kind::Syntax` at the first tree, or where the list ends, where none begins there, or `Kind::TooDeep` at the
    /// first token, of a path or in the parentheses, that stands deeper than level 128, both in bytes of the text that the trees
    /// were read from.
    pub fn parse<'t>(
        alloc: Global,
        c: Cursor<'t, 'a>,
    ) -> Result<(MetaList<'a>, Cursor<'t, 'a>), Error>
        requires { sound c }
        ensures found { IfOk result (λ r. IsFront (λ l. metas.meta_list l (place 0 c.entry)) (left c.entry) (metas.meta_list_view r.0) (left r.1)) }
        ensures refused { IfErr result (λ e. NoMeta (λ l. metas.meta_list l (place 0 c.entry)) metas.list_begins_path e (end_of c.entry) (left c.entry)) }
        ensures place { IfOk result (λ r. SharesEnd c.entry r.1) }
    {
        match meta_list(alloc, 0, c) {
            Ok(read) => Ok(read),
            Err(error) => Err(at_front(c, error)),
        }
    }

    /// What a reader answers to all of the tokens. Its errors are handed on.
    pub fn parse_args_with<R: ArgReader<'a>>(
        &self,
        alloc: Global,
        reader: &R,
    ) -> Result<R::Output, Error>
        ensures { Within (R.answers reader.now self.now.tokens.trees self.now.tokens.limit) result }
    {
        reader.read(alloc, self.tokens.cursor())
    }

    /// An equal value.
    pub fn clone_in(&self, alloc: Global) -> Result<MetaList<'a>, AllocError>
        ensures { IfOk result (λ r. metas.meta_list_view r ≡ metas.meta_list_view self.now) }
    {
        let path = self.path.clone_in(alloc)?;
        let tokens = self.tokens.clone_in(alloc)?;
        Ok(MetaList { path, tokens })
    }
}

impl<'a> Meta<'a> {
    /// The one that the trees begin with, and the place behind it.
    ///
    /// The refusals are those of `MetaList::parse`.
    pub fn parse<'t>(alloc: Global, c: Cursor<'t, 'a>) -> Result<(Meta<'a>, Cursor<'t, 'a>), Error>
        requires { sound c }
        ensures found { IfOk result (λ r. IsFront (λ m. metas.meta_spelled m (place 0 c.entry)) (left c.entry) (metas.meta_view r.0) (left r.1)) }
        ensures refused { IfErr result (λ e. NoMeta (λ m. metas.meta_spelled m (place 0 c.entry)) metas.meta_begins_path e (end_of c.entry) (left c.entry)) }
        ensures place { IfOk result (λ r. SharesEnd c.entry r.1) }
    {
        match one_meta(alloc, 0, c) {
            Ok(read) => Ok(read),
            Err(error) => Err(at_front(c, error)),
        }
    }

    /// An equal value.
    pub fn clone_in(&self, alloc: Global) -> Result<Meta<'a>, AllocError>
        ensures { IfOk result (λ r. metas.meta_view r ≡ metas.meta_view self.now) }
    {
        match self {
            Meta::Path(path) => Ok(Meta::Path(path.clone_in(alloc)?)),
            Meta::List(list) => Ok(Meta::List(list.clone_in(alloc)?)),
        }
    }
}

impl<'a> NestedMeta<'a> {
    /// The one that the trees begin with, and the place behind it.
    ///
    /// The refusals are those of `MetaList::parse`.
    pub fn parse<'t>(
        alloc: Global,
        c: Cursor<'t, 'a>,
    ) -> Result<(NestedMeta<'a>, Cursor<'t, 'a>), Error>
        requires { sound c }
        ensures found { IfOk result (λ r. IsFront (λ m. metas.nested_meta m (place 0 c.entry)) (left c.entry) (metas.nested_meta_view r.0) (left r.1)) }
        ensures refused { IfErr result (λ e. NoMeta (λ m. metas.nested_meta m (place 0 c.entry)) metas.nested_begins_path e (end_of c.entry) (left c.entry)) }
        ensures place { IfOk result (λ r. SharesEnd c.entry r.1) }
    {
        match nested_meta(alloc, 0, c) {
            Ok(read) => Ok(read),
            Err(error) => Err(at_front(c, error)),
        }
    }

    /// An equal value.
    pub fn clone_in(&self, alloc: Global) -> Result<NestedMeta<'a>, AllocError>
        ensures { IfOk result (λ r. metas.nested_meta_view r ≡ metas.nested_meta_view self.now) }
    {
        match self {
            NestedMeta::Meta(meta) => Ok(NestedMeta::Meta(meta.clone_in(alloc)?)),
            NestedMeta::Lit(literal) => Ok(NestedMeta::Lit(literal.clone_in(alloc)?)),
        }
    }
}

impl<'a> ToTokens<'a> for MetaList<'a> {
    ghost use Rattle.dm_meta.specs.Metas.{meta_list_view, meta_list_trees};

    ghost trees_of = { λ x. meta_list_trees (meta_list_view x) };

    ghost stands = { λ x. Unit {0} };

    #[tactic(auto, using(dm_quote::proofs::Adding::adding_steps))]
    fn to_tokens(&self, out: &mut TokenStream<'a>) -> Result<(), AllocError> {
        let alloc = out.allocator();
        let mut tokens = TokenStream::new(alloc);
        write_list(alloc, &mut tokens, self)?;
        tokens.to_tokens(out)
    }
}

impl<'a> ToTokens<'a> for Meta<'a> {
    ghost use Rattle.dm_meta.specs.Metas.{meta_view, meta_trees};

    ghost trees_of = { λ x. meta_trees (meta_view x) };

    ghost stands = { λ x. Unit {0} };

    fn to_tokens(&self, out: &mut TokenStream<'a>) -> Result<(), AllocError> {
        match self {
            Meta::Path(path) => path.to_tokens(out),
            Meta::List(list) => list.to_tokens(out),
        }
    }
}

impl<'a> ToTokens<'a> for NestedMeta<'a> {
    ghost use Rattle.dm_meta.specs.Metas.{nested_meta_view, nested_meta_trees};

    ghost trees_of = { λ x. nested_meta_trees (nested_meta_view x) };

    ghost stands = { λ x. Unit {0} };

    fn to_tokens(&self, out: &mut TokenStream<'a>) -> Result<(), AllocError> {
        match self {
            NestedMeta::Meta(meta) => meta.to_tokens(out),
            NestedMeta::Lit(literal) => literal.to_tokens(out),
        }
    }
}

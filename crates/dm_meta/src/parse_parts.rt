//! Reading types, paths and lists of predicates where they stand alone: docs/FORMATS.md, "Types, paths and metas that stand alone".
#![tactic(auto)]

ghost use Rattle.std.specs.Prelude.{false, IfOk, IfErr};
ghost use Rattle.dm_stream.specs.Trees.{no_trees};
ghost use Rattle.dm_stream.specs.Cursors.{left, end_of, sound, SharesEnd};
ghost use Rattle.dm_ast.specs.Spelling.{at_end as ends};
ghost use Rattle.dm_ast.specs.TypeGrammar as grammar;
ghost use Rattle.dm_read_paths.specs.BarePaths.{bare_path as bare_spelled};
ghost use Rattle.dm_ast.specs.DeclarationGrammar as declarations;
ghost use Rattle.dm_read.specs.DeclarationReaders as spec;
ghost use Rattle.dm_read_paths.specs.WholeReaders.{whole_type, parts};
ghost use Rattle.dm_ast.specs.Declarations as tree;
ghost use Rattle.dm_ast.specs.Tree.{ty_view, path_view};
ghost use Rattle.dm_ast.specs.Readers.{place, Reads};
ghost use Rattle.dm_meta.specs.Fronts.{IsFront, NoFront, ToEnd};

use dm_ast::{Path, Ty, WherePredicate};
use dm_input::Input;
use dm_read::group::close;
use dm_read::list::Stop;
use dm_read_decl::forms::commas;
use dm_read_decl::generics::PredicateRule;
use dm_read_types::bare::bare_path;
use dm_read_types::entry::ty;
use dm_stream::{Cursor, Error, Punctuated, Read};
use std::alloc::Global;

/// A type, and the place behind it.
fn one_type<'t, 'a>(alloc: Global, c: Cursor<'t, 'a>) -> Read<(Ty<'a>, Cursor<'t, 'a>)>
    requires { sound c }
    ensures reads { Reads ty_view (whole_type (place 0 c.entry) (left c.entry)) result }
    ensures place { IfOk result (λ r. SharesEnd c.entry r.1) }
{
    let mut input = Input::new(alloc, 0, c);
    let found = ty(&mut input)?;
    Ok((found, input.cursor()))
}

/// The longest type that the trees begin with (Rust Reference, Types), and the place behind it. What could go on has to: `a < 3`
/// begins with no type.
///
/// The refusal is `Kind::Syntax` where the trees begin with no type, or `Kind::TooDeep` at the first token that stands deeper than
/// level 128. Its range is that of a token, or the empty one where a list ends, in bytes of the text that the trees were read from.
pub fn parse_type<'t, 'a>(
    alloc: Global,
    c: Cursor<'t, 'a>,
) -> Result<(Ty<'a>, Cursor<'t, 'a>), Error>
    requires { sound c }
    ensures found { IfOk result (λ r. IsFront (λ t. grammar.type_spelled t false (place 0 c.entry)) (left c.entry) (ty_view r.0) (left r.1)) }
    ensures refused { IfErr result (λ e. NoFront (λ t. grammar.type_spelled t false (place 0 c.entry)) e (end_of c.entry) (left c.entry)) }
    ensures place { IfOk result (λ r. SharesEnd c.entry r.1) }
{
    one_type(alloc, c)
}

/// The longest path that the trees begin with and that has no list in parentheses of its own, and the place behind it. So a group in
/// parentheses may follow, as in an attribute.
///
/// The refusals are those of `parse_type`, for a path.
pub fn parse_path<'t, 'a>(
    alloc: Global,
    c: Cursor<'t, 'a>,
) -> Result<(Path<'a>, Cursor<'t, 'a>), Error>
    requires { sound c }
    ensures found { IfOk result (λ r. IsFront (λ p. bare_spelled p (place 0 c.entry)) (left c.entry) (path_view r.0) (left r.1)) }
    ensures refused { IfErr result (λ e. NoFront (λ p. bare_spelled p (place 0 c.entry)) e (end_of c.entry) (left c.entry)) }
    ensures place { IfOk result (λ r. SharesEnd c.entry r.1) }
{
    bare_path(alloc, 0, c)
}

/// Predicates with commas between, and perhaps one behind the last.
fn predicates<'t, 'a>(
    alloc: Global,
    c: Cursor<'t, 'a>,
) -> Read<(Punctuated<WherePredicate<'a>>, Cursor<'t, 'a>)>
    requires { sound c }
    ensures reads { Reads (tree.listed tree.predicate_view) (spec.read_listed ends (spec.read_predicate parts) (place 0 c.entry) (left c.entry)) result }
    ensures place { IfOk result (λ r. SharesEnd c.entry r.1) }
{
    let mut input = Input::new(alloc, 0, c);
    let found = commas(&PredicateRule, Stop::End, &mut input)?;
    Ok((found, input.cursor()))
}

/// The predicates that the trees are, all of them, with commas between and perhaps one behind the last (Rust Reference, Where clauses).
///
/// The refusals are those of `parse_type`, for such a list; `Kind::Syntax` also where more is left behind it.
pub fn parse_predicates<'t, 'a>(
    alloc: Global,
    c: Cursor<'t, 'a>,
) -> Result<Punctuated<WherePredicate<'a>>, Error>
    requires { sound c }
    ensures found { IfOk result (λ r. IsFront (ToEnd (λ ps. declarations.listed ends declarations.predicate ps (place 0 c.entry))) (left c.entry) (tree.listed tree.predicate_view r) no_trees) }
    ensures refused { IfErr result (λ e. NoFront (ToEnd (λ ps. declarations.listed ends declarations.predicate ps (place 0 c.entry))) e (end_of c.entry) (left c.entry)) }
{
    let (found, rest) = predicates(alloc, c)?;
    close(rest)?;
    Ok(found)
}

//! The levels of the parts that hold no types: names, lifetimes, constants, attributes, and tokens that are not read.
#![tactic(auto, using(crate::proofs::PartSteps::part_steps))]

ghost use Rattle.std.specs.Prelude.{◌≡◌, ◌≤◌, [], ◌∷◌, ◌++◌, ◌+◌, cond, true};
ghost use Rattle.dm_ast.specs.Spelling.{deepest};
ghost use Rattle.dm_type_levels.specs.TypeLevels as spec;
ghost use Rattle.dm_type_levels.specs.Passing.{Passes, given};

use crate::pass::{Ahead, Behind, pair, token, token_if};
use dm_ast::{AttrArgs, Attribute, ConstArg, PlainPath};
use dm_stream::{DEEPEST, Entry, Ident, Lifetime, Literal, Punctuated, TokenStream};

/// The entries behind two tokens of this level, if they are there.
pub fn pair_if<'t, 'a>(there: bool, level: usize, rest: &'t [Entry<'a>]) -> Behind<'t, 'a>
    ensures { Passes (given there (spec.two level)) rest.now result }
{
    if !there {
        return Ok(rest);
    }
    pair(level, rest)
}

/// The entries behind the separator before an item, which the first has not.
pub fn separator<'t, 'a>(first: bool, level: usize, rest: &'t [Entry<'a>]) -> Behind<'t, 'a>
    ensures { Passes (cond first [] (level ∷ [])) rest.now result }
{
    if first {
        return Ok(rest);
    }
    token(level, rest)
}

/// The entries behind the `::` before a segment, which the first has not.
pub fn joiner<'t, 'a>(first: bool, level: usize, rest: &'t [Entry<'a>]) -> Behind<'t, 'a>
    ensures { Passes (cond first [] (spec.two level)) rest.now result }
{
    if first {
        return Ok(rest);
    }
    pair(level, rest)
}

fn level_at(entry: &Entry<'_>, level: usize) -> usize
    ensures { result ≡ spec.level_at level entry.now }
{
    match entry {
        Entry::Token(_) | Entry::Open(_, _, _) => level,
        Entry::Close(_, _) => level.saturating_sub(1),
    }
}

fn level_behind(entry: &Entry<'_>, level: usize) -> usize
    requires { level ≤ deepest }
    ensures { result ≡ spec.level_behind level entry.now }
{
    match entry {
        Entry::Open(_, _, _) => level + 1,
        Entry::Token(_) | Entry::Close(_, _) => level,
    }
}

/// The entries behind tokens that are not read, given by their flat form, whose first has this level.
pub fn entries<'t, 'a>(tokens: &[Entry<'_>], level: usize, rest: &'t [Entry<'a>]) -> Behind<'t, 'a>
    ensures { Passes (spec.entries_levels level tokens.now) rest.now result }
{
    let mut at = Ahead { left: rest };
    let mut level = level;
    for entry in tokens {
        let here = level_at(entry, level);
        let left = token(here, at.left)?;
        at = Ahead { left };
        level = level_behind(entry, here);
    }
    Ok(at.left)
}

/// The entries behind trees that are not read, which have this level.
pub fn stream<'t, 'a>(
    tokens: &TokenStream<'_>,
    level: usize,
    rest: &'t [Entry<'a>],
) -> Behind<'t, 'a>
    ensures { Passes (spec.trees_levels level tokens.now.trees) rest.now result }
{
    entries(tokens.entries(), level, rest)
}

/// The entries behind trees that are not read, between two delimiters of this level.
pub fn group<'t, 'a>(
    tokens: &TokenStream<'_>,
    level: usize,
    rest: &'t [Entry<'a>],
) -> Behind<'t, 'a>
    ensures { Passes (spec.grouped_levels level (spec.trees_levels (level + 1) tokens.now.trees)) rest.now result }
{
    let rest = token(level, rest)?;
    let rest = stream(tokens, level + 1, rest)?;
    token(level, rest)
}

fn names<'t, 'a>(all: &[Ident<'_>], level: usize, rest: &'t [Entry<'a>]) -> Behind<'t, 'a>
    ensures { Passes (spec.spaced_levels (spec.two level) true (spec.alone level all.now)) rest.now result }
{
    let mut at = Ahead { left: rest };
    for (i, _) in all.iter().enumerate() {
        let next = joiner(i == 0, level, at.left)?;
        let left = token(level, next)?;
        at = Ahead { left };
    }
    Ok(at.left)
}

/// The entries behind a path without arguments.
pub fn plain<'t, 'a>(path: &PlainPath<'_>, level: usize, rest: &'t [Entry<'a>]) -> Behind<'t, 'a>
    ensures { Passes (spec.plain_levels level path.now) rest.now result }
{
    let rest = pair_if(path.leading_colon, level, rest)?;
    names(path.segments.as_slice(), level, rest)
}

fn spaced_lifetimes<'t, 'a>(
    all: &[Lifetime<'_>],
    level: usize,
    rest: &'t [Entry<'a>],
) -> Behind<'t, 'a>
    ensures { Passes (spec.spaced_levels (level ∷ []) true (spec.alone level all.now)) rest.now result }
{
    let mut at = Ahead { left: rest };
    for (i, _) in all.iter().enumerate() {
        let next = separator(i == 0, level, at.left)?;
        let left = token(level, next)?;
        at = Ahead { left };
    }
    Ok(at.left)
}

/// The entries behind lifetimes with separators.
pub fn lifetimes<'t, 'a>(
    all: &Punctuated<Lifetime<'_>>,
    level: usize,
    rest: &'t [Entry<'a>],
) -> Behind<'t, 'a>
    ensures { Passes (spec.lifetimes_levels level all.now) rest.now result }
{
    let rest = spaced_lifetimes(all.items.as_slice(), level, rest)?;
    token_if(all.trailing, level, rest)
}

/// The entries behind `for<..>`, if it is there.
pub fn for_lifetimes<'t, 'a>(
    found: &Option<Punctuated<Lifetime<'_>>>,
    level: usize,
    rest: &'t [Entry<'a>],
) -> Behind<'t, 'a>
    ensures { Passes (spec.for_levels level found.now) rest.now result }
{
    match found {
        None => Ok(rest),
        Some(all) => {
            let rest = pair(level, rest)?;
            let rest = lifetimes(all, level + 1, rest)?;
            token(level, rest)
        }
    }
}

/// The entries behind a constant argument.
pub fn constant<'t, 'a>(value: &ConstArg<'_>, level: usize, rest: &'t [Entry<'a>]) -> Behind<'t, 'a>
    ensures { Passes (spec.const_levels level value.now) rest.now result }
{
    match value {
        ConstArg::Literal(minus, _) => {
            let rest = token_if(*minus, level, rest)?;
            token(level, rest)
        }
        ConstArg::Bool(_) | ConstArg::Name(_) => token(level, rest),
        ConstArg::Block(tokens) => group(tokens, level, rest),
    }
}

fn attr_args<'t, 'a>(args: &AttrArgs<'_>, level: usize, rest: &'t [Entry<'a>]) -> Behind<'t, 'a>
    ensures { Passes (spec.attr_args_levels level args.now) rest.now result }
{
    match args {
        AttrArgs::Absent => Ok(rest),
        AttrArgs::List(_, tokens) => group(tokens, level, rest),
        AttrArgs::Value(value) => {
            let rest = token(level, rest)?;
            stream(&value.tokens, level, rest)
        }
    }
}

fn attribute_inside<'t, 'a>(
    attribute: &Attribute<'_>,
    level: usize,
    rest: &'t [Entry<'a>],
) -> Behind<'t, 'a>
    ensures { Passes (spec.plain_levels level attribute.now.path ++ spec.attr_args_levels level attribute.now.args) rest.now result }
{
    let rest = plain(&attribute.path, level, rest)?;
    attr_args(&attribute.args, level, rest)
}

fn attribute_group<'t, 'a>(
    attribute: &Attribute<'_>,
    level: usize,
    rest: &'t [Entry<'a>],
) -> Behind<'t, 'a>
    ensures { Passes (spec.grouped_levels level (spec.plain_levels (level + 1) attribute.now.path ++ spec.attr_args_levels (level + 1) attribute.now.args)) rest.now result }
{
    let rest = token(level, rest)?;
    let rest = attribute_inside(attribute, level + 1, rest)?;
    token(level, rest)
}

fn attribute<'t, 'a>(
    attribute: &Attribute<'_>,
    level: usize,
    rest: &'t [Entry<'a>],
) -> Behind<'t, 'a>
    ensures { Passes (spec.attribute_levels level attribute.now) rest.now result }
{
    let rest = token(level, rest)?;
    attribute_group(attribute, level, rest)
}

/// The entries behind attributes.
pub fn attributes<'t, 'a>(
    all: &[Attribute<'_>],
    level: usize,
    rest: &'t [Entry<'a>],
) -> Behind<'t, 'a>
    ensures { Passes (spec.attributes_levels level all.now) rest.now result }
{
    let mut at = Ahead { left: rest };
    for item in all {
        let left = attribute(item, level, at.left)?;
        at = Ahead { left };
    }
    Ok(at.left)
}

/// The entries behind `extern` with a literal or none, if it is there.
pub fn abi<'t, 'a>(
    found: &Option<Option<Literal<'_>>>,
    level: usize,
    rest: &'t [Entry<'a>],
) -> Behind<'t, 'a>
    ensures { Passes (spec.abi_levels level found.now) rest.now result }
{
    match found {
        None => Ok(rest),
        Some(None) => token(level, rest),
        Some(Some(_)) => pair(level, rest),
    }
}

/// The entries behind a lifetime, if it is there.
pub fn maybe_lifetime<'t, 'a>(
    found: &Option<Lifetime<'_>>,
    level: usize,
    rest: &'t [Entry<'a>],
) -> Behind<'t, 'a>
    ensures { Passes (spec.maybe_levels level found.now) rest.now result }
{
    match found {
        None => Ok(rest),
        Some(_) => token(level, rest),
    }
}

/// The entries behind the name of a parameter of a `fn` type and its colon, if they are there.
pub fn input_name<'t, 'a>(
    found: &Option<Ident<'_>>,
    level: usize,
    rest: &'t [Entry<'a>],
) -> Behind<'t, 'a>
    ensures { Passes (spec.input_name_levels level found.now) rest.now result }
{
    match found {
        None => Ok(rest),
        Some(_) => pair(level, rest),
    }
}

//! The tokens of the parts that hold no types: names, lifetimes, constants and attributes.
#![tactic(auto, using(crate::proofs::EmitSteps::emit_steps))]

ghost use Rattle.std.specs.Prelude.{◌≡◌, map, OnOk, true};
ghost use Rattle.dm_quote.specs.Separators.{separator_trees, list_trees};
ghost use Rattle.dm_stream.specs.Trees.{Trees, join};
ghost use Rattle.dm_ast.specs.TypeTokens as spec;

use dm_ast::{AttrArgs, Attribute, ConstArg, PlainPath};
use dm_stream::{
    Delim, Ident, Lifetime, Literal, Made, Punct, Punctuated, Spacing, Span, Text, Token,
    TokenStream,
};
use std::alloc::AllocError;

pub fn group<'a>(
    out: &mut TokenStream<'a>,
    delim: Delim,
    inside: TokenStream<'a>,
) -> Result<(), AllocError>
    ensures added { OnOk result (out.new.trees ≡ join out.old.trees (spec.grouped delim inside.entry.trees)) }
    ensures limit { out.new.limit ≡ out.old.limit }
{
    out.push_group(delim, inside)
}

/// Adds a copy of trees between two delimiters.
pub fn group_copy<'a>(
    out: &mut TokenStream<'a>,
    delim: Delim,
    tokens: &TokenStream<'a>,
) -> Result<(), AllocError>
    ensures added { OnOk result (out.new.trees ≡ join out.old.trees (spec.grouped delim tokens.now.trees)) }
    ensures limit { out.new.limit ≡ out.old.limit }
{
    let inside = tokens.clone_in(out.allocator())?;
    out.push_group(delim, inside)
}

pub fn append<'a>(out: &mut TokenStream<'a>, stream: &TokenStream<'a>) -> Result<(), AllocError>
    ensures added { OnOk result (out.new.trees ≡ join out.old.trees stream.now.trees) }
    ensures limit { out.new.limit ≡ out.old.limit }
{
    out.extend(stream.piece())
}

pub fn punct(out: &mut TokenStream<'_>, ch: char, span: Span) -> Result<(), AllocError>
    ensures added { OnOk result (out.new.trees ≡ join out.old.trees (spec.punct ch span)) }
    ensures limit { out.new.limit ≡ out.old.limit }
{
    out.add(Token::Punct(Punct {
        ch,
        spacing: Spacing::Alone,
        span,
    }))
}

pub fn joint(out: &mut TokenStream<'_>, ch: char, next: char, span: Span) -> Result<(), AllocError>
    ensures added { OnOk result (out.new.trees ≡ join out.old.trees (spec.joint ch next span)) }
    ensures limit { out.new.limit ≡ out.old.limit }
{
    out.add(Token::Punct(Punct {
        ch,
        spacing: Spacing::Joint,
        span,
    }))?;
    punct(out, next, span)
}

pub fn colons_if(out: &mut TokenStream<'_>, here: bool, span: Span) -> Result<(), AllocError>
    ensures added { OnOk result (out.new.trees ≡ join out.old.trees (spec.given here (spec.colons span))) }
    ensures limit { out.new.limit ≡ out.old.limit }
{
    if here {
        return joint(out, ':', ':', span);
    }
    Ok(())
}

pub fn punct_if(
    out: &mut TokenStream<'_>,
    here: bool,
    ch: char,
    span: Span,
) -> Result<(), AllocError>
    ensures added { OnOk result (out.new.trees ≡ join out.old.trees (spec.given here (spec.punct ch span))) }
    ensures limit { out.new.limit ≡ out.old.limit }
{
    if here {
        return punct(out, ch, span);
    }
    Ok(())
}

pub fn word(out: &mut TokenStream<'_>, text: &'static str, span: Span) -> Result<(), AllocError>
    ensures added { OnOk result (out.new.trees ≡ join out.old.trees (spec.word text.now span)) }
    ensures limit { out.new.limit ≡ out.old.limit }
{
    out.add(Token::Ident(Ident {
        name: Text::borrowed(text),
        raw: false,
        span,
    }))
}

pub fn word_if(
    out: &mut TokenStream<'_>,
    here: bool,
    text: &'static str,
    span: Span,
) -> Result<(), AllocError>
    ensures added { OnOk result (out.new.trees ≡ join out.old.trees (spec.given here (spec.word text.now span))) }
    ensures limit { out.new.limit ≡ out.old.limit }
{
    if here {
        return word(out, text, span);
    }
    Ok(())
}

pub fn name<'a>(out: &mut TokenStream<'a>, name: &Ident<'a>) -> Result<(), AllocError>
    ensures added { OnOk result (out.new.trees ≡ join out.old.trees (spec.name name.now)) }
    ensures limit { out.new.limit ≡ out.old.limit }
{
    let copy = name.clone_in(out.allocator())?;
    out.add(Token::Ident(copy))
}

pub fn lifetime<'a>(out: &mut TokenStream<'a>, lifetime: &Lifetime<'a>) -> Result<(), AllocError>
    ensures added { OnOk result (out.new.trees ≡ join out.old.trees (spec.lifetime lifetime.now)) }
    ensures limit { out.new.limit ≡ out.old.limit }
{
    let copy = lifetime.clone_in(out.allocator())?;
    out.add(Token::Lifetime(copy))
}

pub fn literal<'a>(out: &mut TokenStream<'a>, literal: &Literal<'a>) -> Result<(), AllocError>
    ensures added { OnOk result (out.new.trees ≡ join out.old.trees (spec.literal literal.now)) }
    ensures limit { out.new.limit ≡ out.old.limit }
{
    let copy = literal.clone_in(out.allocator())?;
    out.add(Token::Literal(copy))
}

pub fn maybe_lifetime<'a>(
    out: &mut TokenStream<'a>,
    name: &Option<Lifetime<'a>>,
) -> Result<(), AllocError>
    ensures added { OnOk result (out.new.trees ≡ join out.old.trees (spec.maybe_lifetime name.now)) }
    ensures limit { out.new.limit ≡ out.old.limit }
{
    match name {
        None => Ok(()),
        Some(name) => lifetime(out, name),
    }
}

/// What is written into lists.
pub trait Item<'a> {
    /// The trees that it is written with.
    ghost trees_of: { Self → Trees };

    /// Adds them. After want of memory a front of them may be there.
    fn write(&self, out: &mut TokenStream<'a>) -> Result<(), AllocError>
        ensures added { OnOk result (out.new.trees ≡ join out.old.trees (trees_of self.now)) }
        ensures limit { out.new.limit ≡ out.old.limit };
}

impl<'a> Item<'a> for Ident<'a> {
    ghost trees_of = { spec.name };

    fn write(&self, out: &mut TokenStream<'a>) -> Result<(), AllocError> {
        name(out, self)
    }
}

impl<'a> Item<'a> for Lifetime<'a> {
    ghost trees_of = { spec.lifetime };

    fn write(&self, out: &mut TokenStream<'a>) -> Result<(), AllocError> {
        lifetime(out, self)
    }
}

/// What stands between two items of a list.
#[derive(Clone, Copy)]
pub enum Separator {
    /// `,`
    Comma,
    /// `+`
    Plus,
    /// `::`
    Colons,
}

fn separate(out: &mut TokenStream<'_>, separator: Separator, span: Span) -> Made<()>
    ensures added { OnOk result (out.new.trees ≡ join out.old.trees (separator_trees separator span)) }
    ensures limit { out.new.limit ≡ out.old.limit }
{
    match separator {
        Separator::Comma => punct(out, ',', span),
        Separator::Plus => punct(out, '+', span),
        Separator::Colons => joint(out, ':', ':', span),
    }
}

/// Adds items with a separator between two of them.
pub fn write_separated<'a, T: Item<'a>>(
    out: &mut TokenStream<'a>,
    all: &[T],
    separator: Separator,
    span: Span,
) -> Result<(), AllocError>
    ensures added { OnOk result (out.new.trees ≡ join out.old.trees (spec.spaced (separator_trees separator span) true (map T.trees_of all.now))) }
    ensures limit { out.new.limit ≡ out.old.limit }
{
    for (i, item) in all.iter().enumerate() {
        if i > 0 {
            separate(out, separator, span)?;
        }
        item.write(out)?;
    }
    Ok(())
}

/// Adds a list, with a separator after its last item where it has one.
pub fn write_list<'a, T: Item<'a>>(
    out: &mut TokenStream<'a>,
    all: &Punctuated<T>,
    separator: Separator,
    span: Span,
) -> Result<(), AllocError>
    ensures added { OnOk result (out.new.trees ≡ join out.old.trees (list_trees separator span (map T.trees_of all.now.items) all.now.trailing)) }
    ensures limit { out.new.limit ≡ out.old.limit }
{
    write_separated(out, all.items.as_slice(), separator, span)?;
    if all.trailing {
        return separate(out, separator, span);
    }
    Ok(())
}

/// Adds a path without arguments. Its `::` stand at `span`.
pub fn write_plain<'a>(
    out: &mut TokenStream<'a>,
    path: &PlainPath<'a>,
    span: Span,
) -> Result<(), AllocError>
    ensures added { OnOk result (out.new.trees ≡ join out.old.trees (spec.plain_trees span path.now)) }
    ensures limit { out.new.limit ≡ out.old.limit }
{
    colons_if(out, path.leading_colon, span)?;
    write_separated(out, path.segments.as_slice(), Separator::Colons, span)
}

/// Adds `for<'a, 'b>`, or nothing where there is no such list. `span` is where its own tokens stand: the word, the
/// angle brackets and the commas. Memory is the stream's; after want of it a front of the tokens may be there.
pub fn write_for<'a>(
    out: &mut TokenStream<'a>,
    lifetimes: &Option<Punctuated<Lifetime<'a>>>,
    span: Span,
) -> Result<(), AllocError>
    ensures added { OnOk result (out.new.trees ≡ join out.old.trees (spec.for_trees span lifetimes.now)) }
    ensures limit { out.new.limit ≡ out.old.limit }
{
    match lifetimes {
        None => Ok(()),
        Some(all) => {
            word(out, "for", span)?;
            punct(out, '<', span)?;
            write_list(out, all, Separator::Comma, span)?;
            punct(out, '>', span)
        }
    }
}

/// Adds a constant as a generic argument holds it: a literal, perhaps behind `-`, a `bool`, a block or a name. `span` is
/// where a `-` stands; a block's braces stand at no place of a text. Memory is the stream's; after want of it a front of
/// the tokens may be there.
pub fn write_const<'a>(
    out: &mut TokenStream<'a>,
    value: &ConstArg<'a>,
    span: Span,
) -> Result<(), AllocError>
    ensures added { OnOk result (out.new.trees ≡ join out.old.trees (spec.const_trees span value.now)) }
    ensures limit { out.new.limit ≡ out.old.limit }
{
    match value {
        ConstArg::Literal(minus, value) => {
            punct_if(out, *minus, '-', span)?;
            literal(out, value)
        }
        ConstArg::Bool(value) => name(out, value),
        ConstArg::Block(tokens) => group_copy(out, Delim::Brace, tokens),
        ConstArg::Name(value) => name(out, value),
    }
}

pub fn write_attr_args<'a>(
    out: &mut TokenStream<'a>,
    args: &AttrArgs<'a>,
    span: Span,
) -> Result<(), AllocError>
    ensures added { OnOk result (out.new.trees ≡ join out.old.trees (spec.attr_args_trees span args.now)) }
    ensures limit { out.new.limit ≡ out.old.limit }
{
    match args {
        AttrArgs::Absent => Ok(()),
        AttrArgs::List(delim, tokens) => group_copy(out, *delim, tokens),
        AttrArgs::Value(value) => {
            punct(out, '=', span)?;
            append(out, &value.tokens)
        }
    }
}

/// Adds an attribute.
pub fn write_attribute<'a>(
    out: &mut TokenStream<'a>,
    attribute: &Attribute<'a>,
) -> Result<(), AllocError>
    ensures added { OnOk result (out.new.trees ≡ join out.old.trees (spec.attribute_trees attribute.now)) }
    ensures limit { out.new.limit ≡ out.old.limit }
{
    let span = attribute.span;
    let mut inside = TokenStream::new(out.allocator());
    write_plain(&mut inside, &attribute.path, span)?;
    write_attr_args(&mut inside, &attribute.args, span)?;
    punct(out, '#', span)?;
    group(out, Delim::Bracket, inside)
}

/// Adds attributes, `#[path args]` each. The own tokens of one stand at its range, its brackets at no place of a text.
/// Memory is the stream's; after want of it a front of the tokens may be there.
pub fn write_attributes<'a>(
    out: &mut TokenStream<'a>,
    all: &[Attribute<'a>],
) -> Result<(), AllocError>
    ensures added { OnOk result (out.new.trees ≡ join out.old.trees (spec.attributes_trees all.now)) }
    ensures limit { out.new.limit ≡ out.old.limit }
{
    for attribute in all {
        write_attribute(out, attribute)?;
    }
    Ok(())
}

pub fn write_abi<'a>(
    out: &mut TokenStream<'a>,
    abi: &Option<Option<Literal<'a>>>,
    span: Span,
) -> Result<(), AllocError>
    ensures added { OnOk result (out.new.trees ≡ join out.old.trees (spec.abi_trees span abi.now)) }
    ensures limit { out.new.limit ≡ out.old.limit }
{
    match abi {
        None => Ok(()),
        Some(None) => word(out, "extern", span),
        Some(Some(value)) => {
            word(out, "extern", span)?;
            literal(out, value)
        }
    }
}

pub fn write_input_name<'a>(
    out: &mut TokenStream<'a>,
    input: &Option<Ident<'a>>,
    span: Span,
) -> Result<(), AllocError>
    ensures added { OnOk result (out.new.trees ≡ join out.old.trees (spec.input_name_trees span input.now)) }
    ensures limit { out.new.limit ≡ out.old.limit }
{
    match input {
        None => Ok(()),
        Some(input) => {
            name(out, input)?;
            punct(out, ':', span)
        }
    }
}

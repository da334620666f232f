//! Types to tokens.
#![tactic(auto, using(crate::proofs::EmitSteps::emit_steps))]

ghost use Rattle.std.specs.Prelude.{◌≡◌, map, take, drop, OnOk, true, false, Some, cond, codes, ℕ, List};
ghost use Rattle.dm_stream.specs.Trees.{join};
ghost use Rattle.dm_ast.specs.Tree as tree;
ghost use Rattle.dm_ast.specs.TypeTokens as spec;

use crate::emit_parts::{
    append, colons_if, group, group_copy, joint, lifetime, maybe_lifetime, name, punct, punct_if,
    word, word_if, write_abi, write_attributes, write_const, write_for, write_input_name,
    write_plain,
};
use dm_ast::{
    BareFn, Bound, ConstArg, FnArg, GenericArgument, Opaque, Path, PathArguments, PathSegment,
    PlainPath, QSelf, TraitBound, Ty, TyNode,
};
use dm_stream::{Delim, Ident, Lifetime, Made, Punctuated, Span, TokenStream};
use std::alloc::AllocError;

/// Adds a type. Each of its own tokens stands at the range of the innermost type around it, delimiters at no place of a
/// text. Memory is the stream's; after want of it a front of the tokens may be there.
#[cycle(emit)]
pub fn write_type<'a>(out: &mut TokenStream<'a>, ty: &Ty<'a>) -> Result<(), AllocError>
    ensures added { OnOk result (out.new.trees ≡ join out.old.trees (spec.type_trees (tree.ty_view ty.now))) }
    ensures limit { out.new.limit ≡ out.old.limit }
{
    write_node(out, &ty.node, ty.span)
}

#[cycle(emit)]
fn write_node<'a>(out: &mut TokenStream<'a>, node: &TyNode<'a>, span: Span) -> Made<()>
    ensures added { OnOk result (out.new.trees ≡ join out.old.trees (spec.node_trees span (tree.node_view node.now))) }
    ensures limit { out.new.limit ≡ out.old.limit }
{
    match node {
        TyNode::Paren(inner) => write_enclosed(out, Delim::Paren, inner),
        TyNode::Tuple(all) => write_tuple(out, all.items.as_slice(), all.trailing, span),
        TyNode::Slice(inner) => write_enclosed(out, Delim::Bracket, inner),
        TyNode::Array(inner, size) => write_array(out, inner, size, span),
        TyNode::Reference(name, is_mut, inner) => {
            write_reference(out, name, *is_mut, inner, span)
        }
        TyNode::Pointer(is_mut, inner) => write_pointer(out, *is_mut, inner, span),
        TyNode::BareFn(function) => write_fn(out, function, span),
        TyNode::TraitObject(all) => {
            word(out, "dyn", span)?;
            write_bounds(out, all.items.as_slice(), all.trailing, span)
        }
        TyNode::ImplTrait(all) => {
            word(out, "impl", span)?;
            write_bounds(out, all.items.as_slice(), all.trailing, span)
        }
        TyNode::Infer => word(out, "_", span),
        TyNode::Never => punct(out, '!', span),
        TyNode::Path(qself, path) => match qself {
            None => write_path(out, path, span),
            Some(qself) => {
                write_self(out, qself, span)?;
                let all = path.segments.as_slice();
                write_behind_self(out, all, qself.position, path.leading_colon, span)
            }
        },
        TyNode::Macro(path, delim, tokens) => write_macro(out, path, *delim, tokens, span),
    }
}

/// Adds `&'a mut Inner`.
#[cycle(emit)]
fn write_reference<'a>(
    out: &mut TokenStream<'a>,
    name: &Option<Lifetime<'a>>,
    is_mut: bool,
    inner: &Ty<'a>,
    span: Span,
) -> Made<()>
    ensures added { OnOk result (out.new.trees ≡ join out.old.trees (spec.node_trees span (tree.reference name.now is_mut (tree.ty_view inner.now)))) }
    ensures limit { out.new.limit ≡ out.old.limit }
{
    punct(out, '&', span)?;
    maybe_lifetime(out, name)?;
    word_if(out, is_mut, "mut", span)?;
    write_type(out, inner)
}

/// Adds `*const Inner` or `*mut Inner`.
#[cycle(emit)]
fn write_pointer<'a>(
    out: &mut TokenStream<'a>,
    is_mut: bool,
    inner: &Ty<'a>,
    span: Span,
) -> Made<()>
    ensures added { OnOk result (out.new.trees ≡ join out.old.trees (spec.node_trees span (tree.pointer is_mut (tree.ty_view inner.now)))) }
    ensures limit { out.new.limit ≡ out.old.limit }
{
    punct(out, '*', span)?;
    write_pointer_word(out, is_mut, span)?;
    write_type(out, inner)
}

fn write_pointer_word(out: &mut TokenStream<'_>, is_mut: bool, span: Span) -> Made<()>
    ensures added { OnOk result (out.new.trees ≡ join out.old.trees (cond is_mut (spec.word (codes "mut") span) (spec.word (codes "const") span))) }
    ensures limit { out.new.limit ≡ out.old.limit }
{
    if is_mut {
        word(out, "mut", span)
    } else {
        word(out, "const", span)
    }
}

fn write_macro<'a>(
    out: &mut TokenStream<'a>,
    path: &PlainPath<'a>,
    delim: Delim,
    tokens: &TokenStream<'a>,
    span: Span,
) -> Made<()>
    ensures added { OnOk result (out.new.trees ≡ join out.old.trees (spec.node_trees span (tree.macro_type path.now delim tokens.now))) }
    ensures limit { out.new.limit ≡ out.old.limit }
{
    write_plain(out, path, span)?;
    punct(out, '!', span)?;
    group_copy(out, delim, tokens)
}

#[cycle(emit)]
fn write_enclosed<'a>(out: &mut TokenStream<'a>, delim: Delim, inner: &Ty<'a>) -> Made<()>
    ensures added { OnOk result (out.new.trees ≡ join out.old.trees (spec.grouped delim (spec.type_trees (tree.ty_view inner.now)))) }
    ensures limit { out.new.limit ≡ out.old.limit }
{
    let mut inside = TokenStream::new(out.allocator());
    write_type(&mut inside, inner)?;
    group(out, delim, inside)
}

#[cycle(emit)]
fn write_array<'a>(
    out: &mut TokenStream<'a>,
    inner: &Ty<'a>,
    size: &Opaque<'a>,
    span: Span,
) -> Made<()>
    ensures added { OnOk result (out.new.trees ≡ join out.old.trees (spec.node_trees span (tree.array (tree.ty_view inner.now) size.now))) }
    ensures limit { out.new.limit ≡ out.old.limit }
{
    let mut inside = TokenStream::new(out.allocator());
    write_type(&mut inside, inner)?;
    punct(&mut inside, ';', span)?;
    append(&mut inside, &size.tokens)?;
    group(out, Delim::Bracket, inside)
}

#[cycle(emit)]
fn write_tuple<'a>(
    out: &mut TokenStream<'a>,
    all: &[Ty<'a>],
    trailing: bool,
    span: Span,
) -> Made<()>
    ensures added { OnOk result (out.new.trees ≡ join out.old.trees (spec.node_trees span (tree.tuple (tree.types_of (map tree.ty_view all.now)) trailing))) }
    ensures limit { out.new.limit ≡ out.old.limit }
{
    let mut inside = TokenStream::new(out.allocator());
    write_types(&mut inside, all, trailing, span)?;
    group(out, Delim::Paren, inside)
}

#[cycle(emit)]
fn write_types<'a>(
    out: &mut TokenStream<'a>,
    all: &[Ty<'a>],
    trailing: bool,
    span: Span,
) -> Made<()>
    ensures added { OnOk result (out.new.trees ≡ join out.old.trees (spec.listed 44 span (spec.each_type (tree.types_of (map tree.ty_view all.now))) trailing)) }
    ensures limit { out.new.limit ≡ out.old.limit }
{
    for (i, item) in all.iter().enumerate() {
        if i > 0 {
            punct(out, ',', span)?;
        }
        write_type(out, item)?;
    }
    punct_if(out, trailing, ',', span)
}

/// Adds bounds with `+` between them, and one after the last where `trailing`. `span` is where these and the bounds' own
/// tokens stand. Memory is the stream's; after want of it a front of the tokens may be there.
#[cycle(emit)]
pub fn write_bounds<'a>(
    out: &mut TokenStream<'a>,
    all: &[Bound<'a>],
    trailing: bool,
    span: Span,
) -> Result<(), AllocError>
    ensures added { OnOk result (out.new.trees ≡ join out.old.trees (spec.listed 43 span (spec.each_bound span (tree.bounds_of (map tree.bound_view all.now))) trailing)) }
    ensures limit { out.new.limit ≡ out.old.limit }
{
    for (i, item) in all.iter().enumerate() {
        if i > 0 {
            punct(out, '+', span)?;
        }
        write_bound(out, item, span)?;
    }
    punct_if(out, trailing, '+', span)
}

#[cycle(emit)]
pub fn write_bound<'a>(
    out: &mut TokenStream<'a>,
    bound: &Bound<'a>,
    span: Span,
) -> Result<(), AllocError>
    ensures added { OnOk result (out.new.trees ≡ join out.old.trees (spec.bound_trees span (tree.bound_view bound.now))) }
    ensures limit { out.new.limit ≡ out.old.limit }
{
    match bound {
        Bound::Lifetime(name) => lifetime(out, name),
        Bound::Trait(bound) => write_trait_bound(out, bound, span),
    }
}

#[cycle(emit)]
fn write_trait_bound<'a>(out: &mut TokenStream<'a>, bound: &TraitBound<'a>, span: Span) -> Made<()>
    ensures added { OnOk result (out.new.trees ≡ join out.old.trees (spec.trait_bound_trees span (tree.trait_view bound.now))) }
    ensures limit { out.new.limit ≡ out.old.limit }
{
    let mut inside = TokenStream::new(out.allocator());
    punct_if(&mut inside, bound.maybe, '?', span)?;
    write_for(&mut inside, &bound.lifetimes, span)?;
    write_path(&mut inside, &bound.path, span)?;
    if bound.parens {
        return group(out, Delim::Paren, inside);
    }
    out.extend(inside.piece())
}

#[cycle(emit)]
fn write_fn<'a>(out: &mut TokenStream<'a>, function: &BareFn<'a>, span: Span) -> Made<()>
    ensures added { OnOk result (out.new.trees ≡ join out.old.trees (spec.fn_trees span (tree.fn_view function.now))) }
    ensures limit { out.new.limit ≡ out.old.limit }
{
    write_for(out, &function.lifetimes, span)?;
    word_if(out, function.is_unsafe, "unsafe", span)?;
    write_abi(out, &function.abi, span)?;
    word(out, "fn", span)?;
    let mut inside = TokenStream::new(out.allocator());
    let inputs = &function.inputs;
    write_inputs(&mut inside, inputs.items.as_slice(), inputs.trailing, span)?;
    group(out, Delim::Paren, inside)?;
    match &function.output {
        None => Ok(()),
        Some(ty) => write_output(out, ty, span),
    }
}

#[cycle(emit)]
fn write_output<'a>(out: &mut TokenStream<'a>, ty: &Ty<'a>, span: Span) -> Made<()>
    ensures added { OnOk result (out.new.trees ≡ join out.old.trees (spec.output_trees span (tree.some_type (tree.ty_view ty.now)))) }
    ensures limit { out.new.limit ≡ out.old.limit }
{
    joint(out, '-', '>', span)?;
    write_type(out, ty)
}

#[cycle(emit)]
fn write_inputs<'a>(
    out: &mut TokenStream<'a>,
    all: &[FnArg<'a>],
    trailing: bool,
    span: Span,
) -> Made<()>
    ensures added { OnOk result (out.new.trees ≡ join out.old.trees (spec.listed 44 span (spec.each_input span (tree.inputs_of (map tree.input_view all.now))) trailing)) }
    ensures limit { out.new.limit ≡ out.old.limit }
{
    for (i, item) in all.iter().enumerate() {
        if i > 0 {
            punct(out, ',', span)?;
        }
        write_input(out, item, span)?;
    }
    punct_if(out, trailing, ',', span)
}

#[cycle(emit)]
fn write_input<'a>(out: &mut TokenStream<'a>, input: &FnArg<'a>, span: Span) -> Made<()>
    ensures added { OnOk result (out.new.trees ≡ join out.old.trees (spec.input_trees span (tree.input_view input.now))) }
    ensures limit { out.new.limit ≡ out.old.limit }
{
    write_attributes(out, input.attrs.as_slice())?;
    write_input_name(out, &input.name, span)?;
    write_type(out, &input.ty)
}

/// Adds a path. Its own tokens stand at `span`.
#[cycle(emit)]
pub fn write_path<'a>(
    out: &mut TokenStream<'a>,
    path: &Path<'a>,
    span: Span,
) -> Result<(), AllocError>
    ensures added { OnOk result (out.new.trees ≡ join out.old.trees (spec.path_trees span (tree.path_view path.now))) }
    ensures limit { out.new.limit ≡ out.old.limit }
{
    colons_if(out, path.leading_colon, span)?;
    write_segments(out, path.segments.as_slice(), span)
}

/// Adds `<Self`.
#[cycle(emit)]
fn write_self<'a>(out: &mut TokenStream<'a>, qself: &QSelf<'a>, span: Span) -> Made<()>
    ensures added { OnOk result (out.new.trees ≡ join out.old.trees (join (spec.punct 60 span) (spec.type_trees (tree.ty_view qself.now.ty)))) }
    ensures limit { out.new.limit ≡ out.old.limit }
{
    punct(out, '<', span)?;
    write_type(out, &qself.ty)
}

/// Adds what stands behind `<Self`.
#[cycle(emit)]
fn write_behind_self<'a>(
    out: &mut TokenStream<'a>,
    all: &[PathSegment<'a>],
    position: usize,
    leading_colon: bool,
    span: Span,
) -> Made<()>
    ensures added { OnOk result (out.new.trees ≡ join out.old.trees (spec.behind_self_trees span position leading_colon (spec.each_segment span (tree.segments_of (map tree.segment_view all.now))))) }
    ensures limit { out.new.limit ≡ out.old.limit }
{
    if position > 0 {
        word(out, "as", span)?;
        colons_if(out, leading_colon, span)?;
        write_first(out, all, position, span)?;
    }
    punct(out, '>', span)?;
    write_later(out, all, position, span)
}

/// Adds `<Self as trait::segments>::later::segments`. The first `qself.position` segments are the trait's, and where that
/// is 0 there is no `as`; `leading_colon` is that of the trait's path. `span` is where the path's own tokens stand. Memory
/// is the stream's; after want of it a front of the tokens may be there.
pub fn write_qualified<'a>(
    out: &mut TokenStream<'a>,
    qself: &QSelf<'a>,
    leading_colon: bool,
    segments: &[PathSegment<'a>],
    span: Span,
) -> Result<(), AllocError>
    ensures added { OnOk result (out.new.trees ≡ join out.old.trees (spec.qualified_trees span (spec.type_trees (tree.ty_view qself.now.ty)) qself.now.position leading_colon (spec.each_segment span (tree.segments_of (map tree.segment_view segments.now))))) }
    ensures limit { out.new.limit ≡ out.old.limit }
{
    write_self(out, qself, span)?;
    write_behind_self(out, segments, qself.position, leading_colon, span)
}

#[cycle(emit)]
fn write_segments<'a>(out: &mut TokenStream<'a>, all: &[PathSegment<'a>], span: Span) -> Made<()>
    ensures added { OnOk result (out.new.trees ≡ join out.old.trees (spec.spaced (spec.colons span) true (spec.each_segment span (tree.segments_of (map tree.segment_view all.now))))) }
    ensures limit { out.new.limit ≡ out.old.limit }
{
    for (i, segment) in all.iter().enumerate() {
        if i > 0 {
            joint(out, ':', ':', span)?;
        }
        write_segment(out, segment, span)?;
    }
    Ok(())
}

/// Adds the first `position` segments, or all.
#[cycle(emit)]
fn write_first<'a>(
    out: &mut TokenStream<'a>,
    all: &[PathSegment<'a>],
    position: usize,
    span: Span,
) -> Made<()>
    ensures added { OnOk result (out.new.trees ≡ join out.old.trees (spec.spaced (spec.colons span) true (take position (spec.each_segment span (tree.segments_of (map tree.segment_view all.now)))))) }
    ensures limit { out.new.limit ≡ out.old.limit }
{
    for (i, segment) in all.iter().enumerate() {
        if i >= position {
            return Ok(());
        }
        if i > 0 {
            joint(out, ':', ':', span)?;
        }
        write_segment(out, segment, span)?;
    }
    Ok(())
}

/// Adds the segments behind the first `position`, each behind `::`.
#[cycle(emit)]
fn write_later<'a>(
    out: &mut TokenStream<'a>,
    all: &[PathSegment<'a>],
    position: usize,
    span: Span,
) -> Made<()>
    ensures added { OnOk result (out.new.trees ≡ join out.old.trees (spec.spaced (spec.colons span) false (drop position (spec.each_segment span (tree.segments_of (map tree.segment_view all.now)))))) }
    ensures limit { out.new.limit ≡ out.old.limit }
{
    for (i, segment) in all.iter().enumerate() {
        if i < position {
            continue;
        }
        joint(out, ':', ':', span)?;
        write_segment(out, segment, span)?;
    }
    Ok(())
}

#[cycle(emit)]
fn write_segment<'a>(out: &mut TokenStream<'a>, segment: &PathSegment<'a>, span: Span) -> Made<()>
    ensures added { OnOk result (out.new.trees ≡ join out.old.trees (spec.segment_trees span (tree.segment_view segment.now))) }
    ensures limit { out.new.limit ≡ out.old.limit }
{
    name(out, &segment.ident)?;
    write_arguments(out, &segment.arguments, span)
}

/// Adds the arguments of a path's segment: nothing, `<..>` or `(..) -> Output`. `span` is where their own tokens stand.
/// Memory is the stream's; after want of it a front of the tokens may be there.
#[cycle(emit)]
pub fn write_arguments<'a>(
    out: &mut TokenStream<'a>,
    arguments: &PathArguments<'a>,
    span: Span,
) -> Result<(), AllocError>
    ensures added { OnOk result (out.new.trees ≡ join out.old.trees (spec.arguments_trees span (tree.arguments_view arguments.now))) }
    ensures limit { out.new.limit ≡ out.old.limit }
{
    match arguments {
        PathArguments::Absent => Ok(()),
        PathArguments::Angle(colons, all) => {
            colons_if(out, *colons, span)?;
            write_angle(out, all.items.as_slice(), all.trailing, span)
        }
        PathArguments::Paren(all, output) => {
            write_tuple(out, all.items.as_slice(), all.trailing, span)?;
            match output {
                None => Ok(()),
                Some(ty) => write_output(out, ty, span),
            }
        }
    }
}

#[cycle(emit)]
fn write_angle<'a>(
    out: &mut TokenStream<'a>,
    all: &[GenericArgument<'a>],
    trailing: bool,
    span: Span,
) -> Made<()>
    ensures added { OnOk result (out.new.trees ≡ join out.old.trees (spec.angle_trees span (spec.each_argument span (tree.arguments_of (map tree.argument_view all.now))) trailing)) }
    ensures limit { out.new.limit ≡ out.old.limit }
{
    punct(out, '<', span)?;
    write_angle_items(out, all, trailing, span)?;
    punct(out, '>', span)
}

#[cycle(emit)]
fn write_angle_items<'a>(
    out: &mut TokenStream<'a>,
    all: &[GenericArgument<'a>],
    trailing: bool,
    span: Span,
) -> Made<()>
    ensures added { OnOk result (out.new.trees ≡ join out.old.trees (spec.listed 44 span (spec.each_argument span (tree.arguments_of (map tree.argument_view all.now))) trailing)) }
    ensures limit { out.new.limit ≡ out.old.limit }
{
    for (i, item) in all.iter().enumerate() {
        if i > 0 {
            punct(out, ',', span)?;
        }
        write_argument(out, item, span)?;
    }
    punct_if(out, trailing, ',', span)
}

/// Adds `= Type`.
#[cycle(emit)]
fn write_equal_type<'a>(out: &mut TokenStream<'a>, ty: &Ty<'a>, span: Span) -> Made<()>
    ensures added { OnOk result (out.new.trees ≡ join out.old.trees (join (spec.punct 61 span) (spec.type_trees (tree.ty_view ty.now)))) }
    ensures limit { out.new.limit ≡ out.old.limit }
{
    punct(out, '=', span)?;
    write_type(out, ty)
}

/// Adds `= value`.
fn write_equal_const<'a>(out: &mut TokenStream<'a>, value: &ConstArg<'a>, span: Span) -> Made<()>
    ensures added { OnOk result (out.new.trees ≡ join out.old.trees (join (spec.punct 61 span) (spec.const_trees span value.now))) }
    ensures limit { out.new.limit ≡ out.old.limit }
{
    punct(out, '=', span)?;
    write_const(out, value, span)
}

#[cycle(emit)]
#[tactic(auto, using(crate::proofs::EmitArguments::argument_steps))]
fn write_argument<'a>(
    out: &mut TokenStream<'a>,
    argument: &GenericArgument<'a>,
    span: Span,
) -> Made<()>
    ensures added { OnOk result (out.new.trees ≡ join out.old.trees (spec.argument_trees span (tree.argument_view argument.now))) }
    ensures limit { out.new.limit ≡ out.old.limit }
{
    match argument {
        GenericArgument::Lifetime(name) => lifetime(out, name),
        GenericArgument::Ty(ty) => write_type(out, ty),
        GenericArgument::Const(value) => write_const(out, value, span),
        GenericArgument::AssocTy(label, arguments, ty) => {
            name(out, label)?;
            if let Some(all) = arguments {
                write_angle(out, all.items.as_slice(), all.trailing, span)?;
            }
            write_equal_type(out, ty, span)
        }
        GenericArgument::AssocConst(label, arguments, value) => {
            name(out, label)?;
            if let Some(all) = arguments {
                write_angle(out, all.items.as_slice(), all.trailing, span)?;
            }
            write_equal_const(out, value, span)
        }
        GenericArgument::Constraint(label, arguments, bounds) => {
            name(out, label)?;
            let items = bounds.items.as_slice();
            match arguments {
                None => write_constraint(out, items, bounds.trailing, span),
                Some(all) => {
                    write_angle(out, all.items.as_slice(), all.trailing, span)?;
                    write_constraint(out, items, bounds.trailing, span)
                }
            }
        }
    }
}

#[cycle(emit)]
fn write_constraint<'a>(
    out: &mut TokenStream<'a>,
    all: &[Bound<'a>],
    trailing: bool,
    span: Span,
) -> Made<()>
    ensures added { OnOk result (out.new.trees ≡ join out.old.trees (join (spec.punct 58 span) (spec.listed 43 span (spec.each_bound span (tree.bounds_of (map tree.bound_view all.now))) trailing))) }
    ensures limit { out.new.limit ≡ out.old.limit }
{
    punct(out, ':', span)?;
    write_bounds(out, all, trailing, span)
}

//! Paths and types.
#![tactic(auto, using(crate::proofs::Laying::print_steps))]

ghost use Rattle.std.specs.Prelude.{◌≡◌, map, OnOk, true};
ghost use Rattle.dm_ast.specs.Tree.{some_self, segment_view, self_view, arguments_view, maybe_self_view, segments_of};
ghost use Rattle.dm_ast.specs.TypeTokens as syntax;
ghost use Rattle.dm_output.specs.Tokens as spec;
ghost use Rattle.dm_print_types.specs.Prelude.{nowhere, ty_view, path_view, lay};

use crate::token::{joint, joint_if, name, stream};
use dm_ast::{Path, PathArguments, PathSegment, QSelf, Ty};
use dm_layout::{Layout, Printed};
use dm_output::PathExpr;
use dm_quote::{write_arguments, write_qualified, write_type};
use dm_stream::{Span, TokenStream};

pub fn ty(ty: &Ty<'_>, out: &mut Layout) -> Printed
    ensures { OnOk result (out.new ≡ lay out.old (syntax.type_trees (ty_view ty.now))) }
{
    let mut tokens = TokenStream::new(out.allocator());
    write_type(&mut tokens, ty)?;
    stream(out, &tokens)
}

pub fn path(path: &Path<'_>, out: &mut Layout) -> Printed
    ensures { OnOk result (out.new ≡ lay out.old (syntax.path_trees nowhere (path_view path.now))) }
{
    joint_if(out, path.leading_colon, ':', ':')?;
    segments(path.segments.as_slice(), out)
}

fn segments(all: &[PathSegment<'_>], out: &mut Layout) -> Printed
    ensures { OnOk result (out.new ≡ lay out.old (syntax.spaced (syntax.colons nowhere) true (syntax.each_segment nowhere (segments_of (map segment_view all.now))))) }
{
    for (i, one) in all.iter().enumerate() {
        if i > 0 {
            joint(out, ':', ':')?;
        }
        segment(one, out)?;
    }
    Ok(())
}

fn segment(segment: &PathSegment<'_>, out: &mut Layout) -> Printed
    ensures { OnOk result (out.new ≡ lay out.old (syntax.segment_trees nowhere (segment_view segment.now))) }
{
    name(out, &segment.ident)?;
    arguments(&segment.arguments, out)
}

fn arguments(arguments: &PathArguments<'_>, out: &mut Layout) -> Printed
    ensures { OnOk result (out.new ≡ lay out.old (syntax.arguments_trees nowhere (arguments_view arguments.now))) }
{
    if let PathArguments::Absent = arguments {
        return Ok(());
    }
    let mut tokens = TokenStream::new(out.allocator());
    write_arguments(&mut tokens, arguments, Span::nowhere())?;
    stream(out, &tokens)
}

pub fn path_expr(expr: &PathExpr<'_>, out: &mut Layout) -> Printed
    ensures { OnOk result (out.new ≡ lay out.old (spec.path_expr_trees (maybe_self_view expr.now.qself) (path_view expr.now.path))) }
{
    match &expr.qself {
        None => path(&expr.path, out),
        Some(qself) => qualified(qself, &expr.path, out),
    }
}

#[tactic(auto, using(crate::proofs::Qualified::qualified_steps))]
fn qualified<'a>(qself: &QSelf<'a>, path: &Path<'a>, out: &mut Layout) -> Printed
    ensures { OnOk result (out.new ≡ lay out.old (spec.path_expr_trees (some_self (self_view qself.now).0 (self_view qself.now).1) (path_view path.now))) }
{
    let mut tokens = TokenStream::new(out.allocator());
    let segments = path.segments.as_slice();
    write_qualified(
        &mut tokens,
        qself,
        path.leading_colon,
        segments,
        Span::nowhere(),
    )?;
    stream(out, &tokens)
}

//! Declarations to tokens.
#![tactic(auto, using(crate::proofs::DeclarationLists::declaration_steps))]

ghost use Rattle.std.specs.Prelude.{◌≡◌, OnOk, map, option_map, codes};
ghost use Rattle.dm_stream.specs.declared.tokens.Delim.TheVariants.{Brace};
ghost use Rattle.dm_stream.specs.Layout.{nowhere};
ghost use Rattle.dm_stream.specs.Trees.{join};
ghost use Rattle.dm_ast.specs.declared.decl.GenericParam.TheVariants as params;
ghost use Rattle.dm_ast.specs.Tree.{bound_view, ty_view};
ghost use Rattle.dm_ast.specs.TypeTokens as types;
ghost use Rattle.dm_ast.specs.Declarations as tree;
ghost use Rattle.dm_ast.specs.DeclarationTokens as spec;

use crate::emit::{write_bounds, write_type};
use crate::emit_parts::{
    Item, Separator, append, group, lifetime, name, punct, word, write_attributes, write_const,
    write_for, write_input_name, write_list, write_plain,
};
use dm_ast::{
    Bound, ConstArg, ConstParam, Data, DeriveInput, Field, Fields, GenericParam, Generics,
    LifetimeParam, Opaque, Ty, TyParam, Variant, Vis, WherePredicate,
};
use dm_stream::{Delim, Ident, Lifetime, Made, Punctuated, Span, TokenStream};
use std::alloc::AllocError;

fn write_vis<'a>(out: &mut TokenStream<'a>, vis: &Option<Vis<'a>>, span: Span) -> Made<()>
    ensures added { OnOk result (out.new.trees ≡ join out.old.trees (spec.vis_trees span vis.now)) }
    ensures limit { out.new.limit ≡ out.old.limit }
{
    match vis {
        None => Ok(()),
        Some(vis) => {
            word(out, "pub", span)?;
            write_reach(out, vis, span)
        }
    }
}

/// Adds what stands behind `pub`.
fn write_reach<'a>(out: &mut TokenStream<'a>, vis: &Vis<'a>, span: Span) -> Made<()>
    ensures added { OnOk result (out.new.trees ≡ join out.old.trees (spec.reach_trees span vis.now)) }
    ensures limit { out.new.limit ≡ out.old.limit }
{
    let mut inside = TokenStream::new(out.allocator());
    match vis {
        Vis::Public => return Ok(()),
        Vis::Crate => word(&mut inside, "crate", span)?,
        Vis::SelfOnly => word(&mut inside, "self", span)?,
        Vis::Super => word(&mut inside, "super", span)?,
        Vis::In(path) => {
            word(&mut inside, "in", span)?;
            write_plain(&mut inside, path, span)?;
        }
    }
    group(out, Delim::Paren, inside)
}

fn write_outlived<'a>(
    out: &mut TokenStream<'a>,
    bounds: &Option<Punctuated<Lifetime<'a>>>,
) -> Made<()>
    ensures added { OnOk result (out.new.trees ≡ join out.old.trees (spec.outlived_trees bounds.now)) }
    ensures limit { out.new.limit ≡ out.old.limit }
{
    match bounds {
        None => Ok(()),
        Some(all) => {
            punct(out, ':', Span::nowhere())?;
            write_list(out, all, Separator::Plus, Span::nowhere())
        }
    }
}

fn write_colon_bounds<'a>(
    out: &mut TokenStream<'a>,
    bounds: &Option<Punctuated<Bound<'a>>>,
) -> Made<()>
    ensures added { OnOk result (out.new.trees ≡ join out.old.trees (spec.colon_bounds_trees (option_map (tree.listed bound_view) bounds.now))) }
    ensures limit { out.new.limit ≡ out.old.limit }
{
    match bounds {
        None => Ok(()),
        Some(all) => {
            punct(out, ':', Span::nowhere())?;
            write_bounds(out, all.items.as_slice(), all.trailing, Span::nowhere())
        }
    }
}

fn write_default_type<'a>(out: &mut TokenStream<'a>, default_ty: &Option<Ty<'a>>) -> Made<()>
    ensures added { OnOk result (out.new.trees ≡ join out.old.trees (spec.default_type_trees (option_map ty_view default_ty.now))) }
    ensures limit { out.new.limit ≡ out.old.limit }
{
    match default_ty {
        None => Ok(()),
        Some(ty) => {
            punct(out, '=', Span::nowhere())?;
            write_type(out, ty)
        }
    }
}

fn write_default_const<'a>(
    out: &mut TokenStream<'a>,
    default_value: &Option<ConstArg<'a>>,
) -> Made<()>
    ensures added { OnOk result (out.new.trees ≡ join out.old.trees (spec.default_const_trees default_value.now)) }
    ensures limit { out.new.limit ≡ out.old.limit }
{
    match default_value {
        None => Ok(()),
        Some(value) => {
            punct(out, '=', Span::nowhere())?;
            write_const(out, value, Span::nowhere())
        }
    }
}

fn write_lifetime_param<'a>(out: &mut TokenStream<'a>, param: &LifetimeParam<'a>) -> Made<()>
    ensures added { OnOk result (out.new.trees ≡ join out.old.trees (spec.param_trees (tree.param_view (params.Lifetime param.now)))) }
    ensures limit { out.new.limit ≡ out.old.limit }
{
    write_attributes(out, param.attrs.as_slice())?;
    lifetime(out, &param.lifetime)?;
    write_outlived(out, &param.bounds)
}

fn write_type_param<'a>(out: &mut TokenStream<'a>, param: &TyParam<'a>) -> Made<()>
    ensures added { OnOk result (out.new.trees ≡ join out.old.trees (spec.param_trees (tree.param_view (params.Ty param.now)))) }
    ensures limit { out.new.limit ≡ out.old.limit }
{
    write_attributes(out, param.attrs.as_slice())?;
    name(out, &param.ident)?;
    write_colon_bounds(out, &param.bounds)?;
    write_default_type(out, &param.default_ty)
}

fn write_const_param<'a>(out: &mut TokenStream<'a>, param: &ConstParam<'a>) -> Made<()>
    ensures added { OnOk result (out.new.trees ≡ join out.old.trees (spec.param_trees (tree.param_view (params.Const param.now)))) }
    ensures limit { out.new.limit ≡ out.old.limit }
{
    write_attributes(out, param.attrs.as_slice())?;
    word(out, "const", Span::nowhere())?;
    name(out, &param.ident)?;
    punct(out, ':', Span::nowhere())?;
    write_type(out, &param.ty)?;
    write_default_const(out, &param.default_value)
}

impl<'a> Item<'a> for GenericParam<'a> {
    ghost trees_of = { λ x. spec.param_trees (tree.param_view x) };

    fn write(&self, out: &mut TokenStream<'a>) -> Result<(), AllocError> {
        match self {
            GenericParam::Lifetime(param) => write_lifetime_param(out, param),
            GenericParam::Ty(param) => write_type_param(out, param),
            GenericParam::Const(param) => write_const_param(out, param),
        }
    }
}

fn write_params<'a>(out: &mut TokenStream<'a>, generics: &Generics<'a>) -> Made<()>
    ensures added { OnOk result (out.new.trees ≡ join out.old.trees (spec.params_trees (tree.generics_view generics.now))) }
    ensures limit { out.new.limit ≡ out.old.limit }
{
    if !generics.angled {
        return Ok(());
    }
    punct(out, '<', Span::nowhere())?;
    write_list(out, &generics.params, Separator::Comma, Span::nowhere())?;
    punct(out, '>', Span::nowhere())
}

impl<'a> Item<'a> for WherePredicate<'a> {
    ghost trees_of = { λ x. spec.predicate_trees (tree.predicate_view x) };

    fn write(&self, out: &mut TokenStream<'a>) -> Result<(), AllocError> {
        match self {
            WherePredicate::Lifetime(name, all) => {
                lifetime(out, name)?;
                punct(out, ':', Span::nowhere())?;
                write_list(out, all, Separator::Plus, Span::nowhere())
            }
            WherePredicate::Ty(lifetimes, ty, all) => {
                write_for(out, lifetimes, Span::nowhere())?;
                write_type(out, ty)?;
                punct(out, ':', Span::nowhere())?;
                write_bounds(out, all.items.as_slice(), all.trailing, Span::nowhere())
            }
        }
    }
}

fn write_where<'a>(
    out: &mut TokenStream<'a>,
    clause: &Option<Punctuated<WherePredicate<'a>>>,
) -> Made<()>
    ensures added { OnOk result (out.new.trees ≡ join out.old.trees (spec.where_trees (option_map (tree.listed tree.predicate_view) clause.now))) }
    ensures limit { out.new.limit ≡ out.old.limit }
{
    match clause {
        None => Ok(()),
        Some(all) => {
            word(out, "where", Span::nowhere())?;
            write_list(out, all, Separator::Comma, Span::nowhere())
        }
    }
}

impl<'a> Item<'a> for Field<'a> {
    ghost trees_of = { λ x. spec.field_trees (tree.field_view x) };

    fn write(&self, out: &mut TokenStream<'a>) -> Result<(), AllocError> {
        write_attributes(out, self.attrs.as_slice())?;
        write_vis(out, &self.vis, self.span)?;
        write_input_name(out, &self.ident, self.span)?;
        write_type(out, &self.ty)
    }
}

/// Adds fields between two delimiters.
fn write_enclosed_fields<'a>(
    out: &mut TokenStream<'a>,
    delim: Delim,
    fields: &Punctuated<Field<'a>>,
) -> Made<()>
    ensures added { OnOk result (out.new.trees ≡ join out.old.trees (types.grouped delim (spec.field_list_trees (tree.listed tree.field_view fields.now)))) }
    ensures limit { out.new.limit ≡ out.old.limit }
{
    let mut inside = TokenStream::new(out.allocator());
    write_list(&mut inside, fields, Separator::Comma, Span::nowhere())?;
    group(out, delim, inside)
}

fn write_fields<'a>(out: &mut TokenStream<'a>, fields: &Fields<'a>) -> Made<()>
    ensures added { OnOk result (out.new.trees ≡ join out.old.trees (spec.fields_trees (tree.fields_view fields.now))) }
    ensures limit { out.new.limit ≡ out.old.limit }
{
    match fields {
        Fields::Named(all) => write_enclosed_fields(out, Delim::Brace, all),
        Fields::Unnamed(all) => write_enclosed_fields(out, Delim::Paren, all),
        Fields::Unit => Ok(()),
    }
}

fn write_discriminant<'a>(
    out: &mut TokenStream<'a>,
    discriminant: &Option<Opaque<'a>>,
    span: Span,
) -> Made<()>
    ensures added { OnOk result (out.new.trees ≡ join out.old.trees (spec.discriminant_trees span discriminant.now)) }
    ensures limit { out.new.limit ≡ out.old.limit }
{
    match discriminant {
        None => Ok(()),
        Some(value) => {
            punct(out, '=', span)?;
            append(out, &value.tokens)
        }
    }
}

impl<'a> Item<'a> for Variant<'a> {
    ghost trees_of = { λ x. spec.variant_trees (tree.variant_view x) };

    fn write(&self, out: &mut TokenStream<'a>) -> Result<(), AllocError> {
        write_attributes(out, self.attrs.as_slice())?;
        write_vis(out, &self.vis, self.span)?;
        name(out, &self.ident)?;
        write_fields(out, &self.fields)?;
        write_discriminant(out, &self.discriminant, self.span)
    }
}

fn write_enclosed_variants<'a>(
    out: &mut TokenStream<'a>,
    variants: &Punctuated<Variant<'a>>,
) -> Made<()>
    ensures added { OnOk result (out.new.trees ≡ join out.old.trees (types.grouped Brace (spec.variant_list_trees (tree.listed tree.variant_view variants.now)))) }
    ensures limit { out.new.limit ≡ out.old.limit }
{
    let mut inside = TokenStream::new(out.allocator());
    write_list(&mut inside, variants, Separator::Comma, Span::nowhere())?;
    group(out, Delim::Brace, inside)
}

/// Adds what stands behind the parameters of a struct.
fn write_struct_body<'a>(
    out: &mut TokenStream<'a>,
    clause: &Option<Punctuated<WherePredicate<'a>>>,
    fields: &Fields<'a>,
) -> Made<()>
    ensures added { OnOk result (out.new.trees ≡ join out.old.trees (spec.struct_body_trees (option_map (tree.listed tree.predicate_view) clause.now) (tree.fields_view fields.now))) }
    ensures limit { out.new.limit ≡ out.old.limit }
{
    match fields {
        Fields::Named(all) => {
            write_where(out, clause)?;
            write_enclosed_fields(out, Delim::Brace, all)
        }
        Fields::Unnamed(all) => {
            write_enclosed_fields(out, Delim::Paren, all)?;
            write_where(out, clause)?;
            punct(out, ';', Span::nowhere())
        }
        Fields::Unit => {
            write_where(out, clause)?;
            punct(out, ';', Span::nowhere())
        }
    }
}

/// Adds the word of a declaration, its name and its parameters.
fn write_head<'a>(
    out: &mut TokenStream<'a>,
    text: &'static str,
    range: Span,
    ident: &Ident<'a>,
    generics: &Generics<'a>,
) -> Made<()>
    ensures added { OnOk result (out.new.trees ≡ join out.old.trees (spec.head_trees text.now range ident.now (tree.generics_view generics.now))) }
    ensures limit { out.new.limit ≡ out.old.limit }
{
    word(out, text, range)?;
    name(out, ident)?;
    write_params(out, generics)
}

fn write_shape<'a>(
    out: &mut TokenStream<'a>,
    ident: &Ident<'a>,
    generics: &Generics<'a>,
    shape: &Data<'a>,
) -> Made<()>
    ensures added { OnOk result (out.new.trees ≡ join out.old.trees (spec.shape_trees ident.now (tree.generics_view generics.now) (tree.shape_view shape.now))) }
    ensures limit { out.new.limit ≡ out.old.limit }
{
    match shape {
        Data::Struct(data) => {
            write_head(out, "struct", data.word, ident, generics)?;
            write_struct_body(out, &generics.where_clause, &data.fields)
        }
        Data::Enum(data) => {
            write_head(out, "enum", data.word, ident, generics)?;
            write_where(out, &generics.where_clause)?;
            write_enclosed_variants(out, &data.variants)
        }
        Data::Union(data) => {
            write_head(out, "union", data.word, ident, generics)?;
            write_where(out, &generics.where_clause)?;
            write_enclosed_fields(out, Delim::Brace, &data.fields)
        }
    }
}

/// Adds a declaration.
pub fn write_declaration<'a>(
    out: &mut TokenStream<'a>,
    input: &DeriveInput<'a>,
) -> Result<(), AllocError>
    ensures added { OnOk result (out.new.trees ≡ join out.old.trees (spec.declaration_trees (tree.declaration_view input.now))) }
    ensures limit { out.new.limit ≡ out.old.limit }
{
    write_attributes(out, input.attrs.as_slice())?;
    write_vis(out, &input.vis, Span::nowhere())?;
    write_shape(out, &input.ident, &input.generics, &input.shape)
}

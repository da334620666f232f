//! Copies of declarations.
#![tactic(auto, using(crate::proofs::Copies::part_steps))]

ghost use Rattle.std.specs.Prelude.{◌≡◌, IfOk, option_map};
ghost use Rattle.dm_ast.specs.Tree.{bound_view, ty_view};
ghost use Rattle.dm_ast.specs.Declarations as tree;
ghost use Rattle.dm_copy.specs.Replaced as spec;
ghost use Rattle.dm_copy.specs.Unreplaced.{
  declaration_same,
  enum_same,
  field_same,
  fields_same,
  generics_same,
  param_same,
  predicate_same,
  shape_same,
  struct_same,
  union_same,
  variant_same,
};

use crate::clone_in::CloneIn;
use crate::joined::both;
use crate::self_type::SelfType;
use dm_ast::{
    ConstParam, Data, DataEnum, DataStruct, DataUnion, DeriveInput, Field, Fields, GenericParam,
    Generics, LifetimeParam, TyParam, Variant, WherePredicate,
};
use std::alloc::{AllocError, Global};

impl<'a> CloneIn for DeriveInput<'a> {
    ghost use Rattle.dm_ast.specs.Declarations.{Declaration};

    ghost Shape = { Declaration };

    ghost shape = { tree.declaration_view };

    ghost replaced = { spec.replaced_declaration };

    ghost same = { declaration_same };

    fn replace_self(&self, own: Option<&SelfType>, alloc: Global) -> Result<Self, AllocError> {
        let generics = self.generics.replace_self(own, alloc);
        let shape = self.shape.replace_self(own, alloc);
        let attrs = self.attrs.clone_in(alloc);
        let vis = self.vis.clone_in(alloc);
        let ident = self.ident.clone_in(alloc);
        let (((attrs, vis), ident), (generics, shape)) = both(
            both(both(attrs, vis), ident),
            both(generics, shape),
        )?;
        Ok(DeriveInput {
            attrs,
            vis,
            ident,
            generics,
            shape,
        })
    }
}

impl<'a> CloneIn for Data<'a> {
    ghost use Rattle.dm_ast.specs.Declarations.{ShapeTree};

    ghost Shape = { ShapeTree };

    ghost shape = { tree.shape_view };

    ghost replaced = { spec.replaced_shape };

    ghost same = { shape_same };

    fn replace_self(&self, own: Option<&SelfType>, alloc: Global) -> Result<Self, AllocError> {
        match self {
            Data::Struct(data) => Ok(Data::Struct(data.replace_self(own, alloc)?)),
            Data::Enum(data) => Ok(Data::Enum(data.replace_self(own, alloc)?)),
            Data::Union(data) => Ok(Data::Union(data.replace_self(own, alloc)?)),
        }
    }
}

impl<'a> CloneIn for DataStruct<'a> {
    ghost use Rattle.dm_stream.specs.declared.tokens.Span.{Span};
    ghost use Rattle.dm_ast.specs.Declarations.{FieldsTree};

    ghost Shape = { Span × FieldsTree };

    ghost shape = { λ s. (s.word, tree.fields_view s.fields) };

    ghost replaced = { λ own s. (s.0, spec.replaced_fields own s.1) };

    ghost same = { struct_same };

    fn replace_self(&self, own: Option<&SelfType>, alloc: Global) -> Result<Self, AllocError> {
        let fields = self.fields.replace_self(own, alloc)?;
        Ok(DataStruct {
            word: self.word,
            fields,
        })
    }
}

impl<'a> CloneIn for DataEnum<'a> {
    ghost use Rattle.dm_stream.specs.declared.tokens.Span.{Span};
    ghost use Rattle.dm_ast.specs.Declarations.{Listed, VariantTree};

    ghost Shape = { Span × Listed VariantTree };

    ghost shape = { λ e. (e.word, tree.listed tree.variant_view e.variants) };

    ghost replaced = { λ own e. (e.0, spec.each (spec.replaced_variant own) e.1) };

    ghost same = { enum_same };

    fn replace_self(&self, own: Option<&SelfType>, alloc: Global) -> Result<Self, AllocError> {
        let variants = self.variants.replace_self(own, alloc)?;
        Ok(DataEnum {
            word: self.word,
            variants,
        })
    }
}

impl<'a> CloneIn for DataUnion<'a> {
    ghost use Rattle.dm_stream.specs.declared.tokens.Span.{Span};
    ghost use Rattle.dm_ast.specs.Declarations.{Listed, FieldTree};

    ghost Shape = { Span × Listed FieldTree };

    ghost shape = { λ u. (u.word, tree.listed tree.field_view u.fields) };

    ghost replaced = { λ own u. (u.0, spec.each (spec.replaced_field own) u.1) };

    ghost same = { union_same };

    fn replace_self(&self, own: Option<&SelfType>, alloc: Global) -> Result<Self, AllocError> {
        let fields = self.fields.replace_self(own, alloc)?;
        Ok(DataUnion {
            word: self.word,
            fields,
        })
    }
}

impl<'a> CloneIn for Fields<'a> {
    ghost use Rattle.dm_ast.specs.Declarations.{FieldsTree};

    ghost Shape = { FieldsTree };

    ghost shape = { tree.fields_view };

    ghost replaced = { spec.replaced_fields };

    ghost same = { fields_same };

    fn replace_self(&self, own: Option<&SelfType>, alloc: Global) -> Result<Self, AllocError> {
        match self {
            Fields::Named(all) => Ok(Fields::Named(all.replace_self(own, alloc)?)),
            Fields::Unnamed(all) => Ok(Fields::Unnamed(all.replace_self(own, alloc)?)),
            Fields::Unit => Ok(Fields::Unit),
        }
    }
}

impl<'a> CloneIn for Field<'a> {
    ghost use Rattle.dm_ast.specs.Declarations.{FieldTree};

    ghost Shape = { FieldTree };

    ghost shape = { tree.field_view };

    ghost replaced = { spec.replaced_field };

    ghost same = { field_same };

    fn replace_self(&self, own: Option<&SelfType>, alloc: Global) -> Result<Self, AllocError> {
        let ty = self.ty.replace_self(own, alloc);
        let attrs = self.attrs.clone_in(alloc);
        let vis = self.vis.clone_in(alloc);
        let ident = self.ident.clone_in(alloc);
        let ((attrs, vis), (ident, ty)) = both(both(attrs, vis), both(ident, ty))?;
        Ok(Field {
            attrs,
            vis,
            ident,
            ty,
            span: self.span,
        })
    }
}

impl<'a> CloneIn for Variant<'a> {
    ghost use Rattle.dm_ast.specs.Declarations.{VariantTree};

    ghost Shape = { VariantTree };

    ghost shape = { tree.variant_view };

    ghost replaced = { spec.replaced_variant };

    ghost same = { variant_same };

    fn replace_self(&self, own: Option<&SelfType>, alloc: Global) -> Result<Self, AllocError> {
        let fields = self.fields.replace_self(own, alloc);
        let attrs = self.attrs.clone_in(alloc);
        let vis = self.vis.clone_in(alloc);
        let ident = self.ident.clone_in(alloc);
        let discriminant = self.discriminant.clone_in(alloc);
        let (((attrs, vis), ident), (fields, discriminant)) = both(
            both(both(attrs, vis), ident),
            both(fields, discriminant),
        )?;
        Ok(Variant {
            attrs,
            vis,
            ident,
            fields,
            discriminant,
            span: self.span,
        })
    }
}

impl<'a> CloneIn for Generics<'a> {
    ghost use Rattle.dm_ast.specs.Declarations.{GenericsTree};

    ghost Shape = { GenericsTree };

    ghost shape = { tree.generics_view };

    ghost replaced = { spec.replaced_generics };

    ghost same = { generics_same };

    fn replace_self(&self, own: Option<&SelfType>, alloc: Global) -> Result<Self, AllocError> {
        let params = self.params.replace_self(own, alloc);
        let (params, where_clause) = both(params, self.where_clause.replace_self(own, alloc))?;
        Ok(Generics {
            angled: self.angled,
            params,
            where_clause,
        })
    }
}

impl<'a> CloneIn for GenericParam<'a> {
    ghost use Rattle.dm_ast.specs.Declarations.{ParamTree};

    ghost Shape = { ParamTree };

    ghost shape = { tree.param_view };

    ghost replaced = { spec.replaced_param };

    ghost same = { param_same };

    fn replace_self(&self, own: Option<&SelfType>, alloc: Global) -> Result<Self, AllocError> {
        match self {
            GenericParam::Lifetime(param) => Ok(GenericParam::Lifetime(param.replace_self(
                own, alloc,
            )?)),
            GenericParam::Ty(param) => Ok(GenericParam::Ty(param.replace_self(own, alloc)?)),
            GenericParam::Const(param) => Ok(GenericParam::Const(param.replace_self(own, alloc)?)),
        }
    }
}

impl<'a> CloneIn for LifetimeParam<'a> {
    ghost use Rattle.dm_ast.specs.Declarations.{ParamTree, lifetime_param};

    ghost Shape = { ParamTree };

    ghost shape = { λ p. lifetime_param p.attrs p.lifetime p.bounds };

    ghost replaced = { spec.replaced_param };

    ghost same = { param_same };

    fn replace_self(&self, _own: Option<&SelfType>, alloc: Global) -> Result<Self, AllocError> {
        let attrs = self.attrs.clone_in(alloc);
        let lifetime = self.lifetime.clone_in(alloc);
        let bounds = self.bounds.clone_in(alloc);
        let ((attrs, lifetime), bounds) = both(both(attrs, lifetime), bounds)?;
        Ok(LifetimeParam {
            attrs,
            lifetime,
            bounds,
        })
    }
}

impl<'a> CloneIn for TyParam<'a> {
    ghost use Rattle.dm_ast.specs.Declarations.{ParamTree, type_param};

    ghost Shape = { ParamTree };

    ghost shape = { λ p. type_param p.attrs p.ident (option_map (tree.listed bound_view) p.bounds) (option_map ty_view p.default_ty) };

    ghost replaced = { spec.replaced_param };

    ghost same = { param_same };

    fn replace_self(&self, own: Option<&SelfType>, alloc: Global) -> Result<Self, AllocError> {
        let bounds = self.bounds.replace_self(own, alloc);
        let default_ty = self.default_ty.replace_self(own, alloc);
        let attrs = self.attrs.clone_in(alloc);
        let ident = self.ident.clone_in(alloc);
        let ((attrs, ident), (bounds, default_ty)) = both(
            both(attrs, ident),
            both(bounds, default_ty),
        )?;
        Ok(TyParam {
            attrs,
            ident,
            bounds,
            default_ty,
        })
    }
}

impl<'a> CloneIn for ConstParam<'a> {
    ghost use Rattle.dm_ast.specs.Declarations.{ParamTree, const_param};

    ghost Shape = { ParamTree };

    ghost shape = { λ p. const_param p.attrs p.ident (ty_view p.ty) p.default_value };

    ghost replaced = { spec.replaced_param };

    ghost same = { param_same };

    fn replace_self(&self, own: Option<&SelfType>, alloc: Global) -> Result<Self, AllocError> {
        let ty = self.ty.replace_self(own, alloc);
        let attrs = self.attrs.clone_in(alloc);
        let ident = self.ident.clone_in(alloc);
        let default_value = self.default_value.clone_in(alloc);
        let ((attrs, ident), (ty, default_value)) = both(
            both(attrs, ident),
            both(ty, default_value),
        )?;
        Ok(ConstParam {
            attrs,
            ident,
            ty,
            default_value,
        })
    }
}

impl<'a> CloneIn for WherePredicate<'a> {
    ghost use Rattle.dm_ast.specs.Declarations.{PredicateTree};

    ghost Shape = { PredicateTree };

    ghost shape = { tree.predicate_view };

    ghost replaced = { spec.replaced_predicate };

    ghost same = { predicate_same };

    fn replace_self(&self, own: Option<&SelfType>, alloc: Global) -> Result<Self, AllocError> {
        match self {
            WherePredicate::Lifetime(lifetime, bounds) => {
                let bounds = bounds.clone_in(alloc);
                let (lifetime, bounds) = both(lifetime.clone_in(alloc), bounds)?;
                Ok(WherePredicate::Lifetime(lifetime, bounds))
            }
            WherePredicate::Ty(lifetimes, ty, bounds) => {
                let ty = ty.replace_self(own, alloc);
                let bounds = bounds.replace_self(own, alloc);
                let lifetimes = lifetimes.clone_in(alloc);
                let (lifetimes, (ty, bounds)) = both(lifetimes, both(ty, bounds))?;
                Ok(WherePredicate::Ty(lifetimes, ty, bounds))
            }
        }
    }
}

//! Declarations.

use crate::plain::{Attribute, ConstArg, Opaque, Vis};
use crate::ty::{Bound, Ty};
use dm_stream::{Ident, Lifetime, Punctuated, Seq, Span};

/// A declaration of a struct, an enum or a union (Rust Reference, Items). `vis` is absent for a private one.
pub struct DeriveInput<'a> {
    pub attrs: Seq<Attribute<'a>>,
    pub vis: Option<Vis<'a>>,
    pub ident: Ident<'a>,
    pub generics: Generics<'a>,
    pub shape: Data<'a>,
}

impl Drop for DeriveInput<'_> {
    fn drop(self) {
        let Self {
            attrs: _,
            vis: _,
            ident: _,
            generics: _,
            shape: _,
        } = self;
    }
}

/// What is declared.
pub enum Data<'a> {
    Struct(DataStruct<'a>),
    Enum(DataEnum<'a>),
    Union(DataUnion<'a>),
}

impl Drop for Data<'_> {
    fn drop(self) {
        match self {
            Self::Struct(_) => {}
            Self::Enum(_) => {}
            Self::Union(_) => {}
        }
    }
}

/// A struct. `word` is the range of the keyword `struct`.
#[derive(Drop)]
pub struct DataStruct<'a> {
    pub word: Span,
    pub fields: Fields<'a>,
}

/// An enum. `word` is the range of the keyword `enum`.
#[derive(Drop)]
pub struct DataEnum<'a> {
    pub word: Span,
    pub variants: Punctuated<Variant<'a>>,
}

/// A union, whose fields all have names. `word` is the range of the word `union`.
#[derive(Drop)]
pub struct DataUnion<'a> {
    pub word: Span,
    pub fields: Punctuated<Field<'a>>,
}

/// The fields of a struct or a variant: in braces, in parentheses, or none at all.
pub enum Fields<'a> {
    Named(Punctuated<Field<'a>>),
    Unnamed(Punctuated<Field<'a>>),
    Unit,
}

impl Drop for Fields<'_> {
    fn drop(self) {
        match self {
            Self::Named(_) => {}
            Self::Unnamed(_) => {}
            Self::Unit => {}
        }
    }
}

/// A field. `ident` is absent in parentheses. The range goes from the first attribute to the last token of the type.
pub struct Field<'a> {
    pub attrs: Seq<Attribute<'a>>,
    pub vis: Option<Vis<'a>>,
    pub ident: Option<Ident<'a>>,
    pub ty: Ty<'a>,
    pub span: Span,
}

impl Drop for Field<'_> {
    fn drop(self) {
        let Self {
            attrs: _,
            vis: _,
            ident: _,
            ty: _,
            span: _,
        } = self;
    }
}

/// A variant of an enum. `discriminant` holds the tokens after its `=`, the last punct joint to nothing. The range goes from the
/// first attribute to the last token.
pub struct Variant<'a> {
    pub attrs: Seq<Attribute<'a>>,
    pub vis: Option<Vis<'a>>,
    pub ident: Ident<'a>,
    pub fields: Fields<'a>,
    pub discriminant: Option<Opaque<'a>>,
    pub span: Span,
}

impl Drop for Variant<'_> {
    fn drop(self) {
        let Self {
            attrs: _,
            vis: _,
            ident: _,
            fields: _,
            discriminant: _,
            span: _,
        } = self;
    }
}

/// Parameters and `where` predicates. `angled` says whether `<` and `>` stand there, which they may do around no parameter.
/// `where_clause` is absent where the word `where` is; after the word there may be no predicate.
pub struct Generics<'a> {
    pub angled: bool,
    pub params: Punctuated<GenericParam<'a>>,
    pub where_clause: Option<Punctuated<WherePredicate<'a>>>,
}

impl Drop for Generics<'_> {
    fn drop(self) {
        let Self {
            angled: _,
            params: _,
            where_clause: _,
        } = self;
    }
}

/// A generic parameter.
pub enum GenericParam<'a> {
    Lifetime(LifetimeParam<'a>),
    Ty(TyParam<'a>),
    Const(ConstParam<'a>),
}

impl Drop for GenericParam<'_> {
    fn drop(self) {
        match self {
            Self::Lifetime(_) => {}
            Self::Ty(_) => {}
            Self::Const(_) => {}
        }
    }
}

/// `'a`, or with bounds `'a: 'b + 'c`. `bounds` is absent where the colon is.
pub struct LifetimeParam<'a> {
    pub attrs: Seq<Attribute<'a>>,
    pub lifetime: Lifetime<'a>,
    pub bounds: Option<Punctuated<Lifetime<'a>>>,
}

impl Drop for LifetimeParam<'_> {
    fn drop(self) {
        let Self {
            attrs: _,
            lifetime: _,
            bounds: _,
        } = self;
    }
}

/// `T`, with bounds `T: A + B`, with a default `T = U`. `bounds` is absent where the colon is.
pub struct TyParam<'a> {
    pub attrs: Seq<Attribute<'a>>,
    pub ident: Ident<'a>,
    pub bounds: Option<Punctuated<Bound<'a>>>,
    pub default_ty: Option<Ty<'a>>,
}

impl Drop for TyParam<'_> {
    fn drop(self) {
        let Self {
            attrs: _,
            ident: _,
            bounds: _,
            default_ty: _,
        } = self;
    }
}

/// `const N: T`, or with a default `const N: T = V`.
pub struct ConstParam<'a> {
    pub attrs: Seq<Attribute<'a>>,
    pub ident: Ident<'a>,
    pub ty: Ty<'a>,
    pub default_value: Option<ConstArg<'a>>,
}

impl Drop for ConstParam<'_> {
    fn drop(self) {
        let Self {
            attrs: _,
            ident: _,
            ty: _,
            default_value: _,
        } = self;
    }
}

/// A predicate of a `where` clause: `'a: 'b + 'c`, or `T: A + B` with a `for<..>` before it or none.
pub enum WherePredicate<'a> {
    Lifetime(Lifetime<'a>, Punctuated<Lifetime<'a>>),
    Ty(Option<Punctuated<Lifetime<'a>>>, Ty<'a>, Punctuated<Bound<'a>>),
}

impl Drop for WherePredicate<'_> {
    fn drop(self) {
        match self {
            Self::Lifetime(_, _) => {}
            Self::Ty(_, _, _) => {}
        }
    }
}

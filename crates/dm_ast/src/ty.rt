//! Types.

ghost use Rattle.std.specs.Prelude.{◌≡◌};

use crate::plain::{Attribute, ConstArg, Opaque, PlainPath};
use dm_stream::{Delim, Ident, Lifetime, Literal, Punctuated, Seq, Span, TokenStream};

/// A type, with the range from its first to its last token.
#[cycle(ty)]
pub struct Ty<'a> {
    pub node: TyNode<'a>,
    pub span: Span,
}

impl Drop for Ty<'_> {
    #[cycle(ty)]
    fn drop(self) {
        let Self { node: _, span: _ } = self;
    }
}

impl<'a> Ty<'a> {
    /// What it is, without its range.
    pub fn into_node(self) -> TyNode<'a>
        ensures { result ≡ self.entry.node }
    {
        let Self { node, span: _ } = self;
        node
    }
}

/// What a type is (Rust Reference, Types): `(T)`, `(T, U)`, `[T]`, `[T; N]` with the tokens of its length, `&'a mut T`,
/// `*const T` or `*mut T`, a function type, `dyn A + B`, `impl A + B`, `_`, `!`, a path, and a macro call, which holds the
/// tokens between its delimiters. The truth value of a reference and of a pointer says whether `mut` stands there.
#[cycle(ty)]
#[derive(Drop)]
pub enum TyNode<'a> {
    Paren(Box<Ty<'a>>),
    Tuple(Punctuated<Ty<'a>>),
    Slice(Box<Ty<'a>>),
    Array(Box<Ty<'a>>, Opaque<'a>),
    Reference(Option<Lifetime<'a>>, bool, Box<Ty<'a>>),
    Pointer(bool, Box<Ty<'a>>),
    BareFn(Box<BareFn<'a>>),
    TraitObject(Punctuated<Bound<'a>>),
    ImplTrait(Punctuated<Bound<'a>>),
    Infer,
    Never,
    Path(Option<Box<QSelf<'a>>>, Path<'a>),
    Macro(PlainPath<'a>, Delim, TokenStream<'a>),
}

/// A bound: a lifetime or a trait.
#[cycle(ty)]
pub enum Bound<'a> {
    Lifetime(Lifetime<'a>),
    Trait(TraitBound<'a>),
}

impl Drop for Bound<'_> {
    #[cycle(ty)]
    fn drop(self) {
        match self {
            Self::Lifetime(_) => {}
            Self::Trait(_) => {}
        }
    }
}

/// A trait as a bound. `parens` says whether it stands in parentheses, `maybe` whether `?` stands before it; `lifetimes` are those
/// of its `for<..>`.
#[cycle(ty)]
pub struct TraitBound<'a> {
    pub parens: bool,
    pub maybe: bool,
    pub lifetimes: Option<Punctuated<Lifetime<'a>>>,
    pub path: Path<'a>,
}

impl Drop for TraitBound<'_> {
    #[cycle(ty)]
    fn drop(self) {
        let Self {
            parens: _,
            maybe: _,
            lifetimes: _,
            path: _,
        } = self;
    }
}

/// A function type. `abi` is absent without `extern`, and holds nothing where `extern` has no name behind it. `output` is the
/// type after `->`.
#[cycle(ty)]
pub struct BareFn<'a> {
    pub lifetimes: Option<Punctuated<Lifetime<'a>>>,
    pub is_unsafe: bool,
    pub abi: Option<Option<Literal<'a>>>,
    pub inputs: Punctuated<FnArg<'a>>,
    pub output: Option<Ty<'a>>,
}

impl Drop for BareFn<'_> {
    #[cycle(ty)]
    fn drop(self) {
        let Self {
            lifetimes: _,
            is_unsafe: _,
            abi: _,
            inputs: _,
            output: _,
        } = self;
    }
}

/// A parameter of a function type, which may have a name.
#[cycle(ty)]
pub struct FnArg<'a> {
    pub attrs: Seq<Attribute<'a>>,
    pub name: Option<Ident<'a>>,
    pub ty: Ty<'a>,
}

impl Drop for FnArg<'_> {
    #[cycle(ty)]
    fn drop(self) {
        let Self {
            attrs: _,
            name: _,
            ty: _,
        } = self;
    }
}

/// The type in `<T as A::B>::C`. `position` counts the segments of the path that stand before `>`, which is 0 without `as`.
#[cycle(ty)]
pub struct QSelf<'a> {
    pub ty: Ty<'a>,
    pub position: usize,
}

impl Drop for QSelf<'_> {
    #[cycle(ty)]
    fn drop(self) {
        let Self { ty: _, position: _ } = self;
    }
}

/// A path. `leading_colon` says whether `::` stands before its first segment.
#[cycle(ty)]
#[derive(Drop)]
pub struct Path<'a> {
    pub leading_colon: bool,
    pub segments: Seq<PathSegment<'a>>,
}

/// A name of a path, with its arguments.
#[cycle(ty)]
pub struct PathSegment<'a> {
    pub ident: Ident<'a>,
    pub arguments: PathArguments<'a>,
}

impl Drop for PathSegment<'_> {
    #[cycle(ty)]
    fn drop(self) {
        let Self {
            ident: _,
            arguments: _,
        } = self;
    }
}

impl<'a> PathSegment<'a> {
    /// Its name and its arguments.
    pub fn into_parts(self) -> (Ident<'a>, PathArguments<'a>)
        ensures { result ≡ (self.entry.ident, self.entry.arguments) }
    {
        let Self { ident, arguments } = self;
        (ident, arguments)
    }
}

/// The arguments of a segment: none, `<..>` with `::` before it or not, or `(..)` with a type after `->` or none.
#[cycle(ty)]
#[derive(Drop)]
pub enum PathArguments<'a> {
    Absent,
    Angle(bool, Punctuated<GenericArgument<'a>>),
    Paren(Punctuated<Ty<'a>>, Option<Box<Ty<'a>>>),
}

/// An argument between `<` and `>`: a lifetime, a type, a constant, `Name = T`, `Name = V` or `Name: A + B`, each name with
/// arguments of its own or none.
#[cycle(ty)]
pub enum GenericArgument<'a> {
    Lifetime(Lifetime<'a>),
    Ty(Ty<'a>),
    Const(ConstArg<'a>),
    AssocTy(Ident<'a>, Option<Punctuated<GenericArgument<'a>>>, Ty<'a>),
    AssocConst(Ident<'a>, Option<Punctuated<GenericArgument<'a>>>, ConstArg<'a>),
    Constraint(Ident<'a>, Option<Punctuated<GenericArgument<'a>>>, Punctuated<Bound<'a>>),
}

impl Drop for GenericArgument<'_> {
    #[cycle(ty)]
    fn drop(self) {
        match self {
            Self::Lifetime(_) => {}
            Self::Ty(_) => {}
            Self::Const(_) => {}
            Self::AssocTy(_, _, _) => {}
            Self::AssocConst(_, _, _) => {}
            Self::Constraint(_, _, _) => {}
        }
    }
}

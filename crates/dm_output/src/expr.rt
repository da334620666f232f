//! Expressions, blocks and arms.

use crate::pattern::Pattern;
use dm_ast::{Opaque, Path, QSelf, Ty};
use dm_stream::{Ident, Literal, Seq};

/// A path, or a qualified one, as an expression.
#[derive(Drop)]
pub struct PathExpr<'a> {
    pub qself: Option<Box<QSelf<'a>>>,
    pub path: Path<'a>,
}

/// The field behind `.`: its name, or its number.
#[derive(Drop)]
pub enum Member<'a> {
    Named(Ident<'a>),
    Index(Literal<'a>),
}

/// A format and its arguments, as `core::write!` and `core::format_args!` take them.
#[derive(Drop)]
pub struct FmtArgs<'a> {
    pub lit: Literal<'a>,
    pub args: Seq<FmtArg<'a>>,
}

/// An argument of a format, which isn't read: `alias = value`, or `value` alone.
#[derive(Drop)]
pub struct FmtArg<'a> {
    pub alias: Option<Ident<'a>>,
    pub value: Opaque<'a>,
}

/// An expression. `Or` and `And` hold two parts or more; `Tuple` holds none, or two or more.
#[cycle(expr)]
pub enum Expr<'a> {
    /// `return a`
    Return(Box<Expr<'a>>),
    /// `a || b`
    Or(Seq<Expr<'a>>),
    /// `a && b`
    And(Seq<Expr<'a>>),
    /// `a == b`
    Equal(Box<Expr<'a>>, Box<Expr<'a>>),
    /// `a != b`
    Unequal(Box<Expr<'a>>, Box<Expr<'a>>),
    /// `&(tokens)`
    RefOpaque(Opaque<'a>),
    /// `&a`, or `&mut a` where the truth value is true
    Ref(bool, Box<Expr<'a>>),
    /// `*a`
    Deref(Box<Expr<'a>>),
    /// `a.x`
    Member(Box<Expr<'a>>, Member<'a>),
    /// `a.f(b, c)`
    MethodCall(Box<Expr<'a>>, Ident<'a>, Seq<Expr<'a>>),
    /// `a.map(|v| b)`
    Map(Box<Expr<'a>>, Box<Expr<'a>>),
    /// `a.map_err(tokens)`
    MapErr(Box<Expr<'a>>, Opaque<'a>),
    /// `a?`
    Question(Box<Expr<'a>>),
    Path(PathExpr<'a>),
    /// `f(a, b)`
    Call(PathExpr<'a>, Seq<Expr<'a>>),
    /// `f(a, b,)`
    Build(PathExpr<'a>, Seq<Expr<'a>>),
    /// `f { x: a, y: b, }`
    BuildNamed(PathExpr<'a>, Seq<NamedExpr<'a>>),
    /// `(a)`
    Paren(Box<Expr<'a>>),
    /// `(a, b)`
    Tuple(Seq<Expr<'a>>),
    /// `(tokens)(a)`
    OpaqueCall(Opaque<'a>, Box<Expr<'a>>),
    Str(Literal<'a>),
    Bool(bool),
    /// `match a { arms }`
    Match(Box<Expr<'a>>, Seq<Arm<'a>>),
    /// `unsafe { a }`
    Unsafe(Box<Expr<'a>>),
    /// `derive_more::core::write!(f, format)`
    Write(Ident<'a>, FmtArgs<'a>),
    /// `derive_more::core::format_args!(format)`
    FormatArgs(FmtArgs<'a>),
}

impl Drop for Expr<'_> {
    #[cycle(expr)]
    fn drop(self) {
        match self {
            Self::Return(_) => {}
            Self::Or(_) => {}
            Self::And(_) => {}
            Self::Equal(_, _) => {}
            Self::Unequal(_, _) => {}
            Self::RefOpaque(_) => {}
            Self::Ref(_, _) => {}
            Self::Deref(_) => {}
            Self::Member(_, _) => {}
            Self::MethodCall(_, _, _) => {}
            Self::Map(_, _) => {}
            Self::MapErr(_, _) => {}
            Self::Question(_) => {}
            Self::Path(_) => {}
            Self::Call(_, _) => {}
            Self::Build(_, _) => {}
            Self::BuildNamed(_, _) => {}
            Self::Paren(_) => {}
            Self::Tuple(_) => {}
            Self::OpaqueCall(_, _) => {}
            Self::Str(_) => {}
            Self::Bool(_) => {}
            Self::Match(_, _) => {}
            Self::Unsafe(_) => {}
            Self::Write(_, _) => {}
            Self::FormatArgs(_) => {}
        }
    }
}

/// A field with its value.
#[cycle(expr)]
#[derive(Drop)]
pub struct NamedExpr<'a> {
    pub name: Ident<'a>,
    pub value: Expr<'a>,
}

/// Statements, and an expression that the block gives.
#[cycle(expr)]
#[derive(Drop)]
pub struct Block<'a> {
    pub stmts: Seq<Stmt<'a>>,
    pub last: Option<Box<Expr<'a>>>,
}

/// A statement.
#[cycle(expr)]
#[derive(Drop)]
pub enum Stmt<'a> {
    /// `let x = a;`
    Let(Ident<'a>, Expr<'a>),
    /// `let _: T;`
    Check(Ty<'a>),
    /// `use p as _;`
    Import(Path<'a>),
    /// `a;`
    Expr(Expr<'a>),
    /// `const X: T = (tokens) + n;`, or `const X: T = 0 + n;` where there are no tokens
    Const(Ident<'a>, Ty<'a>, Option<Opaque<'a>>, Literal<'a>),
}

/// An arm of a `match`, with one pattern or several between `|`.
#[cycle(expr)]
#[derive(Drop)]
pub struct Arm<'a> {
    pub patterns: Seq<Pattern<'a>>,
    pub guard: Option<Expr<'a>>,
    pub body: ArmBody<'a>,
}

/// What stands behind `=>`: a block, or an expression and a comma.
#[cycle(expr)]
#[derive(Drop)]
pub enum ArmBody<'a> {
    Block(Block<'a>),
    Expr(Expr<'a>),
}

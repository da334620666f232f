//! Implementations.

use crate::expr::Block;
use dm_ast::{GenericParam, Path, Ty, WherePredicate};
use dm_stream::{Ident, Seq};

/// An attribute of an implementation or a method, in `#[..]`.
#[derive(Clone, Copy, Debug, PartialEq, Eq)]
pub enum ItemAttr {
    /// `allow(private_bounds)`
    AllowPrivateBounds,
    /// `allow(dead_code, private_bounds)`
    AllowDeadCodePrivateBounds,
    /// `allow(deprecated)`
    AllowDeprecated,
    /// `allow(unreachable_code)`
    AllowUnreachableCode,
    /// `allow(non_upper_case_globals)`
    AllowNonUpperCaseGlobals,
    /// `allow(clippy::unused_unit)`
    AllowUnusedUnit,
    /// `automatically_derived`
    AutomaticallyDerived,
    /// `doc(hidden)`
    DocHidden,
    /// `inline`
    Inline,
    /// `track_caller`
    TrackCaller,
}

/// An implementation of a trait, or an inherent one where there is no trait's path.
/// Empty `params` and empty `predicates` stand for the part that is absent.
#[derive(Drop)]
pub struct Item<'a> {
    pub attrs: Seq<ItemAttr>,
    pub params: Seq<GenericParam<'a>>,
    pub trait_path: Option<Path<'a>>,
    pub ty: Ty<'a>,
    pub predicates: Seq<WherePredicate<'a>>,
    pub assocs: Seq<Assoc<'a>>,
    pub methods: Seq<Method<'a>>,
}

/// An associated type: `type NAME = TY;`.
#[derive(Drop)]
pub struct Assoc<'a> {
    pub name: Ident<'a>,
    pub ty: Ty<'a>,
}

/// A method. `receiver` is absent for an associated function, `output` where the method gives `()`.
#[derive(Drop)]
pub struct Method<'a> {
    pub attrs: Seq<ItemAttr>,
    pub is_const: bool,
    pub name: Ident<'a>,
    pub receiver: Option<Receiver>,
    pub param: Option<MethodParam<'a>>,
    pub output: Option<Ty<'a>>,
    pub body: Block<'a>,
}

/// The parameter behind the receiver.
#[derive(Drop)]
pub struct MethodParam<'a> {
    pub name: Ident<'a>,
    pub ty: Ty<'a>,
}

/// `self`, `&self` or `&mut self`.
#[derive(Clone, Copy, Debug, PartialEq, Eq)]
pub enum Receiver {
    Value,
    Ref,
    RefMut,
}

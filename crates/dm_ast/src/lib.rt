//! The syntax tree of a declaration, and the definitions that speak of it: its plain data, its tokens, its grammar, its names.
//!
//! Trees drop themselves, so elsewhere none is taken apart by a pattern: parts are read by reference and copied, and `Ty::into_node` and
//! `PathSegment::into_parts` give theirs away.
#![tactic(auto)]

mod decl;
mod ident;
mod plain;
mod ty;

pub use decl::{
    ConstParam, Data, DataEnum, DataStruct, DataUnion, DeriveInput, Field, Fields, GenericParam,
    Generics, LifetimeParam, TyParam, Variant, WherePredicate,
};
pub use plain::{AttrArgs, Attribute, ConstArg, Opaque, PlainPath, Vis};
pub use ty::{
    BareFn, Bound, FnArg, GenericArgument, Path, PathArguments, PathSegment, QSelf, TraitBound, Ty,
    TyNode,
};

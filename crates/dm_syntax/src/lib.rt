//! The syntax tree of a declaration, and what reads, checks, copies, compares and writes it, gathered for callers.
#![tactic(auto)]

mod laws;

pub use dm_ast::{
    AttrArgs, Attribute, BareFn, Bound, ConstArg, ConstParam, Data, DataEnum, DataStruct,
    DataUnion, DeriveInput, Field, Fields, FnArg, GenericArgument, GenericParam, Generics,
    LifetimeParam, Opaque, Path, PathArguments, PathSegment, PlainPath, QSelf, TraitBound, Ty,
    TyNode, TyParam, Variant, Vis, WherePredicate,
};
pub use dm_copy::CloneIn;
pub use dm_meta::{
    ArgReader, Meta, MetaList, NestedMeta, PathOrKeyword, parse_path, parse_predicates, parse_type,
};
pub use dm_names::{check_names, check_names_in};
pub use dm_quote::{
    write_arguments, write_attributes, write_bounds, write_const, write_for, write_qualified,
    write_type,
};
pub use dm_read_decl::parse_decl;
pub use dm_type_eq::type_eq;
pub use laws::{tokens_come_back, types_stay_writable};

//! Generic parameters, predicates and fields: what an implementation takes over from a declaration, what is added to it, and the types and
//! paths that emitted code has beside those of the declaration.
#![tactic(auto)]

pub mod additions;
pub mod bounds;
pub mod fields;
pub mod implementors;
pub mod lists;
pub mod names;
pub mod numbered;
mod parameters;
pub mod split;
pub mod types;

pub use additions::{
    add_extra_generic_param, add_extra_generic_type_param, add_extra_ty_param_bound,
    add_extra_type_param_bound_op_output, add_extra_where_clauses, add_where_clauses_for_new_ident,
};
pub use fields::{field_idents, get_field_types, named_to_vec, unnamed_to_vec};
pub use numbered::numbered_vars;
pub use split::{Split, implementor_type, split_for_impl};

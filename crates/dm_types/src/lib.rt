//! What derives ask of types, parameters and fields, gathered from the crates that have it.
#![tactic(auto)]

pub use dm_generics::{
    Split, add_extra_generic_param, add_extra_generic_type_param, add_extra_ty_param_bound,
    add_extra_type_param_bound_op_output, add_extra_where_clauses, add_where_clauses_for_new_ident,
    field_idents, get_field_types, implementor_type, named_to_vec, numbered_vars, split_for_impl,
    unnamed_to_vec,
};
pub use dm_replace::replace_self_type;
pub use dm_searches::{
    GenericsSearch, contains_any, contains_generics, contains_type_structurally,
    get_if_type_parameter_used_in_type, get_inner, get_option_inner, is_option,
    is_type_parameter_used_in_type, path_contains_any, path_contains_generics, validate_type,
};

//! The output language and its text, gathered from the crates that have them.
#![tactic(auto)]

pub use dm_arm_patterns::{exhaustive_arm_pattern, non_exhaustive_arm_pattern};
pub use dm_expansion::{Expansion, print_items, with_text};
pub use dm_output::{
    Arm, ArmBody, Assoc, Binding, Block, Expr, FmtArg, FmtArgs, Item, ItemAttr, Member, Method,
    MethodParam, NamedExpr, NamedPattern, PathExpr, Pattern, Receiver, Stmt,
};
pub use dm_output_copy::CloneEmitted;
pub use dm_read_items::read_items;

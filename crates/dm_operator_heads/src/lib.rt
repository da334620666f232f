//! The heads of operators' implementations, as text: no tree of them is made.
#![tactic(auto)]

mod heads;
mod needed;
mod outputs;

pub use heads::{implemented_trait, params};
pub use needed::{all_predicates, predicates};
pub use outputs::{output_type, returned_type};

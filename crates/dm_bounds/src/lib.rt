//! What the types of fields are searched for, so that an implementation asks a trait of those that need it; and the predicates that it
//! adds to the declared ones, as definitions and laws.
#![tactic(auto)]

mod sought;

pub use sought::Sought;

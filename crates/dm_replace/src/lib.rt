//! `Self` in a declaration, replaced by the type that it stands for.
#![tactic(auto)]

mod declared;
mod laws;
mod replace;

pub use laws::replaced_once;
pub use replace::replace_self_type;

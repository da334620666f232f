//! Reading the output language back: a reader as a plain function, and what holds of it. There is no program yet.
#![tactic(auto)]

mod output_laws;

pub use output_laws::items_come_back;

//! Trees that are made by hand: their layouts, the runs that are taken of them, and the lists and texts that they are made of; and what
//! parts are gathered in.
#![tactic(auto)]

#[cfg(test)]
mod layouts;
#[cfg(test)]
mod parts;

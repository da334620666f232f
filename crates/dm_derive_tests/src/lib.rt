//! What no table of declarations shows: runs and how they end, over memory and over the adapters of standard input and output; samples,
//! many variants, and implementations as trees.
#![tactic(auto)]

#[cfg(test)]
mod adapters;
#[cfg(test)]
mod copies;
#[cfg(test)]
mod large;
#[cfg(test)]
mod runs;
#[cfg(test)]
mod splits;

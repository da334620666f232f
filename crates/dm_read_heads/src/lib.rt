//! Reading what stands around the bodies of methods: attributes, heads of implementations, associated types and signatures.
#![tactic(auto)]

pub mod assoc;
pub mod attr;
pub mod head;
pub mod signature;
mod tokens;

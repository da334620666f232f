//! Reading a declaration by the grammar of docs/FORMATS.md, "Read" (Rust Reference, "Structs", "Enumerations", "Unions", "Generic
//! parameters").
#![tactic(auto)]

pub mod field;
pub mod forms;
pub mod generics;
pub mod item;
pub mod param;
pub mod parse;
pub mod variant;
pub mod whole;

pub use parse::parse_decl;

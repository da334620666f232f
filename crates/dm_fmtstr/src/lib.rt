//! Format strings: the texts that `write!` and its kin take, read as the placeholders in them. The syntax is that of the standard
//! library, as docs/FORMATS.md, "Format strings", has it.
//!
//! Nothing is copied: the names in what is read are slices of the text.
#![tactic(auto)]

mod argument;
mod chars;
mod format;
mod kind;
mod laws;
mod placeholder;
mod spec;

pub use argument::{Argument, Count, Precision};
pub use format::{Format, FormatString, format_string, read_format};
pub use kind::FmtType;
pub use laws::one_reading;
pub use placeholder::{Parameter, Placeholder};
pub use spec::{Align, Alternate, FormatSpec, Sign, ZeroPadding};

//! Attributes that derives look at: what those of a name are read as, and which are refused. Standard input is a table of rows, as
//! `dm_rows` reads them, and below each the program prints what it answers.
#![tactic(auto)]

mod calls;
mod contents;
mod numbers;
mod reading;
mod sides;
mod words;

use calls::AttrRows;
use dm_rows::answered;
use std::io;

/// Answers the rows of standard input.
fn main(rt: HostRuntime) -> io::Result<()> {
    let table = io::read_to_string(rt.alloc(), rt.reader())?;
    let answers = answered::<AttrRows>(rt.alloc(), table.as_str())?;
    print!(rt; "{}", answers.as_str())
}

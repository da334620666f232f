//! Searches in types, what takes the place of `Self`, generics, and the patterns of fields. Standard input is a table of rows, as
//! `dm_rows` reads them, and below each the program prints what it answers.
#![tactic(auto)]

mod calls;
mod generics;
mod parameters;
mod patterns;
mod replaced;
mod texts;
mod types;

use calls::SearchRows;
use dm_rows::answered;
use std::io;

fn main(rt: HostRuntime) -> io::Result<()> {
    let table = io::read_to_string(rt.alloc(), rt.reader())?;
    let answers = answered::<SearchRows>(rt.alloc(), table.as_str())?;
    print!(rt; "{}", answers.as_str())
}

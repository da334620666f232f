//! Declarations, types, paths and metas: which texts are read, and what they are. Standard input is a table of rows, as `dm_rows` reads
//! them, and below each the program prints what it answers.
#![tactic(auto)]

mod alike;
mod calls;
mod facts;
mod fronts;
mod metas;
mod names;
mod tokens;

use calls::SyntaxRows;
use dm_rows::answered;
use dm_syntax::tokens_come_back;
use std::io;

fn main(rt: HostRuntime) -> io::Result<()> {
    tokens_come_back();
    let table = io::read_to_string(rt.alloc(), rt.reader())?;
    let answers = answered::<SyntaxRows>(rt.alloc(), table.as_str())?;
    print!(rt; "{}", answers.as_str())
}

//! Texts and the tokens they are read as, the values of literals, the units of runs, and format strings. Standard input is a table of
//! rows, as `dm_rows` reads them, and below each the program prints what it answers.
#![tactic(auto)]

mod calls;
mod formats;
mod lexing;
mod outlines;
mod units;
mod values;

use calls::TokenRows;
use dm_expr::nothing_is_lost;
use dm_fmtstr::one_reading;
use dm_rows::answered;
use std::io;

fn main(rt: HostRuntime) -> io::Result<()> {
    nothing_is_lost();
    one_reading();
    let table = io::read_to_string(rt.alloc(), rt.reader())?;
    let answers = answered::<TokenRows>(rt.alloc(), table.as_str())?;
    print!(rt; "{}", answers.as_str())
}

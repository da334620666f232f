//! Answers a table on standard input, as `dm_rows` reads it. The head of a row is a trait's name and its text a declaration: below it stands
//! what the trait derives, or the refusal's line. Or the head is a part of the output language, and the answer is whether the text is read
//! whole as that part.
#![tactic(auto)]

mod parts;
mod told;

ghost use Rattle.std.specs.Prelude.{IfOk, Result, String, string_bytes};
ghost use Rattle.std.specs.declared.alloc.Global.{Global};
ghost use Rattle.dm_stream.specs.declared.error.Error.{Error};
ghost use Rattle.dm_printed.specs.Derived.{Prints};
ghost use Rattle.dm_derive_rows.specs.Told.{Tells};

use dm_printed::derive_printed;
use dm_rows::{Answers, answered};
use dm_stream::{Error, Made};
use parts::{part_named, read_whole};
use std::alloc::Global;
use std::io;
use told::told;

/// What the trait of this name derives for a declaration, or the line of the refusal.
fn derived(alloc: Global, name: &str, decl: &str) -> Made<String>
    ensures { IfOk result (λ s. (r : Result (String Global) Error) × Prints name.now decl.now r × Tells r (string_bytes s)) }
{
    told(alloc, derive_printed(alloc, name, decl))
}

/// The rows of this program.
struct DeriveRows;

impl Answers for DeriveRows {
    fn answer(alloc: Global, head: &str, text: &str) -> Result<String, Error> {
        match part_named(head) {
            Some(part) => read_whole(alloc, part, text),
            None => Ok(derived(alloc, head, text)?),
        }
    }
}

fn main(rt: HostRuntime) -> io::Result<()> {
    let table = io::read_to_string(rt.alloc(), rt.reader())?;
    let answers = answered::<DeriveRows>(rt.alloc(), table.as_str())?;
    print!(rt; "{}", answers.as_str())
}

//! Reads implementations of the output language from standard input and prints each on a line of its own, as `print_items` lays it out.
//! An empty line, and one that begins with `//`, is repeated and ends a text; each text is answered by itself, and may be laid out in
//! any way on lines that aren't such. One that isn't made of implementations is repeated too, with the kind of its refusal below it; the
//! refusal's line, with its place in that text, goes to standard error.
#![tactic(auto)]

ghost use Rattle.std.specs.Prelude.{◌≡◌, List, Some, IfOk, string_bytes};
ghost use Rattle.dm_output.specs.Output.{ItemTree};
ghost use Rattle.dm_output.specs.Tokens.{printed};
ghost use Rattle.dm_read_items.specs.Reading.{IsAnswerTo};

use dm_expansion::print_items;
use dm_nodes::item::ItemNodes;
use dm_read_items::read_items;
use dm_stream::{Error, Read, Refusal};
use std::alloc::{AllocError, Global};
use std::io;

/// The text of the implementations that a text is made of.
fn reprinted(alloc: Global, text: &str) -> Read<String>
    ensures { IfOk result (λ s. (is : List ItemTree) × IsAnswerTo text.now (Some is) × (string_bytes s ≡ printed is)) }
{
    let items = ItemNodes::new(read_items(alloc, text)?);
    Ok(print_items(alloc, items.as_slice())?)
}

/// Prints a text and the kind of its refusal, and the refusal's line as an error.
fn print_refusal<R: Print + Eprint>(rt: &R, text: &str, refusal: Refusal) -> io::Result<()> {
    let kind = refusal.kind.name();
    println!(rt; "{text}    refused: {kind}")?;
    eprintln!(rt; "{refusal}")
}

/// Prints what a text is answered with.
fn print_answer<R: Print + Eprint + AllocGlobal>(rt: &R, text: &str) -> io::Result<()> {
    match reprinted(rt.alloc(), text) {
        Ok(printed) => print!(rt; "{}", printed.as_str()),
        Err(Error::Refused(refusal)) => print_refusal(rt, text, refusal),
        Err(Error::NoMemory) => Err(io::Error::from(AllocError)),
    }
}

/// Whether a line ends a text.
fn is_between(line: &str) -> bool {
    line.is_empty() || line.starts_with("//")
}

/// Adds a line to the text that it is part of, or answers that text and begins the next one.
fn take_line<R: Print + Eprint + AllocGlobal>(
    rt: &R,
    text: &mut String,
    line: &str,
) -> io::Result<()> {
    match is_between(line) {
        true => {
            print_answer(rt, text.as_str())?;
            text.clear();
            println!(rt; "{line}")
        }
        false => {
            text.push_str(line)?;
            text.push('\n')?;
            Ok(())
        }
    }
}

fn main(rt: HostRuntime) -> io::Result<()> {
    let input = io::read_to_string(rt.alloc(), rt.reader())?;
    let mut text = String::new(rt.alloc());
    for line in input.lines() {
        take_line(&rt, &mut text, line)?;
    }
    print_answer(&rt, text.as_str())
}

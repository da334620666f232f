//! Tables of rows: what a program answers to each is printed below it.
//!
//! A row is a line with a head, a colon and a text, as `type: Vec<T>`. Blank lines and lines that begin with `#` are headings, and are
//! repeated as they are. The spelling of texts is told at `spelled`.
#![tactic(auto)]

mod spelling;
mod telling;

use dm_stream::{Error, Made, Read};
pub use spelling::{add_shown, spelled};
use std::alloc::{AllocError, Global};
pub use telling::{Tells, made, only_read, printed, told, told_alone, told_front};

/// What answers the rows of a table.
pub trait Answers {
    /// The answer to the row of this head and this text: lines, without the end of the last. A refusal is an answer too.
    fn answer(alloc: Global, head: &str, text: &str) -> Result<String, Error>;
}

/// The refusal of a row whose head isn't known is told by this line.
const UNKNOWN: &str = "no such row";

/// The answer to a row whose head isn't known.
pub fn unknown(alloc: Global) -> Read<String> {
    Ok(String::from_str(alloc, UNKNOWN)?)
}

/// The head and the text of a row, or none where it is a heading.
fn parts(row: &str) -> Option<(&str, &str)> {
    if row.starts_with('#') {
        return None;
    }
    let (head, text) = row.split_once(':')?;
    match text.strip_prefix(' ') {
        Some(text) => Some((head, text)),
        None => Some((head, text)),
    }
}

/// Adds each line of an answer, behind four blanks.
fn add_lines(out: &mut String, answer: &str) -> Made<()> {
    for line in answer.lines() {
        out.push_str("    ")?;
        out.push_str(line)?;
        out.push_str("\n")?;
    }
    Ok(())
}

/// Adds the line of a refusal: its kind and its range. Want of memory is no answer.
fn add_refusal(out: &mut String, error: Error) -> Made<()> {
    match error {
        Error::NoMemory => Err(AllocError),
        Error::Refused(refusal) => {
            let kind = refusal.kind.name();
            let start = refusal.span.start;
            let end = refusal.span.end;
            write!(out, "    refused: {kind} {start}..{end}\n")
        }
    }
}

/// Adds what a row is answered by.
fn add_answer<A: Answers>(out: &mut String, alloc: Global, head: &str, text: &str) -> Made<()> {
    let text = spelled(alloc, text)?;
    match A::answer(alloc, head, text.as_str()) {
        Ok(answer) => add_lines(out, answer.as_str()),
        Err(error) => add_refusal(out, error),
    }
}

/// The table, with the answer below each row.
pub fn answered<A: Answers>(alloc: Global, table: &str) -> Made<String> {
    let mut out = String::new(alloc);
    for row in table.lines() {
        out.push_str(row)?;
        out.push_str("\n")?;
        if let Some((head, text)) = parts(row) {
            add_answer::<A>(&mut out, alloc, head, text)?;
        }
    }
    Ok(out)
}

/// What stands beside this head in a list.
pub fn named<T: Copy>(all: &[(&str, T)], head: &str) -> Option<T> {
    for (name, value) in all.iter().copied() {
        if name == head {
            return Some(value);
        }
    }
    None
}

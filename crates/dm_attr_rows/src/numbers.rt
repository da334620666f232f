//! Numbers with their ranges.

use crate::words::line;
use dm_attr::Spanning;
use dm_stream::{Read, Span};
use std::alloc::Global;

/// A number with the range of its text.
fn read_number(text: &str) -> Option<Spanning<u16>> {
    let range = Span {
        start: 0,
        end: text.len(),
    };
    Spanning::new(text.parse::<u16>().ok(), range).transpose()
}

/// A hundred times a number, with its range.
fn hundreds(alloc: Global, number: Spanning<u16>) -> Read<String> {
    match number.map(|number| number.checked_mul(100)).transpose() {
        Some(hundreds) => {
            let Span { start, end } = hundreds.span();
            let hundreds = *hundreds;
            Ok(format!(in alloc; "a hundred times {hundreds} at {start}..{end}")?)
        }
        None => line(alloc, "a hundred times too much"),
    }
}

/// One more than a number, and a hundred times that.
fn counted(alloc: Global, number: Spanning<u16>) -> Read<String> {
    let mut number = number;
    *number = number.saturating_add(1);
    let next = *number.as_ref().into_inner();
    let hundreds = hundreds(alloc, number)?;
    let hundreds = hundreds.as_str();
    Ok(format!(in alloc; "{next}, {hundreds}")?)
}

/// One more than the number that a text is, and a hundred times that with the range of the text.
pub(crate) fn of_number(alloc: Global, text: &str) -> Read<String> {
    match read_number(text) {
        Some(number) => counted(alloc, number),
        None => line(alloc, "no number"),
    }
}

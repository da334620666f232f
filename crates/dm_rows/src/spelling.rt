//! How the text of a row is spelled.

use dm_stream::Made;
use std::alloc::Global;

/// Adds a part so often.
fn add_times(out: &mut String, part: &str, times: usize) -> Made<()> {
    for _turn in 0..times {
        out.push_str(part)?;
    }
    Ok(())
}

/// Adds the character of this number, which is written in hexadecimal digits.
fn add_code(out: &mut String, code: &str) -> Made<()> {
    match u32::from_str_radix(code, 16) {
        Ok(number) => match char::from_u32(number) {
            Some(ch) => out.push(ch),
            None => out.push_str(code),
        },
        Err(_) => out.push_str(code),
    }
}

/// Adds what stands for `inside` in `‹` and `›`.
fn add_mark(out: &mut String, inside: &str) -> Made<()> {
    match inside.split_once('×') {
        Some((times, part)) => match times.parse::<usize>() {
            Ok(times) => add_times(out, part, times),
            Err(_) => out.push_str(inside),
        },
        None => add_code(out, inside),
    }
}

/// Adds what stands for a part of a row that begins behind a `‹`, or in front of the first.
fn add_part(out: &mut String, part: &str) -> Made<()> {
    match part.split_once('›') {
        Some((inside, behind)) => {
            add_mark(out, inside)?;
            out.push_str(behind)
        }
        None => out.push_str(part),
    }
}

/// The text that a row spells: itself, but `‹a›` is the character U+000A, and `‹3×ab›` is `ababab`.
pub fn spelled(alloc: Global, row: &str) -> Made<String> {
    let mut out = String::new(alloc);
    for part in row.split('‹') {
        add_part(&mut out, part)?;
    }
    Ok(out)
}

/// Adds a text as rows spell it: its control characters by their numbers, as `‹a›`.
pub fn add_shown(out: &mut String, text: &str) -> Made<()> {
    for ch in text.chars() {
        if ch < ' ' || ('\u{7f}' <= ch && ch <= '\u{9f}') {
            let number = u32::from(ch);
            write!(out, "‹{number:x}›")?;
        } else {
            out.push(ch)?;
        }
    }
    Ok(())
}

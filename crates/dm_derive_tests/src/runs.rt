//! Whole runs: what is written, and how they end.

use dm_derive::{LARGEST_INPUT, MemSink, MemSource, Status, derive_main};
use dm_stream::Made;
use std::alloc::Global;

const INPUT: &[u8] = b"PartialEq\nstruct P(i32);";

/// The implementation for `struct P(i32);`.
const ONE_FIELD: &[u8] =
    b"# [allow (private_bounds)] # [automatically_derived] impl derive_more :: core :: cmp :: PartialEq for P { # [inline] fn eq (& self , __other : & Self) -> bool { match (self , __other) { (Self (__self_0 ,) , Self (__other_0 ,)) => { __self_0 == __other_0 } , } } # [inline] fn ne (& self , __other : & Self) -> bool { match (self , __other) { (Self (__self_0 ,) , Self (__other_0 ,)) => { __self_0 != __other_0 } , } } }\n";

/// Words, a source and a sink, and how the latter two fail.
#[derive(Clone, Copy)]
struct Outside<'a> {
    words: &'a [&'a str],
    bytes: &'a [u8],
    failing_reads: &'a [u32],
    failing_writes: &'a [u32],
    room: usize,
}

fn sound(bytes: &[u8]) -> Outside<'_> {
    Outside {
        words: &[],
        bytes,
        failing_reads: &[],
        failing_writes: &[],
        room: 10_000,
    }
}

fn words_of(alloc: Global, words: &[&str]) -> Made<Vec<String>> {
    let mut all = Vec::new(alloc);
    for word in words.iter().copied() {
        let word = String::from_str(alloc, word)?;
        all.push(word)?;
    }
    Ok(all)
}

fn source_of(alloc: Global, outside: Outside<'_>) -> Made<MemSource> {
    let bytes = Vec::from_slice(alloc, outside.bytes)?;
    let failing = Vec::from_slice(alloc, outside.failing_reads)?;
    Ok(MemSource::new(bytes, 8, failing))
}

fn sink_of(alloc: Global, outside: Outside<'_>) -> Made<MemSink> {
    let failing = Vec::from_slice(alloc, outside.failing_writes)?;
    MemSink::new(alloc, outside.room, 10, failing)
}

/// Whether a run ends so, with this written.
fn ends(alloc: Global, outside: Outside<'_>, status: Status, written: &[u8]) -> Made<bool> {
    let words = words_of(alloc, outside.words)?;
    let mut source = source_of(alloc, outside)?;
    let mut sink = sink_of(alloc, outside)?;
    let ended = derive_main(alloc, words.as_slice(), &mut source, &mut sink);
    Ok(ended == status && sink.written() == written)
}

/// An input, how its run ends, and what that writes.
type Run = (&'static [u8], Status, &'static [u8]);

const RUNS: &[Run] = &[
    (INPUT, Status::Done, ONE_FIELD),
    (b"PartialEq\r\nstruct P(i32);", Status::Done, ONE_FIELD),
    (
        b"Hash\nstruct S;",
        Status::Refused,
        b"UnknownTrait 0..0: no derive of this name\n",
    ),
    (
        b"PartialEq\nstruct P(A)",
        Status::Refused,
        b"Syntax 11..11: not one struct, enum or union declaration\n",
    ),
    (b"PartialEq", Status::BadInput, b""),
    (b"", Status::BadInput, b""),
    (b"PartialEq\nstruct P(\xff);", Status::BadInput, b""),
];

/// The first input whose run ends otherwise.
fn first_other_run(alloc: Global) -> Made<Option<&'static [u8]>> {
    for (input, status, written) in RUNS.iter().copied() {
        if !ends(alloc, sound(input), status, written)? {
            return Ok(Some(input));
        }
    }
    Ok(None)
}

#[test]
fn runs(rt: HostRuntime) -> Made<()> {
    assert_eq!(rt; first_other_run(rt.alloc())?, None);
    Ok(())
}

/// The reads and the writes that fail, the room of the sink, how the run ends, and what it writes.
type Failure = (&'static [u32], &'static [u32], usize, Status, &'static [u8]);

const FAILURES: &[Failure] = &[
    (&[2], &[], 10_000, Status::ReadFault, b""),
    (&[], &[2], 10_000, Status::WriteFault, b"# [allow ("),
    (&[], &[], 3, Status::WriteFault, b"# ["),
];

/// The number of failures that end so, up to the first other.
fn failures_in_front(alloc: Global) -> Made<usize> {
    let mut count = 0usize;
    for (failing_reads, failing_writes, room, status, written) in FAILURES.iter().copied() {
        let outside = Outside {
            failing_reads,
            failing_writes,
            room,
            ..sound(INPUT)
        };
        if !ends(alloc, outside, status, written)? {
            return Ok(count);
        }
        count = count.saturating_add(1);
    }
    Ok(count)
}

#[test]
fn failures(rt: HostRuntime) -> Made<()> {
    assert_eq!(rt; failures_in_front(rt.alloc())?, FAILURES.len());
    Ok(())
}

/// What the traits answer to two variants. An enum has no assigning operator, and none whose right side is any value.
const TWO: &[u8] = b"PartialEq done 1 1
Add done 1 1
BitAnd done 1 1
BitOr done 1 1
BitXor done 1 1
Sub done 1 1
AddAssign WrongShape 0..4
BitAndAssign WrongShape 0..4
BitOrAssign WrongShape 0..4
BitXorAssign WrongShape 0..4
SubAssign WrongShape 0..4
Div WrongShape 0..4
Mul WrongShape 0..4
Rem WrongShape 0..4
Shl WrongShape 0..4
Shr WrongShape 0..4
DivAssign WrongShape 0..4
MulAssign WrongShape 0..4
RemAssign WrongShape 0..4
ShlAssign WrongShape 0..4
ShrAssign WrongShape 0..4
Not done 1 0
Neg done 1 0
";

/// What they answer to the largest sample, in which 1333 variants have a field of the parameter's type.
const LARGEST: &[u8] = b"PartialEq done 1 1333
Add done 1 1333
BitAnd done 1 1333
BitOr done 1 1333
BitXor done 1 1333
Sub done 1 1333
AddAssign WrongShape 0..4
BitAndAssign WrongShape 0..4
BitOrAssign WrongShape 0..4
BitXorAssign WrongShape 0..4
SubAssign WrongShape 0..4
Div WrongShape 0..4
Mul WrongShape 0..4
Rem WrongShape 0..4
Shl WrongShape 0..4
Shr WrongShape 0..4
DivAssign WrongShape 0..4
MulAssign WrongShape 0..4
RemAssign WrongShape 0..4
ShlAssign WrongShape 0..4
ShrAssign WrongShape 0..4
Not done 1 0
Neg done 1 0
";

/// Words, the room of the sink, how the run ends, and what it writes. Its source fails at once.
type Asked = (&'static [&'static str], usize, Status, &'static [u8]);

const ASKED: &[Asked] = &[
    (&["sample", "2"], 1_000, Status::Done, TWO),
    (&["sample", "2"], 9, Status::WriteFault, b"PartialEq"),
    (&["sample", "2000"], 2_000, Status::Done, LARGEST),
    (&["help"], 1_000, Status::Usage, b""),
    (&["sample"], 1_000, Status::Usage, b""),
    (&["sample", ""], 1_000, Status::Usage, b""),
    (&["sample", "0"], 1_000, Status::Usage, b""),
    (&["sample", "02"], 1_000, Status::Usage, b""),
    (&["sample", "+2"], 1_000, Status::Usage, b""),
    (&["sample", "2a"], 1_000, Status::Usage, b""),
    (&["sample", "2001"], 1_000, Status::Usage, b""),
    (&["sample", "99999999999"], 1_000, Status::Usage, b""),
    (&["sample", "2", "2"], 1_000, Status::Usage, b""),
    (&["samples", "2"], 1_000, Status::Usage, b""),
    (&["2", "sample"], 1_000, Status::Usage, b""),
];

/// The number of words that are answered so, up to the first other.
fn asked_in_front(alloc: Global) -> Made<usize> {
    let mut count = 0usize;
    for (words, room, status, written) in ASKED.iter().copied() {
        let outside = Outside {
            words,
            failing_reads: &[1],
            room,
            ..sound(INPUT)
        };
        if !ends(alloc, outside, status, written)? {
            return Ok(count);
        }
        count = count.saturating_add(1);
    }
    Ok(count)
}

#[test]
fn asked(rt: HostRuntime) -> Made<()> {
    assert_eq!(rt; asked_in_front(rt.alloc())?, ASKED.len());
    Ok(())
}

/// The size of an input, how its run ends, and what that writes.
type Filled = (usize, Status, &'static [u8]);

/// As many bytes as a run takes, and one more.
const FILLED: &[Filled] = &[
    (LARGEST_INPUT, Status::Done, ONE_FIELD),
    (LARGEST_INPUT + 1, Status::BadInput, b""),
];

/// Whether a run ends so, with this written, for an input that blanks fill up to a size.
fn filled_ends(alloc: Global, size: usize, status: Status, written: &[u8]) -> Made<bool> {
    let mut input = Vec::from_slice(alloc, INPUT)?;
    input.resize(size, b' ')?;
    ends(alloc, sound(input.as_slice()), status, written)
}

/// The first size whose run ends otherwise.
fn first_other_size(alloc: Global) -> Made<Option<usize>> {
    for (size, status, written) in FILLED.iter().copied() {
        if !filled_ends(alloc, size, status, written)? {
            return Ok(Some(size));
        }
    }
    Ok(None)
}

#[test]
fn too_much(rt: HostRuntime) -> Made<()> {
    assert_eq!(rt; first_other_size(rt.alloc())?, None);
    Ok(())
}

ghost use Rattle.std.specs.Prelude.{◌≤◌, ◌<◌, ℕ, List, length, IfOk, OnOk, OnErr, IsErrOf};
ghost use Rattle.std.specs.Io.KnownBytes.{Appends};
ghost use Rattle.dm_outside.specs.Causes.{Rose};
ghost use Rattle.dm_outside.specs.Transfers.{WasRead, IsTooMuch, AppendsPrefix, ReadTurns, OffersToEnd, OffersPrefix};

use super::outside::{Failed, Sink, Source};
use std::alloc::Global;

/// The largest input of a run, in bytes.
pub const LARGEST_INPUT: usize = 1_048_576;

/// How many bytes are asked for at once.
const PORTION: usize = 65_536;

/// Why a source was not read to its end.
#[derive(Clone, Copy, Debug, PartialEq, Eq)]
pub enum ReadError {
    /// There was no memory for what came.
    NoMemory,
    /// The source failed.
    Fault,
    /// More than the limit came.
    TooMuch,
}

/// Reads by the buffer. Each turn but the last takes at least one byte.
fn read_through<S: Source>(
    alloc: Global,
    source: &mut S,
    buf: &mut [u8],
) -> Result<Vec<u8>, ReadError>
    requires { 0 < length buf.old }
    ensures all { IfOk result (λ v. WasRead (S.left source.old) (S.left source.new) v.items) }
    ensures too_much { IsErrOf result ReadError.TooMuch → (bytes : List ℕ) × IsTooMuch (S.left source.old) (S.left source.new) bytes }
    ensures fault { IsErrOf result ReadError.Fault → Rose (S.faults source.old) (S.faults source.new) }
    ensures turns { ReadTurns (S.reads source.old) (S.reads source.new) result }
    ensures later { S.faults source.old ≤ S.faults source.new }
{
    let mut bytes = Vec::new(alloc);
    'turns: while bytes.len() <= LARGEST_INPUT {
        match source.read(buf) {
            Err(Failed) => return Err(ReadError::Fault),
            Ok(0) => return Ok(bytes),
            Ok(count) => {
                if bytes.extend_from_slice(&buf[..count]).is_err() {
                    return Err(ReadError::NoMemory);
                }
            }
        }
    }
    Err(ReadError::TooMuch)
}

/// Reads to the end, and gives all that came, or until more than [LARGEST_INPUT] bytes have come. Where it fails, what came is gone; a
/// fault is told only where the source's count of failures rose.
pub fn read_all<S: Source>(alloc: Global, source: &mut S) -> Result<Vec<u8>, ReadError>
    ensures all { IfOk result (λ v. WasRead (S.left source.old) (S.left source.new) v.items) }
    ensures too_much { IsErrOf result ReadError.TooMuch → (bytes : List ℕ) × IsTooMuch (S.left source.old) (S.left source.new) bytes }
    ensures fault { IsErrOf result ReadError.Fault → Rose (S.faults source.old) (S.faults source.new) }
    ensures turns { ReadTurns (S.reads source.old) (S.reads source.new) result }
    ensures later { S.faults source.old ≤ S.faults source.new }
{
    match vec![in alloc; 0u8; PORTION] {
        Ok(mut buf) => read_through(alloc, source, buf.as_mut_slice()),
        Err(_) => Err(ReadError::NoMemory),
    }
}

/// Writes the whole text; each write offers all that is left. Where the sink fails, its count of failures rose, and a front of the text,
/// not all of it, is written.
pub fn write_all<K: Sink>(sink: &mut K, text: &[u8]) -> Result<(), Failed>
    ensures ok { OnOk result (Appends (K.written sink.old) (K.written sink.new) text.now) }
    ensures front { OnErr result (AppendsPrefix (K.written sink.old) (K.written sink.new) text.now) }
    ensures fault { OnErr result (Rose (K.faults sink.old) (K.faults sink.new)) }
    ensures whole { OnOk result (OffersToEnd (K.offers sink.old) (K.offers sink.new) text.now) }
    ensures part { OnErr result (OffersPrefix (K.written sink.old) (K.written sink.new) (K.offers sink.old) (K.offers sink.new) text.now) }
    ensures later { K.faults sink.old ≤ K.faults sink.new }
{
    let mut at = 0;
    'turns: while at < text.len() {
        let (_, rest) = text.split_at(at);
        at += sink.write(rest)?;
    }
    Ok(())
}

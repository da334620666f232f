ghost use Rattle.std.specs.Prelude.{◌≡◌, ◌↔◌, ℕ, [], IfSome};
ghost use Rattle.dm_sample.specs.Samples.{IsSample};
ghost use Rattle.dm_outside.specs.Causes.{Rose};
ghost use Rattle.dm_run.specs.Runs.{Responds, Ran, Means, IsAccepted, IsFaultless, IsSilent};
ghost use Rattle.dm_run.specs.Sampled.{AreWords, Sampled};
ghost use Rattle.dm_run.specs.Turns.{Turns, Offered};

use super::input::split;
use super::line::refusal_line;
use super::summary::sample_lines;
use dm_outside::{Failed, ReadError, Sink, Source, Status, read_all, write_all};
use dm_printed::derive_printed;
use dm_sample::sample_size;
use dm_stream::{Error, Refusal};
use std::alloc::Global;

/// Answers bytes that were read to the end, and writes the answer whole.
fn respond<K: Sink>(alloc: Global, bytes: &[u8], sink: &mut K) -> Status
    ensures responds { Responds bytes.now (K.written sink.old) (K.written sink.new) result }
    ensures offers { Offered (K.written sink.old) (K.written sink.new) (K.offers sink.old) (K.offers sink.new) result }
    ensures write { result ≡ Status.WriteFault → Rose (K.faults sink.old) (K.faults sink.new) }
    ensures silent { IsSilent result → sink.new ≡ sink.old }
{
    let (name, declaration) = match split(bytes) {
        Some(parts) => parts,
        None => return Status::BadInput,
    };
    match derive_printed(alloc, name, declaration) {
        Ok(text) => match write_all(sink, text.as_bytes()) {
            Ok(()) => Status::Done,
            Err(Failed) => Status::WriteFault,
        },
        Err(Error::Refused(refusal)) => match refusal_line(alloc, &refusal) {
            Ok(line) => match write_all(sink, line.as_bytes()) {
                Ok(()) => Status::Refused,
                Err(Failed) => Status::WriteFault,
            },
            Err(_) => Status::NoMemory,
        },
        Err(Error::NoMemory) => Status::NoMemory,
    }
}

/// Reads all, answers, and writes the whole answer.
fn run<S: Source, K: Sink>(alloc: Global, source: &mut S, sink: &mut K) -> Status
    ensures ran { Ran (S.left source.old) (S.left source.new) (K.written sink.old) (K.written sink.new) result }
    ensures turns { Turns (S.reads source.old) (S.reads source.new) result }
    ensures offers { Offered (K.written sink.old) (K.written sink.new) (K.offers sink.old) (K.offers sink.new) result }
    ensures read { result ≡ Status.ReadFault → Rose (S.faults source.old) (S.faults source.new) }
    ensures write { result ≡ Status.WriteFault → Rose (K.faults sink.old) (K.faults sink.new) }
    ensures silent { IsSilent result → sink.new ≡ sink.old }
{
    match read_all(alloc, source) {
        Ok(bytes) => respond(alloc, bytes.as_slice(), sink),
        Err(ReadError::NoMemory) => Status::NoMemory,
        Err(ReadError::Fault) => Status::ReadFault,
        Err(ReadError::TooMuch) => Status::BadInput,
    }
}

/// Writes what the traits answer to a sample with `n` variants.
fn sample<K: Sink>(alloc: Global, n: u32, sink: &mut K) -> Status
    ensures sampled { Sampled n (K.written sink.old) (K.written sink.new) result }
    ensures offers { Offered (K.written sink.old) (K.written sink.new) (K.offers sink.old) (K.offers sink.new) result }
    ensures write { result ≡ Status.WriteFault → Rose (K.faults sink.old) (K.faults sink.new) }
    ensures silent { IsSilent result → sink.new ≡ sink.old }
{
    match sample_lines(alloc, n) {
        Ok(lines) => match write_all(sink, lines.as_bytes()) {
            Ok(()) => Status::Done,
            Err(Failed) => Status::WriteFault,
        },
        Err(_) => Status::NoMemory,
    }
}

/// Does all that the program does. Without words it reads a trait's name and a declaration, and writes the implementations or the line
/// of the refusal. The words `sample` and a number ask for what the traits answer to a sample with so many variants, a line each; then
/// nothing is read.
pub fn derive_main<S: Source, K: Sink>(
    alloc: Global,
    words: &[String],
    source: &mut S,
    sink: &mut K,
) -> Status
    ensures usage { result ≡ Status.Usage ↔ ¬ (AreWords words.now) }
    ensures idle { result ≡ Status.Usage → source.new ≡ source.old }
    ensures silent { IsSilent result → sink.new ≡ sink.old }
    ensures ran { words.now ≡ [] → Ran (S.left source.old) (S.left source.new) (K.written sink.old) (K.written sink.new) result }
    ensures turns { words.now ≡ [] → Turns (S.reads source.old) (S.reads source.new) result }
    ensures offers { Offered (K.written sink.old) (K.written sink.new) (K.offers sink.old) (K.offers sink.new) result }
    ensures told { words.now ≡ [] → IfSome (S.left source.old) (λ bytes. Means bytes (K.written sink.old) (K.written sink.new) result) }
    ensures complete { words.now ≡ [] → IfSome (S.left source.old) (λ bytes. IsAccepted bytes → IsFaultless result) }
    ensures sampled { (n : ℕ) → IsSample words.now n → Sampled n (K.written sink.old) (K.written sink.new) result }
    ensures unread { (n : ℕ) → IsSample words.now n → source.new ≡ source.old }
    ensures read { result ≡ Status.ReadFault → Rose (S.faults source.old) (S.faults source.new) }
    ensures write { result ≡ Status.WriteFault → Rose (K.faults sink.old) (K.faults sink.new) }
{
    match words {
        [] => run(alloc, source, sink),
        _ => match sample_size(words) {
            Some(n) => sample(alloc, n, sink),
            None => Status::Usage,
        },
    }
}

ghost use Rattle.std.specs.Prelude.{◌≡◌, drop};
ghost use Rattle.std.specs.Process.{exit_status};
ghost use Rattle.dm_outside.specs.Exits.{exit_code};
ghost use Rattle.dm_run.specs.Ended.{IsEnded};

use super::top::derive_main;
use dm_outside::{Sink, Source, Status};
use std::alloc::Global;
use std::process::ExitCode;

/// The words after the first one, which is the program's own name.
fn after_name(words: &[String]) -> &[String]
    ensures { result.now ≡ drop 1 words.now }
{
    match words {
        [] => words,
        [_, rest @ ..] => rest,
    }
}

fn code_of(status: Status) -> ExitCode
    ensures { exit_status result ≡ exit_code status }
{
    ExitCode::from(status.code())
}

/// Does all that a process does, and gives the code that it ends with.
///
/// `words` is the command line, from the program's own name on, or how the run ends since it can't be read. Then nothing is read or
/// written. Else this is [derive_main] for the words after the name.
pub fn ended_run<S: Source, K: Sink>(
    alloc: Global,
    words: Result<Vec<String>, Status>,
    source: &mut S,
    sink: &mut K,
) -> ExitCode
    ensures { IsEnded words (source.new ≡ source.old) (sink.new ≡ sink.old)
        (record { left = S.left source.old; faults = S.faults source.old; reads = S.reads source.old })
        (record { left = S.left source.new; faults = S.faults source.new; reads = S.reads source.new })
        (record { written = K.written sink.old; faults = K.faults sink.old; offers = K.offers sink.old })
        (record { written = K.written sink.new; faults = K.faults sink.new; offers = K.offers sink.new })
        result }
{
    match words {
        Ok(words) => code_of(derive_main(alloc, after_name(&words), source, sink)),
        Err(status) => code_of(status),
    }
}

ghost use Rattle.std.specs.Prelude.{◌≡◌, ◌≢◌, ◌⊎◌, IfErr, IfOk};
ghost use Rattle.std.specs.Iterator.{Drains};

use dm_outside::Status;
use std::alloc::Global;
use std::env;
use std::env::Args;
use std::io::ErrorKind;
use std::rt::Env;

/// The words of the command line from the program's own name on, or how the run ends where they can't be read.
pub fn all_words<R: Env + AllocGlobal>(rt: &R) -> Result<Vec<String>, Status>
    ensures { IfErr result (λ status. (status ≡ Status.NoMemory) ⊎ (status ≡ Status.Usage)) }
{
    match env::args(rt) {
        Ok(words) => collected(rt.alloc(), words),
        Err(error) => Err(status_of(error.kind())),
    }
}

/// All these words in a vector.
fn collected(alloc: Global, words: Args) -> Result<Vec<String>, Status>
    ensures all { IfOk result (λ all. Drains ⟦<Args as Iterator>⟧.next_gives words all.items) }
    ensures memory { IfErr result (λ status. status ≡ Status.NoMemory) }
{
    match words.collect::<Vec<String>>(alloc) {
        Ok(all) => Ok(all),
        Err(_) => Err(Status::NoMemory),
    }
}

/// How a run ends whose words can't be read for this cause.
fn status_of(kind: ErrorKind) -> Status
    ensures memory { kind ≡ ErrorKind.OutOfMemory → result ≡ Status.NoMemory }
    ensures other { kind ≢ ErrorKind.OutOfMemory → result ≡ Status.Usage }
{
    match kind {
        ErrorKind::OutOfMemory => Status::NoMemory,
        _ => Status::Usage,
    }
}

//! Derives over standard input and output: a trait's name on the first line, the declaration below it, and
//! its implementations as the answer.
#![tactic(auto)]

use dm_run::ended_run;
use dm_standard::{StdSink, StdSource, all_words};
use std::io;
use std::process::ExitCode;

fn main(rt: HostRuntime) -> ExitCode {
    let mut source = StdSource::new(rt.reader());
    let mut sink = StdSink::new(io::writer(&rt));
    ended_run(rt.alloc(), all_words(&rt), &mut source, &mut sink)
}

//! Derives `PartialEq` for a sample of 2,000 variants twenty times, implementations and text, and prints nothing: a program to time.
#![tactic(auto)]

use dm_derive::derive_text;
use dm_sample::sample_text;
use dm_stream::Error;
use std::alloc::Global;
use std::process::ExitCode;

const CALLS: usize = 20;

/// Derives for one declaration again and again.
fn derive_often(alloc: Global) -> Result<(), Error> {
    let text = sample_text(alloc, 2_000)?;
    for _ in 0..CALLS {
        derive_text(alloc, "PartialEq", text.as_str())?;
    }
    Ok(())
}

fn main(rt: HostRuntime) -> ExitCode {
    match derive_often(rt.alloc()) {
        Ok(()) => ExitCode::SUCCESS,
        Err(_) => ExitCode::FAILURE,
    }
}

//! A program of the tests: `drill 0`, as it stands in the gate with what it must print. The product's program is
//! `tactcli`.
#![tactic(auto)]

use run_model::Status;
use std::alloc::{AllocError, Global};
use std::process::ExitCode;
use tact_io::{FreeGate, StdClock, StdSink, StdSource, SureShelf};
use tact_top::tact;

fn main(rt: HostRuntime) -> ExitCode {
    let Ok(words) = words(rt.alloc()) else {
        return ExitCode::FAILURE;
    };
    let mut source = StdSource::new(rt.reader());
    let mut sink = StdSink::new(&rt);
    let clock = StdClock::new(&rt);
    let gate = FreeGate::new();
    let Ok(mut shelf) = SureShelf::new(rt.alloc()) else {
        return ExitCode::FAILURE;
    };
    match tact(
        &rt,
        rt.alloc(),
        &words,
        &mut source,
        &mut sink,
        &clock,
        &gate,
        &mut shelf,
    ) {
        Status::Done => ExitCode::SUCCESS,
        _ => ExitCode::FAILURE,
    }
}

// The words of the command.
fn words(alloc: Global) -> Result<Vec<String>, AllocError> {
    let mut words = Vec::new(alloc);
    for word in ["tactcli", "drill", "0"] {
        words.push(String::from_str(alloc, word)?)?;
    }
    Ok(words)
}

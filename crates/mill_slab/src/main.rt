//! Serves the words that it is given: hands them, standard input, standard output and a gate that
//! holds no worker to the top call over streams, and ends with its status.
#![tactic(auto)]

use slab_top::{OpenGate, run_streams};
use std::env;
use std::process::ExitCode;

// The status where the system doesn't give the program its words.
const NO_WORDS: u8 = 9;

fn main(rt: HostRuntime) -> ExitCode {
    let alloc = rt.alloc();
    let Ok(args) = env::args(&rt) else {
        return ExitCode::from(NO_WORDS);
    };
    let Ok(words) = args.skip(1).collect::<Vec<String>>(alloc) else {
        return ExitCode::from(NO_WORDS);
    };
    let mut kept = None;
    let end = run_streams(
        &rt,
        alloc,
        &words,
        rt.stdin(),
        rt.stdout(),
        &OpenGate,
        &mut kept,
    );
    ExitCode::from(end.status)
}

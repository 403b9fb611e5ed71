//! The program: hands its words to `dsr_cli::run` over the system's files and the standard output,
//! and ends with the number of the status.
#![tactic(auto)]

use dsr_cli::{Status, run};
use dsr_store::{FileShelf, StdSink};
use dsr_words::words_of;
use std::env;
use std::process::ExitCode;

fn main(rt: HostRuntime) -> ExitCode {
    let alloc = rt.alloc();
    let words = match words_of(alloc, env::args(&rt)) {
        Ok(given) => given,
        Err(_) => return ExitCode::from(Status::NoMemory.number()),
    };
    let mut shelf = FileShelf {
        rt: &rt,
        faults: 0,
        last: None,
    };
    let mut out = StdSink { rt: &rt, faults: 0 };
    ExitCode::from(run(alloc, &words, &mut shelf, &mut out).number())
}

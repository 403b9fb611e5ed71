//! The front end for people: the commands of `dsr`, with what their answers mean on the standard
//! error, and commands that show what a specification says of an image.
#![tactic(auto)]

mod answers;
mod asking;
mod colours;
mod commands;
mod completions;
mod putting;
mod reasons;
mod running;
mod table;

use crate::answers::answer;
use dsr_script::Status;
use std::alloc::{AllocError, Global};
use std::env::{self, Args};
use std::io::{self, IsTerminal};
use std::process::ExitCode;

// The words, with the program's name. Words that the system can't give as text ask for nothing.
fn words_of(alloc: Global, given: io::Result<Args>) -> Result<Vec<String>, AllocError> {
    match given {
        Ok(given) => given.collect(alloc),
        Err(_) => Ok(Vec::new(alloc)),
    }
}

fn main(rt: HostRuntime) -> ExitCode {
    let alloc = rt.alloc();
    let words = match words_of(alloc, env::args(&rt)) {
        Ok(words) => words,
        Err(_) => return ExitCode::from(Status::NoMemory.number()),
    };
    let coloured = rt.stderr().is_terminal();
    match answer(&rt, alloc, &words, coloured) {
        Ok(status) => ExitCode::from(status.number()),
        Err(_) => {
            let _ = eprintln!(rt; "jumshido: there is not enough memory");
            ExitCode::from(Status::NoMemory.number())
        }
    }
}

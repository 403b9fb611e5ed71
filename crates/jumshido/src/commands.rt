// The words that the program takes.
use crate::table::{Argument, Entry, Kind, commands};
use clap::{Arg, ArgAction, Command};
use std::alloc::{AllocError, Global};

const VERSION: &str = "0.1.0";

const ABOUT: &str = "Finds and repairs broken data structures in heap dumps and file images";

const AFTER: &str =
    "Standard output and status are those of `dsr`; the standard error tells what they mean. \
A file named - is the standard input.";

const JSON: Argument = Argument {
    name: "json",
    kind: Kind::Flag,
    required: false,
    help: "Answer with one JSON document, as docs/JSON.md says",
};

// How what is read of an argument is kept.
fn action_of(kind: Kind) -> ArgAction {
    match kind {
        Kind::Flag => ArgAction::SetTrue,
        Kind::Reads => ArgAction::Append,
        _ => ArgAction::Set,
    }
}

// An argument without what tells how it is written.
fn described_arg<'a>(alloc: Global, argument: Argument) -> Arg<'a> {
    Arg::new(alloc, argument.name)
        .required(argument.required)
        .help(argument.help)
        .action(action_of(argument.kind))
}

// An argument as it is read.
fn arg_of<'a>(alloc: Global, argument: Argument) -> Arg<'a> {
    let arg = described_arg(alloc, argument);
    match argument.kind {
        Kind::Flag => arg.long(argument.name),
        Kind::Reads => arg.num_args(1..),
        _ => arg,
    }
}

// The arguments of a command.
fn args_of<'a>(alloc: Global, arguments: &[Argument]) -> Result<Vec<Arg<'a>>, AllocError> {
    let mut args = Vec::new(alloc);
    for argument in arguments {
        args.push(arg_of(alloc, *argument))?;
    }
    Ok(args)
}

// A command with its arguments.
fn command_of<'a>(alloc: Global, entry: Entry) -> Result<Command<'a>, AllocError> {
    let args = args_of(alloc, entry.arguments)?;
    Command::new(alloc, entry.name)
        .about(entry.about)
        .args(args)
}

// Adds a command.
fn add<'a>(subcommands: &mut Vec<Command<'a>>, entry: Entry) -> Result<(), AllocError> {
    let command = command_of(*subcommands.allocator(), entry)?;
    subcommands.push(command)?;
    Ok(())
}

// All commands.
fn subcommands<'a>(alloc: Global) -> Result<Vec<Command<'a>>, AllocError> {
    let mut subcommands = Vec::new(alloc);
    for entry in commands() {
        add(&mut subcommands, *entry)?;
    }
    Ok(subcommands)
}

// The program with what its help tells.
fn described<'a>(alloc: Global) -> Command<'a> {
    Command::new(alloc, "jumshido")
        .version(VERSION)
        .about(ABOUT)
        .after_help(AFTER)
        .subcommand_required(true)
}

// The program without its commands.
fn program<'a>(alloc: Global) -> Result<Command<'a>, AllocError> {
    described(alloc).arg(arg_of(alloc, JSON).global(true))
}

/// The whole command line. Words of any lifetime can be read by it.
pub fn command_line<'a>(alloc: Global) -> Result<Command<'a>, AllocError> {
    let subcommands = subcommands(alloc)?;
    program(alloc)?.subcommands(subcommands)
}

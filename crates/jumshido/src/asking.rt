// What the words ask for.
use crate::table::{Argument, Kind, arguments_of};
use clap::ArgMatches;
use dsr_explain::Telling;
use dsr_input::INPUT;
use dsr_ir::NoMemory;
use std::alloc::Global;

/// What a command of this program alone shows.
#[derive(Clone, Copy)]
pub enum Asked<'a> {
    /// What a specification says of an image: what a word names, or all where it is empty.
    Show {
        spec: &'a str,
        image: &'a str,
        what: &'a str,
    },
    /// A picture of an image.
    Draw {
        spec: &'a str,
        image: &'a str,
    },
    /// Something of a specification alone.
    Tell {
        spec: &'a str,
        telling: Telling,
    },
    /// A first specification for structures of C.
    Convert {
        structures: &'a str,
    },
}

/// The name of a file that is read, as the other program takes it.
pub fn file_name(name: &str) -> &str {
    if name == "-" { INPUT } else { name }
}

/// The value of an argument; nothing where there is none.
pub fn value_of<'a>(given: &ArgMatches<'a>, id: &str) -> &'a str {
    match given.get_str(id) {
        Some(value) => value,
        None => "",
    }
}

/// The name of a file that is read.
pub fn file_of<'a>(given: &ArgMatches<'a>, id: &str) -> &'a str {
    file_name(value_of(given, id))
}

// Which command tells something of a specification alone.
fn telling_of(command: &str) -> Option<Telling> {
    match command {
        "ways" => Some(Telling::Ways),
        "lint" => Some(Telling::Lint),
        "graph" => Some(Telling::Graph),
        _ => None,
    }
}

/// What a command of this program alone asks for; none of a command of `dsr`.
pub fn asked_of<'a>(command: &str, given: &ArgMatches<'a>) -> Option<Asked<'a>> {
    let (spec, image) = (file_of(given, "SPEC"), file_of(given, "IMAGE"));
    match command {
        "show" => {
            let what = value_of(given, "WHAT");
            Some(Asked::Show { spec, image, what })
        }
        "graph" if !image.is_empty() => Some(Asked::Draw { spec, image }),
        "from-c" => {
            let structures = file_of(given, "FILE");
            Some(Asked::Convert { structures })
        }
        _ => {
            let telling = telling_of(command)?;
            Some(Asked::Tell { spec, telling })
        }
    }
}

// A list of words that grows. That memory ran out is kept, and told in the end.
#[derive(Drop)]
struct Words {
    words: Vec<String>,
    is_cut: bool,
}

impl Words {
    fn new(alloc: Global) -> Words {
        Words {
            words: Vec::new(alloc),
            is_cut: false,
        }
    }

    // Adds a word that was made.
    fn push(&mut self, word: String) {
        if self.words.push(word).is_err() {
            self.is_cut = true;
        }
    }

    // Adds a copy of a word.
    fn add(&mut self, word: &str) {
        match word.to_string(*self.words.allocator()) {
            Ok(word) => self.push(word),
            Err(_) => self.is_cut = true,
        }
    }

    // All of the words, or that memory ran out.
    fn whole(self) -> Result<Vec<String>, NoMemory> {
        if self.is_cut {
            return Err(NoMemory);
        }
        Ok(self.words)
    }
}

// The word that stands for an argument; none where it isn't given.
fn word_of<'a>(given: &ArgMatches<'a>, argument: Argument) -> Option<&'a str> {
    match argument.kind {
        Kind::Reads | Kind::Flag => None,
        Kind::Saved | Kind::Word => given.get_str(argument.name),
        Kind::Read => match given.get_str(argument.name) {
            Some(name) => Some(file_name(name)),
            None => None,
        },
    }
}

/// A command with what stands behind it, but for the images of `check`.
pub fn words_of(
    alloc: Global,
    command: &str,
    given: &ArgMatches<'_>,
) -> Result<Vec<String>, NoMemory> {
    let mut words = Words::new(alloc);
    words.add(command);
    for argument in arguments_of(command) {
        if let Some(word) = word_of(given, *argument) {
            words.add(word);
        }
    }
    words.whole()
}

/// The same words with one more file behind them.
pub fn with_file(alloc: Global, words: &[String], file: &str) -> Result<Vec<String>, NoMemory> {
    let mut more = Words::new(alloc);
    for word in words {
        more.add(word.as_str());
    }
    more.add(file_name(file));
    more.whole()
}

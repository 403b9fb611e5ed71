// The commands, and what stands behind each. The command line, the words that `dsr` takes and what
// shells complete are made of this table.

/// What an argument is.
#[derive(Clone, Copy, PartialEq)]
pub enum Kind {
    /// A file that is read.
    Read,
    /// One or more of them.
    Reads,
    /// A file that is saved.
    Saved,
    /// A word.
    Word,
    /// A flag.
    Flag,
}

/// What may stand behind a command.
#[derive(Clone, Copy)]
pub struct Argument {
    pub name: &'static str,
    pub kind: Kind,
    /// Whether it has to stand there.
    pub required: bool,
    pub help: &'static str,
}

/// A command.
#[derive(Clone, Copy)]
pub struct Entry {
    pub name: &'static str,
    pub about: &'static str,
    /// The arguments in their order.
    pub arguments: &'static [Argument],
}

const IMAGE_HELP: &str =
    "The bytes that are checked: a heap dump, a disk image, a memory-mapped table";

const SPEC: Argument = Argument {
    name: "SPEC",
    kind: Kind::Read,
    required: true,
    help: "The specification's text",
};

const IMAGE: Argument = Argument {
    name: "IMAGE",
    kind: Kind::Read,
    required: true,
    help: IMAGE_HELP,
};

const IMAGES: Argument = Argument {
    name: "IMAGE",
    kind: Kind::Reads,
    required: true,
    help: IMAGE_HELP,
};

const DRAWN: Argument = Argument {
    name: "IMAGE",
    kind: Kind::Read,
    required: false,
    help: IMAGE_HELP,
};

const OUT: Argument = Argument {
    name: "OUT",
    kind: Kind::Saved,
    required: true,
    help: "Where the image that comes of it is saved",
};

const FIXED: Argument = Argument {
    name: "FIXED",
    kind: Kind::Read,
    required: true,
    help: "What a repair saved",
};

const REPORT: Argument = Argument {
    name: "REPORT",
    kind: Kind::Read,
    required: true,
    help: "What a repair printed",
};

const SCRIPT: Argument = Argument {
    name: "SCRIPT",
    kind: Kind::Read,
    required: true,
    help: "Lines `set nodes[0].next 2`, and a line `commit` behind each group of them",
};

const TUPLE: Argument = Argument {
    name: "TUPLE",
    kind: Kind::Word,
    required: true,
    help: "A record in a set, as Nodes:nodes[3], or a pair, as 'Next:<nodes[0],nodes[2]>'",
};

const NEW_CERT: Argument = Argument {
    name: "CERT",
    kind: Kind::Saved,
    required: true,
    help: "Where the certificate is saved",
};

const CERT: Argument = Argument {
    name: "CERT",
    kind: Kind::Read,
    required: true,
    help: "A certificate of a plan",
};

const LENGTH: Argument = Argument {
    name: "N",
    kind: Kind::Word,
    required: true,
    help: "How many nodes the list has, from 0 to 65535",
};

const WHAT: Argument = Argument {
    name: "WHAT",
    kind: Kind::Word,
    required: false,
    help: "What is shown: a record as nodes[3] or head, a set or a relation; all sets without it",
};

const DOT: Argument = Argument {
    name: "dot",
    kind: Kind::Flag,
    required: false,
    help: "In the language of Graphviz, which is the only one",
};

const STRUCTURES: Argument = Argument {
    name: "FILE",
    kind: Kind::Read,
    required: true,
    help: "What gdb printed of structures by `ptype /o struct NAME`",
};

const SHELL: Argument = Argument {
    name: "SHELL",
    kind: Kind::Word,
    required: true,
    help: "bash, zsh or fish",
};

const COMMANDS: &[Entry] = &[
    Entry {
        name: "check",
        about: "Tell whether images are consistent, and each violated constraint with its values",
        arguments: &[SPEC, IMAGES],
    },
    Entry {
        name: "repair",
        about: "Save a consistent image, and tell each change",
        arguments: &[SPEC, IMAGE, OUT],
    },
    Entry {
        name: "undo",
        about: "Take a repair back, by its report",
        arguments: &[SPEC, FIXED, REPORT, OUT],
    },
    Entry {
        name: "audit",
        about: "Tell whether a report and a repaired image are those of the repair",
        arguments: &[SPEC, IMAGE, REPORT, FIXED],
    },
    Entry {
        name: "edit",
        about: "Make writes by hand that leave the image consistent",
        arguments: &[SPEC, IMAGE, SCRIPT, OUT],
    },
    Entry {
        name: "why",
        about: "Tell by which rules a record is in a set",
        arguments: &[SPEC, IMAGE, TUPLE],
    },
    Entry {
        name: "lost",
        about: "List the records to which nothing leads",
        arguments: &[SPEC, IMAGE],
    },
    Entry {
        name: "plan",
        about: "Tell in which order the constraints can be repaired, or what stands in the way",
        arguments: &[SPEC],
    },
    Entry {
        name: "certify",
        about: "Save the plan as a certificate",
        arguments: &[SPEC, NEW_CERT],
    },
    Entry {
        name: "verify",
        about: "Tell whether a certificate is that of a plan",
        arguments: &[SPEC, CERT],
    },
    Entry {
        name: "text",
        about: "Print the specification in its canonical form",
        arguments: &[SPEC],
    },
    Entry {
        name: "trial",
        about: "Repair a list of N nodes in memory that is led astray",
        arguments: &[LENGTH],
    },
    Entry {
        name: "show",
        about: "Show what a specification says of an image: records by fields, sets, relations",
        arguments: &[SPEC, IMAGE, WHAT],
    },
    Entry {
        name: "ways",
        about: "Tell how each constraint would be repaired: what is written by which rule",
        arguments: &[SPEC],
    },
    Entry {
        name: "lint",
        about: "Tell what the specification says nothing about",
        arguments: &[SPEC],
    },
    Entry {
        name: "graph",
        about: "Print a graph for Graphviz: which constraints may break which, or an image",
        arguments: &[SPEC, DRAWN, DOT],
    },
    Entry {
        name: "from-c",
        about: "Print a first specification for structures of C",
        arguments: &[STRUCTURES],
    },
    Entry {
        name: "completions",
        about: "Print what a shell is to read to complete the words of this program",
        arguments: &[SHELL],
    },
];

/// The commands: those of `dsr`, and then those that are of this program alone. Each function that
/// names a table is proved with all of it, so this one alone does.
pub fn commands() -> &'static [Entry] {
    COMMANDS
}

/// The arguments of a command.
pub fn arguments_of(command: &str) -> &'static [Argument] {
    for entry in commands() {
        if entry.name == command {
            return entry.arguments;
        }
    }
    &[]
}

/// The argument of a command under which it saves; none where it saves nothing.
pub fn saved_by(command: &str) -> Option<&'static str> {
    for argument in arguments_of(command) {
        if argument.kind == Kind::Saved {
            return Some(argument.name);
        }
    }
    None
}

// How a run ends.
ghost use Rattle.std.specs.Prelude.{◌≡◌};
ghost use Rattle.dsr_script.specs.Statuses.{status_number};

/// What a command says itself. Its text goes with it.
#[derive(Clone, Copy, PartialEq)]
pub enum Verdict {
    /// The command did what it was asked for, or what it was asked about holds.
    Ok,
    /// The image violates a constraint.
    Inconsistent,
    /// The specification has no plan.
    PlanRefused,
    /// The words of the command line are no command.
    Usage,
    /// The text of the specification isn't in the language, or a check of what it means failed.
    SpecRefused,
    /// The bytes of the image have no layout by the specification.
    LayoutRefused,
    /// A repair needs a fresh record, and its supply has none left.
    SupplyEmpty,
    /// The certificate can't be read, or its choice is no plan.
    CertRefused,
    /// The report can't be read, or doesn't fit the image.
    ReportRefused,
    /// The script of edits can't be read, or one of its edits isn't allowed.
    EditRefused,
}

/// How a run ended.
#[derive(Clone, Copy, PartialEq)]
pub enum Status {
    /// The command said this, and its text was put whole.
    Said(Verdict),
    /// A file that the command asked for couldn't be loaded, or one that it made couldn't be saved.
    StoreFailed,
    /// A text couldn't be put whole, be it an answer or what tells of a file. A file may be saved.
    OutputFailed,
    /// A file is longer than the command allows.
    TooLong,
    /// Memory ran out. No text was put, but a file may be saved.
    NoMemory,
}

impl Status {
    /// The exit status of the program.
    pub fn number(&self) -> u8
        ensures { result ≡ status_number self.now }
    {
        match self {
            Status::Said(Verdict::Ok) => 0,
            Status::Said(Verdict::Inconsistent) => 1,
            Status::Said(Verdict::PlanRefused) => 2,
            Status::Said(Verdict::Usage) => 3,
            Status::Said(Verdict::SpecRefused) => 4,
            Status::Said(Verdict::LayoutRefused) => 5,
            Status::Said(Verdict::SupplyEmpty) => 6,
            Status::StoreFailed => 7,
            Status::OutputFailed => 8,
            Status::TooLong => 9,
            Status::NoMemory => 10,
            Status::Said(Verdict::CertRefused) => 11,
            Status::Said(Verdict::ReportRefused) => 12,
            Status::Said(Verdict::EditRefused) => 13,
        }
    }
}

// The words of the command line.
ghost use Rattle.std.specs.Prelude.{◌≡◌, ◌||◌, Some, map, option_map, string_bytes};
ghost use Rattle.dsr_words.specs.Asking.{asked_for, asked_of};
ghost use Rattle.std.specs.Str.{all_ascii_digits};
ghost use Rattle.dsr_words.specs.Words as said;

/// What is to be done with a specification.
#[derive(Clone, Copy)]
pub enum Task<'a> {
    /// Whether the report is that of the repair of the image, and what that left is the last file,
    /// is told.
    Audit {
        image: &'a str,
        report: &'a str,
        fixed: &'a str,
    },
    /// The certificate of its plan is saved under this name.
    Certify {
        certificate: &'a str,
    },
    /// Whether the image of this name is consistent under it is told.
    Check {
        image: &'a str,
    },
    /// The groups of writes of a script are made on the image, and what comes of it is saved under
    /// the last name.
    Edit {
        image: &'a str,
        script: &'a str,
        out: &'a str,
    },
    /// The records of the image that no set has are told.
    Lost {
        image: &'a str,
    },
    /// Its plan is told.
    Plan,
    /// The image is repaired by its plan, and what comes of it saved under the other name.
    Repair {
        image: &'a str,
        out: &'a str,
    },
    /// Its canonical text is told.
    Text,
    /// What the report tells is taken back from the first file, and what comes of it saved under the
    /// last name.
    Undo {
        fixed: &'a str,
        report: &'a str,
        out: &'a str,
    },
    /// Whether the file of this name is the certificate of a plan for it is told.
    Verify {
        certificate: &'a str,
    },
    /// A shortest chain of rules that gives the fact of this text in the image is told.
    Why {
        image: &'a str,
        fact: &'a str,
    },
}

/// A command, with the names of its files.
#[derive(Clone, Copy)]
pub enum Command<'a> {
    /// A task for the specification of this name.
    Of { spec: &'a str, task: Task<'a> },
    /// The trial of this number.
    Trial(u16),
}

// The command that asks this of a specification.
fn of<'a>(spec: &'a str, task: Task<'a>) -> Option<Command<'a>>
    ensures { option_map asked_of result ≡ Some (asked_for spec.now task.entry) }
{
    Some(Command::Of { spec, task })
}

fn is_odd(word: &str) -> bool
    ensures { result ≡ said.is_odd word.now }
{
    match word.as_bytes() {
        [] => true,
        [first, ..] => *first == b'-',
    }
}

// Whether one of four words is odd.
fn any_odd(spec: &str, image: &str, file: &str, word: &str) -> bool
    ensures { result ≡ said.is_odd spec.now || said.is_odd image.now || said.is_odd file.now
        || said.is_odd word.now }
{
    if is_odd(spec) || is_odd(image) {
        return true;
    }
    is_odd(file) || is_odd(word)
}

fn are_digits(word: &[u8]) -> bool
    ensures { result ≡ all_ascii_digits word.now }
{
    for byte in word {
        if !byte.is_ascii_digit() {
            return false;
        }
    }
    true
}

// The number of a trial. Zeros may stand in front of it.
fn trial_number(word: &str) -> Option<u16>
    ensures { result ≡ said.trial_number word.now }
{
    if word.len() > 5 || !are_digits(word.as_bytes()) {
        return None;
    }
    word.parse::<u16>().ok()
}

fn to_try<'a>(word: &str) -> Option<Command<'a>>
    ensures { option_map asked_of result ≡ said.to_try word.now }
{
    Some(Command::Trial(trial_number(word)?))
}

// The commands with one word behind them.
fn with_one<'a>(command: &str, word: &'a str) -> Option<Command<'a>>
    ensures { option_map asked_of result ≡ said.with_one command.now word.now }
{
    if command == "text" {
        return of(word, Task::Text);
    }
    if command == "plan" {
        return of(word, Task::Plan);
    }
    if command == "trial" {
        return to_try(word);
    }
    None
}

// What is saved has another name than the specification.
fn certify<'a>(spec: &'a str, certificate: &'a str) -> Option<Command<'a>>
    ensures { option_map asked_of result ≡ said.to_certify spec.now certificate.now }
{
    if certificate == spec {
        return None;
    }
    of(spec, Task::Certify { certificate })
}

// Those with two.
fn with_two<'a>(command: &str, spec: &'a str, file: &'a str) -> Option<Command<'a>>
    ensures { option_map asked_of result ≡ said.with_two command.now spec.now file.now }
{
    if command == "check" {
        return of(spec, Task::Check { image: file });
    }
    if command == "certify" {
        return certify(spec, file);
    }
    if command == "verify" {
        return of(spec, Task::Verify { certificate: file });
    }
    if command == "lost" {
        return of(spec, Task::Lost { image: file });
    }
    None
}

// What is saved has another name than the specification, and may have that of the image.
fn repair<'a>(spec: &'a str, image: &'a str, out: &'a str) -> Option<Command<'a>>
    ensures { option_map asked_of result ≡ said.to_repair spec.now image.now out.now }
{
    if out == spec {
        return None;
    }
    of(spec, Task::Repair { image, out })
}

// Those with three.
fn with_three<'a>(
    command: &str,
    spec: &'a str,
    image: &'a str,
    word: &'a str,
) -> Option<Command<'a>>
    ensures { option_map asked_of result ≡ said.with_three command.now spec.now image.now word.now }
{
    if command == "repair" {
        return repair(spec, image, word);
    }
    if command == "why" {
        return of(spec, Task::Why { image, fact: word });
    }
    None
}

fn undo<'a>(spec: &'a str, fixed: &'a str, report: &'a str, out: &'a str) -> Option<Command<'a>>
    ensures { option_map asked_of result ≡ said.to_undo spec.now fixed.now report.now out.now }
{
    if out == spec {
        return None;
    }
    of(spec, Task::Undo { fixed, report, out })
}

fn edit<'a>(spec: &'a str, image: &'a str, script: &'a str, out: &'a str) -> Option<Command<'a>>
    ensures { option_map asked_of result ≡ said.to_edit spec.now image.now script.now out.now }
{
    if out == spec {
        return None;
    }
    of(spec, Task::Edit { image, script, out })
}

// Those with four.
fn with_four<'a>(
    command: &str,
    spec: &'a str,
    image: &'a str,
    file: &'a str,
    word: &'a str,
) -> Option<Command<'a>>
    ensures { option_map asked_of result
        ≡ said.with_four command.now spec.now image.now file.now word.now }
{
    if command == "audit" {
        return of(
            spec,
            Task::Audit {
                image,
                report: file,
                fixed: word,
            },
        );
    }
    if command == "undo" {
        return undo(spec, image, file, word);
    }
    if command == "edit" {
        return edit(spec, image, file, word);
    }
    None
}

/// What the words ask for; none where they are no command.
pub fn command_of(words: &[String]) -> Option<Command<'_>>
    ensures { option_map asked_of result ≡ said.command_of (map string_bytes words.now) }
{
    match words {
        [command, word] => {
            if is_odd(word.as_str()) {
                return None;
            }
            with_one(command.as_str(), word.as_str())
        }
        [command, spec, file] => {
            if is_odd(spec.as_str()) || is_odd(file.as_str()) {
                return None;
            }
            with_two(command.as_str(), spec.as_str(), file.as_str())
        }
        [command, spec, image, word] => {
            if is_odd(spec.as_str()) || is_odd(image.as_str()) || is_odd(word.as_str()) {
                return None;
            }
            with_three(
                command.as_str(),
                spec.as_str(),
                image.as_str(),
                word.as_str(),
            )
        }
        [command, spec, image, file, word] => {
            if any_odd(spec.as_str(), image.as_str(), file.as_str(), word.as_str()) {
                return None;
            }
            with_four(
                command.as_str(),
                spec.as_str(),
                image.as_str(),
                file.as_str(),
                word.as_str(),
            )
        }
        _ => None,
    }
}

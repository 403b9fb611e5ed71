// Colours of what is told on a terminal.
use dsr_ir::NoMemory;
use dsr_wording::Text;
use std::alloc::Global;

const RED: &str = "\x1b[1;31m";

const BLUE: &str = "\x1b[34m";

const PLAIN: &str = "\x1b[0m";

// Whether a line has nothing but a mark.
fn is_mark(line: &str) -> bool {
    let mut has_mark = false;
    for letter in line.chars() {
        if letter != ' ' && letter != '|' && letter != '^' {
            return false;
        }
        has_mark = has_mark || letter == '^';
    }
    has_mark
}

// The colour of a line.
fn colour_of(line: &str) -> &'static str {
    let is_error = line.starts_with("error: ") || line.contains(": error: ");
    if is_error || is_mark(line) || line.starts_with("    false:") {
        RED
    } else if line.starts_with("      = ") {
        BLUE
    } else {
        ""
    }
}

/// The text with its lines coloured.
pub fn coloured(alloc: Global, text: &str) -> Result<String, NoMemory> {
    let mut shown = Text::new(alloc);
    for line in text.lines() {
        let colour = colour_of(line);
        shown.push(colour);
        shown.push(line);
        shown.push(if colour.is_empty() { "" } else { PLAIN });
        shown.push("\n");
    }
    shown.whole()
}

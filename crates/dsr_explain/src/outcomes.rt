// What the last line of an answer means, of commands that did what they were asked for.
use crate::lines::word_at;
use dsr_wording::Text;

// The number that the last line of an answer tells.
fn count_of(out: &str) -> &str {
    let out = out.trim();
    let last = match out.rsplit_once('\n') {
        Some((_, last)) => last,
        None => out,
    };
    word_at(last, 1)
}

const AUDIT: &str = "the report tells each step of the repair of the image, ";

const AUDITED: &str = " in all, and the other image is what they leave\n";

const UNDO: &str = ": the image with the steps of the report taken back, ";

const EDIT: &str = ": the image with all writes of the script; it is consistent after each group, ";

const LOST: &str = "records to which no rule leads, and so in no set but complements: ";

const IN_ALL: &str = " in all\n";

// The name that a sentence begins with, if any, and what stands before and behind the number in it.
fn words_of<'a>(command: &str, saved: &'a str) -> Option<(&'a str, &'static str, &'static str)> {
    match command {
        "audit" => Some(("", AUDIT, AUDITED)),
        "undo" => Some((saved, UNDO, IN_ALL)),
        "edit" => Some((saved, EDIT, IN_ALL)),
        "lost" => Some(("", LOST, IN_ALL)),
        _ => None,
    }
}

/// Appends what an answer means by its last line; nothing for a command whose answer says it.
pub fn outcome_told(text: &mut Text, command: &str, saved: &str, out: &str) {
    if let Some((name, before, behind)) = words_of(command, saved) {
        text.push(name);
        text.push(before);
        text.push(count_of(out));
        text.push(behind);
    }
}

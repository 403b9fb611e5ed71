// Why certificates, reports and scripts of edits are refused, in words. The second word of the line
// that says so is a kind; what is told of a kind stands behind the name of the file.
use crate::lines::{push_filled, push_where, word_at};
use dsr_wording::Text;

// What is told of a certificate.
fn of_certificate(kind: &str) -> &'static str {
    match kind {
        "1" =>
            ":{2}: error: this line isn't what a certificate of this specification has there, or isn't there\n",
        "2" =>
            ": error: where all that is tested of `{2}` fails, none of its conjunctions is left to be repaired\n",
        "3" =>
            ": error: no template with this number is listed for literal {3} of `{2}`, or the literal is `given`\n",
        "4" =>
            ": error: the template of literal {3} of `{2}` may make another literal of its conjunction false\n",
        "5" => ": error: a template of `{2}` may break `{3}`, which isn't on a higher level\n",
        _ => ": error: `{2}` relies on `{3}`, which isn't on a lower level\n",
    }
}

/// Appends why a certificate is refused, by the line that says so.
pub fn certificate_refused(text: &mut Text, file: &str, out: &str) {
    text.push(file);
    push_filled(text, of_certificate(word_at(out, 1)), out);
}

// What is told of a report.
fn of_report(kind: &str) -> &'static str {
    match kind {
        "1" => ":{2}: error: this line isn't of the form of a report, or isn't there\n",
        "2" => ": error: step {2} isn't the one that is due there\n",
        "3" => ": error: all its {2} steps are right, but the repair goes on behind them\n",
        "4" =>
            ": error: its steps are right, but the repaired image differs from what they leave, first at byte {2}\n",
        "5" =>
            ": error: byte {3} of step {2} isn't in the image, or hasn't the value that the step left\n",
        _ => ": error: taking back byte {3} of step {2} would change a fixed field\n",
    }
}

/// Appends why a report is refused, by the line that says so.
pub fn report_refused(text: &mut Text, file: &str, out: &str) {
    text.push(file);
    push_filled(text, of_report(word_at(out, 1)), out);
}

const SCRIPT_LINE: &str = "\
:{2}: error: this line is none of `set RECORD.FIELD VALUE`, `set RECORD.FIELD[INDEX] VALUE` and \
`commit`, or isn't there: the last line is `commit`\n";

const SCRIPT_FIELD: &str = "\
:{2}: error: this line names no field of a record, or a fixed one, or its value is too great for the \
field\n";

// What is told of a script of edits.
fn of_script(kind: &str) -> &'static str {
    match kind {
        "1" => SCRIPT_LINE,
        "2" => SCRIPT_FIELD,
        _ => ": error: after group {2} the constraint `{3}` would be violated",
    }
}

/// Appends why a script of edits is refused, by the line that says so.
pub fn edit_refused(text: &mut Text, file: &str, out: &str) {
    let kind = word_at(out, 1);
    text.push(file);
    push_filled(text, of_script(kind), out);
    if kind == "3" {
        push_where(text, word_at(out, 4));
        text.push("\n");
    }
}

// Lines of answers, by their words.
use dsr_wording::Text;

/// The word of a line at a place, counted from 0; nothing behind the last one.
pub fn word_at(line: &str, place: usize) -> &str {
    line.split_whitespace().nth(place).unwrap_or("")
}

// The word of a line at a place that is written as a number.
fn word_of<'a>(line: &'a str, place: &str) -> &'a str {
    match place.parse::<usize>() {
        Ok(place) => word_at(line, place),
        Err(_) => "",
    }
}

/// Appends a template with words of a line: each number in braces stands for the word at that place.
pub fn push_filled(text: &mut Text, template: &str, line: &str) {
    for part in template.split('{') {
        match part.split_once('}') {
            Some((place, behind)) => {
                text.push(word_of(line, place));
                text.push(behind);
            }
            None => text.push(part),
        }
    }
}

/// Appends for which records a constraint is violated; nothing where it has no quantifier.
pub fn push_where(text: &mut Text, binding: &str) {
    if binding != "-" {
        text.push(" at ");
        text.push(binding);
    }
}

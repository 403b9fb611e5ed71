// What is told of guards that don't fit what they test.
use dsr_declarations::{is_other_head, place_of, record_name};
use dsr_passages::Words;
use dsr_tree::{Guard, Path, Rule};

// Where a guard begins.
fn guard_place(guard: &Guard) -> u64 {
    match guard {
        Guard::Tested {
            place,
            test: _,
            path: _,
        } => *place,
        Guard::Compared {
            path,
            compare: _,
            number: _,
        } => place_of(&path.var),
    }
}

// The guard of a rule that begins at a place.
fn guard_at(rule: &Rule, place: u64) -> Option<&Guard> {
    let guards = match &rule.guards {
        Some(guards) => guards,
        None => return None,
    };
    if guard_place(&guards.first) == place {
        return Some(&guards.first);
    }
    for guard in guards.rest.items() {
        if guard_place(guard) == place {
            return Some(guard);
        }
    }
    None
}

const ALONE: &str = "this rule reads fields of `{}` alone, as `{}.f`";

/// That a rule reads the head where its record is another one.
pub fn say_other_head(words: &mut Words, rule: &Rule) {
    words.say("`head` isn't the record of this rule");
    let name = record_name(rule);
    words.hint_of(ALONE, &[name, name]);
}

const TESTED: &str =
    "`legal`, `illegal`, `none` and `some` test references; a number is compared, as `x.f = 1`";

// That what a guard tests is a number.
fn say_tested(words: &mut Words, rule: &Rule, path: &Path) {
    if is_other_head(rule, &path.var) {
        say_other_head(words, rule);
        return;
    }
    let field = path.field.name.bytes();
    words.say_of("`{}` is a number, and no reference", &[field]);
    words.hint(TESTED);
}

const COMPARED: &str =
    "a reference is tested by `legal(x.f)`, `illegal(x.f)`, `none(x.f)` or `some(x.f)`";

// That what a guard compares is a reference.
fn say_compared(words: &mut Words, rule: &Rule, path: &Path) {
    if is_other_head(rule, &path.var) {
        say_other_head(words, rule);
        return;
    }
    let field = path.field.name.bytes();
    words.say_of("`{}` is a reference, and compared with no number", &[field]);
    words.hint(COMPARED);
}

const GUARDS: &str = "references are tested by `legal(x.f)` and the like, numbers are compared";

/// That a guard at a place doesn't fit what it tests.
pub fn say_guard(words: &mut Words, rule: &Rule, place: u64) {
    match guard_at(rule, place) {
        Some(
            Guard::Tested {
                place: _,
                test: _,
                path,
            },
        ) => say_tested(words, rule, path),
        Some(
            Guard::Compared {
                path,
                compare: _,
                number: _,
            },
        ) => say_compared(words, rule, path),
        None => {
            words.say("this guard doesn't fit what it tests");
            words.hint(GUARDS);
        }
    }
}

// Records, targets and facts in words.
use dsr_ir::{Element, Fact, Target};
use dsr_test_text::Lines;

pub fn add_element(lines: &mut Lines, elem: Element) {
    lines.part(" ", u64::from(elem.pool));
    lines.part(".", u64::from(elem.slot));
}

pub fn add_target(lines: &mut Lines, target: Target) {
    match target {
        Target::Elem(elem) => add_element(lines, elem),
        Target::Num(number) => lines.part(" #", number),
    }
}

pub fn add_fact(lines: &mut Lines, fact: Fact) {
    match fact {
        Fact::Member(set, elem) => {
            lines.part(" set ", u64::from(set));
            add_element(lines, elem);
        }
        Fact::Pair(rel, elem, target) => {
            lines.part(" relation ", u64::from(rel));
            add_element(lines, elem);
            add_target(lines, target);
        }
    }
}

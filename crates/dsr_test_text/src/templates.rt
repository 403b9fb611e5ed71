// Templates in words. Fields stand as the numbers of their structure and their place there.
use crate::lines::Lines;
use dsr_ir::{At, Goal, Measure, Op, Path, Pick, Place, Template, Test, Update, Var, Write};

fn var_word(var: Var) -> &'static str {
    match var {
        Var::Head => "head",
        Var::First => "first",
        Var::Second => "second",
    }
}

fn goal_word(goal: Goal) -> &'static str {
    match goal {
        Goal::AddSet => "add-set",
        Goal::RemoveSet => "remove-set",
        Goal::AddTuple => "add-tuple",
        Goal::RemoveTuple => "remove-tuple",
        Goal::SetValue => "set-value",
        Goal::Trim => "trim",
        Goal::Supply => "supply",
        Goal::ExactlyOne => "exactly-one",
    }
}

fn op_word(op: Op) -> &'static str {
    match op {
        Op::Eq => " = ",
        Op::Ne => " != ",
        Op::Lt => " < ",
        Op::Le => " <= ",
        Op::Gt => " > ",
        Op::Ge => " >= ",
    }
}

fn add_place(lines: &mut Lines, place: Place) {
    match place {
        Place::Head => lines.word(" at head"),
        Place::Of(var) => {
            lines.word(" at ");
            lines.word(var_word(var));
        }
        Place::Deriver => lines.word(" at deriver"),
    }
}

fn add_entry(lines: &mut Lines, at: At) {
    match at {
        At::Scalar => {}
        At::SlotOf(var) => {
            lines.word(" entry of ");
            lines.word(var_word(var));
        }
        At::Deriver => lines.word(" entry of deriver"),
    }
}

fn add_measure(lines: &mut Lines, measure: Measure) {
    match measure {
        Measure::Whole(set) => lines.part(" size of set ", u64::from(set)),
        Measure::Out(var, rel) => {
            lines.word(" size of targets of ");
            lines.word(var_word(var));
            lines.part(" under ", u64::from(rel));
        }
        Measure::Into(rel, var) => {
            lines.word(" size of sources of ");
            lines.word(var_word(var));
            lines.part(" under ", u64::from(rel));
        }
    }
}

fn add_pick(lines: &mut Lines, pick: Pick) {
    match pick {
        Pick::Num(number) => lines.part(" ", number),
        Pick::NoneCode => lines.word(" none"),
        Pick::CodeOf(var) => {
            lines.word(" code of ");
            lines.word(var_word(var));
        }
        Pick::Fresh => lines.word(" code of fresh"),
        Pick::SizeOf(measure) => add_measure(lines, measure),
    }
}

fn add_test(lines: &mut Lines, test: Test) {
    match test {
        Test::Cmp(op, value) => lines.part(op_word(op), value),
        Test::Legal => lines.word(" legal"),
        Test::Illegal => lines.word(" illegal"),
        Test::IsNone => lines.word(" none"),
        Test::IsSome => lines.word(" some"),
    }
}

fn add_path(lines: &mut Lines, path: Path) {
    lines.part("          ", u64::from(path.field.structure));
    lines.part(".", u64::from(path.field.field));
    lines.word(if path.indexed { "[k]" } else { "" });
}

fn add_write(lines: &mut Lines, write: &Write) {
    add_path(lines, write.path);
    lines.word(" gets");
    add_pick(lines, write.pick);
    if let Some((test, wanted)) = write.wants {
        lines.word(if wanted { ", wants" } else { ", wants not" });
        add_test(lines, test);
    }
    lines.word("\n");
}

fn add_update(lines: &mut Lines, update: &Update) {
    lines.part("        rule ", u64::from(update.rule));
    add_place(lines, update.place);
    add_entry(lines, update.at);
    if let Some(pool) = update.fresh {
        lines.part(" fresh of ", u64::from(pool));
    }
    lines.word("\n");
    for write in update.writes.items() {
        add_write(lines, write);
    }
}

/// An update or several, behind the word for their goal.
pub fn add_template(lines: &mut Lines, template: &Template) {
    lines.word("      ");
    lines.word(goal_word(template.goal));
    lines.word("\n");
    for update in template.updates.items() {
        add_update(lines, update);
    }
}

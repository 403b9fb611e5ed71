// Templates in words: what is written where.
use dsr_answers::{field_name, pool_name};
use dsr_ir::{At, Goal, Pick, Place, Spec, Template, Update, Write};
use dsr_show::{Variables, push_measure, push_var};
use dsr_wording::Text;

// What a template is for.
fn purpose(goal: Goal) -> &'static str {
    match goal {
        Goal::AddSet => "the member joins",
        Goal::RemoveSet => "the member leaves",
        Goal::AddTuple => "the pair joins",
        Goal::RemoveTuple => "the pair leaves",
        Goal::SetValue => "the value is set",
        Goal::Trim => "the greatest of what is counted leaves, again and again",
        Goal::Supply => "a fresh record joins",
        Goal::ExactlyOne =>
            "a fresh record joins where there is none, and the greatest leaves where there are more",
    }
}

// Appends the record that is written.
fn push_place(text: &mut Text, spec: &Spec, variables: Variables<'_>, place: Place) {
    match place {
        Place::Head => text.push("head"),
        Place::Of(var) => push_var(text, spec, variables, var),
        Place::Deriver => text.push("the record that gives it"),
    }
}

// The entry that is written, where it is one of an array.
fn entry_name(at: At) -> &'static str {
    match at {
        At::Scalar => "",
        At::SlotOf(_) | At::Deriver => "[..]",
    }
}

// Appends the value that is written.
fn push_pick(text: &mut Text, spec: &Spec, variables: Variables<'_>, pick: &Pick) {
    match pick {
        Pick::Num(number) => text.number(*number),
        Pick::NoneCode => text.push("none"),
        Pick::CodeOf(var) => push_var(text, spec, variables, *var),
        Pick::Fresh => text.push("the fresh record"),
        Pick::SizeOf(measure) => push_measure(text, spec, variables, measure),
    }
}

// Appends a write.
fn push_write(
    text: &mut Text,
    spec: &Spec,
    variables: Variables<'_>,
    update: &Update,
    write: &Write,
) {
    let number = write.path.field;
    text.push("; ");
    push_place(text, spec, variables, update.place);
    text.fill(".{}", &[field_name(spec, number.structure, number.field)]);
    text.push(entry_name(update.at));
    text.push(" := ");
    push_pick(text, spec, variables, &write.pick);
}

// Appends the rule of an update, and from which pool a record is taken, if any.
fn push_rule(text: &mut Text, spec: &Spec, update: &Update) {
    text.push("; by rule ");
    text.number(u64::from(update.rule.saturating_add(1)));
    if let Some(pool) = update.fresh {
        text.fill("; a fresh record of {} is reset", &[pool_name(spec, pool)]);
    }
}

// Appends an update.
fn push_update(text: &mut Text, spec: &Spec, variables: Variables<'_>, update: &Update) {
    push_rule(text, spec, update);
    for write in update.writes.items() {
        push_write(text, spec, variables, update, write);
    }
}

/// Appends what a template writes.
pub fn push_template(text: &mut Text, spec: &Spec, variables: Variables<'_>, template: &Template) {
    text.push(purpose(template.goal));
    for update in template.updates.items() {
        push_update(text, spec, variables, update);
    }
}

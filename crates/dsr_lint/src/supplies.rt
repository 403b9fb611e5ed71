// What is said of supplies of fresh records.
use crate::uses::is_given;
use dsr_ir::{Pool, Spec, Symbol};
use dsr_wording::{Text, numbered};

// Whether each rule that gives a set gives the member of a premise that is avoided.
fn comes_from(spec: &Spec, set: u32, avoided: &[u32]) -> bool {
    for rule in spec.rules.items() {
        if !rule.inc.gives(Symbol::Set(set)) {
            continue;
        }
        let from_own = rule.inc.target().is_none();
        match rule.premise {
            Some(premise) if from_own && avoided.contains(&premise) => {}
            _ => return false,
        }
    }
    true
}

// Appends that a supply doesn't avoid a set.
fn push_reset(text: &mut Text, pool: &[u8], set: &[u8]) {
    text.push("fresh ");
    text.name(pool);
    text.push(": it doesn't avoid ");
    text.name(set);
    text.push(", so a member of it may be reset\n");
}

const TAKEN: &str = ": a record that nothing leads to is taken and reset, whatever it holds\n";

// Appends which sets of a pool its supply doesn't avoid.
fn push_pool(text: &mut Text, spec: &Spec, number: u32, pool: &Pool) {
    let Some(avoided) = &pool.avoid else {
        return;
    };
    for (place, set) in spec.base.sets.items().iter().enumerate() {
        let which = numbered(place);
        let is_other = set.pool != number || set.except.is_some();
        if is_other || avoided.items().contains(&which) || !is_given(spec, Symbol::Set(which)) {
            continue;
        }
        if !comes_from(spec, which, avoided.items()) {
            push_reset(text, pool.name.bytes(), set.name.bytes());
        }
    }
    text.push("fresh ");
    text.name(pool.name.bytes());
    text.push(TAKEN);
}

/// Appends what is to be said of all supplies.
pub fn push_supplies(text: &mut Text, spec: &Spec) {
    for (number, pool) in spec.base.pools.items().iter().enumerate() {
        push_pool(text, spec, numbered(number).saturating_add(1), pool);
    }
}

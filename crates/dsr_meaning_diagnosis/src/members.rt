// What is told of members that rules give to sets of other pools.
use crate::guards::say_other_head;
use dsr_declarations::{is_other_head, named, pool_of, read_field, target_of};
use dsr_passages::Words;
use dsr_tree::{Member, MemberPart, Rule, Tree, Var};

/// Adds where a field of a rule's record leads, or that it is a number.
pub fn hint_field(words: &mut Words, tree: &Tree, rule: &Rule, name: &[u8]) {
    let Some(field) = read_field(tree, rule, name) else {
        return;
    };
    match target_of(field) {
        Some(pool) => words.hint_of("`{}` leads to the pool `{}`", &[name, pool]),
        None => words.hint_of("`{}` is a number", &[name]),
    }
}

/// Adds of which pool a rule's record is, by its name.
pub fn hint_record(words: &mut Words, tree: &Tree, rule: &Rule, name: &[u8]) {
    let pool = pool_of(tree, rule).unwrap_or(b"");
    words.hint_of("`{}` is a record of the pool `{}`", &[name, pool]);
}

// Adds what is known of a member that a rule gives.
fn hint_member(words: &mut Words, tree: &Tree, rule: &Rule, member: &Member) {
    match (&member.part, &member.var) {
        (Some(MemberPart::Field { field, index: _ }), _) => {
            hint_field(words, tree, rule, field.name.bytes());
        }
        (Some(MemberPart::Slot(_)), Var::Name(pool)) => {
            words.hint_of(
                "what is given is a slot of the pool `{}`",
                &[pool.name.bytes()],
            );
        }
        (None, Var::Name(name)) => hint_record(words, tree, rule, name.name.bytes()),
        _ => {}
    }
}

// Whether a rule gives the head itself.
fn gives_head(member: &Member) -> bool {
    match (&member.part, &member.var) {
        (Some(MemberPart::Field { field: _, index: _ }), _) => false,
        (_, Var::Head { place: _ }) => true,
        (_, Var::Name(_)) => false,
    }
}

/// That what a rule gives to a set isn't of its pool.
pub fn say_member(words: &mut Words, tree: &Tree, rule: &Rule, member: &Member, set: &[u8]) {
    if gives_head(member) {
        words.say("the head is in no set");
        words.hint("a rule gives one of its references, as `head.f in S`");
        return;
    }
    if is_other_head(rule, &member.var) {
        say_other_head(words, rule);
        return;
    }
    words.say("what is given isn't of the set's pool");
    hint_member(words, tree, rule, member);
    if let Some(declared) = named(tree.sets.items(), set) {
        let pool = declared.pool.name.bytes();
        words.hint_of("`{}` is a set of the pool `{}`", &[set, pool]);
    }
}

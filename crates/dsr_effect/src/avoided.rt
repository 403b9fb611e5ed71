// The sets of which a fresh record is no member.
ghost use Rattle.std.specs.Prelude.{◌<◌, ◌↔◌, ℕ, Decides, IsTrue, List, MatchBool, length, slice_index_or, false};
ghost use Rattle.dsr_effect.specs.AvoidedMarks.{AreAvoided, AreNamed, AreStillMarked, GivesAvoided, GivesAvoidedTo, IsClosed, IsGivenAvoided, unmarked};
ghost use Rattle.dsr_facts.specs.Marks.{IsMarked};
ghost use Rattle.dsr_meaning.specs.Counting.{IsIn};
ghost use Rattle.dsr_meaning.specs.Typed.{IsTyped};
ghost use Rattle.dsr_update_theory.specs.Avoided.{IsAvoided};

use dsr_facts::MOST_SETS;
use dsr_ir::{Inc, Rule, Spec, Symbol};

/// Whether the set is marked.
pub fn is_marked(marks: &[bool; MOST_SETS], set: u32) -> bool
    ensures { Decides result (IsMarked marks.now set) }
{
    marks.get(set as usize) == Some(&true)
}

// Whether the rule gives members of a premise that is marked.
fn gives_avoided(rule: &Rule, marks: &[bool; MOST_SETS]) -> bool
    ensures { Decides result (GivesAvoided marks.now rule.now) }
{
    match (rule.premise, rule.inc) {
        (Some(premise), Inc::Own(_) | Inc::OwnPair(_, _)) => is_marked(marks, premise),
        _ => false,
    }
}

// Whether the rule gives members of a marked premise, where it gives members of the set.
fn gives_avoided_to(rule: &Rule, set: u32, marks: &[bool; MOST_SETS]) -> bool
    ensures { Decides result (GivesAvoidedTo marks.now set rule.now) }
{
    !rule.inc.gives(Symbol::Set(set)) || gives_avoided(rule, marks)
}

// Whether the set is no complement, and each of its rules gives members of a marked premise.
fn is_given_avoided(spec: &Spec, set: u32, marks: &[bool; MOST_SETS]) -> bool
    ensures { Decides result (IsGivenAvoided spec.now marks.now set) }
{
    let Some(declared) = spec.base.sets.items().get(set as usize) else {
        return false;
    };
    declared.except.is_none()
        && spec
            .rules
            .items()
            .iter()
            .all(|rule| gives_avoided_to(rule, set, marks))
}

// Marks the sets that follow from the marked ones, and tells whether there was one.
fn mark_given(spec: &Spec, marks: &mut [bool; MOST_SETS]) -> bool
    ensures sound { (avoid : List ℕ) → AreAvoided spec.now avoid marks.old
        → AreAvoided spec.now avoid marks.new }
    ensures kept { AreStillMarked marks.old marks.new }
    ensures progress { MatchBool result (unmarked marks.new < unmarked marks.old)
        (IsClosed spec.now marks.new) }
{
    let mut grew = false;
    for set in 0..spec.base.sets.items().len().min(MOST_SETS) as u32 {
        if !marks[set as usize] && is_given_avoided(spec, set, marks) {
            marks[set as usize] = true;
            grew = true;
        }
    }
    grew
}

// Marks the sets that a supply names.
fn mark_named(avoid: &[u32]) -> [bool; MOST_SETS]
    ensures sound { (set : ℕ) → IsMarked result set → IsIn set avoid.now }
    ensures all { AreNamed avoid.now result }
{
    let mut marks = [false; MOST_SETS];
    for set in avoid {
        if (*set as usize) < MOST_SETS {
            marks[*set as usize] = true;
        }
    }
    marks
}

/// For each set whether no fresh record is a member, where the supply names these sets.
pub fn avoided_sets(spec: &Spec, avoid: &[u32]) -> [bool; MOST_SETS]
    requires typed { IsTyped spec.now }
    ensures { (set : ℕ) → set < length spec.now.base.sets
        → IsTrue (slice_index_or result set false) ↔ IsAvoided spec.now avoid.now set }
{
    let mut marks = mark_named(avoid);
    while mark_given(spec, &mut marks) {}
    marks
}

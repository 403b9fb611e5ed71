// Where a removal by a rule writes.
ghost use Rattle.std.specs.Prelude.{◌≡◌};
ghost use Rattle.dsr_goal.specs.Places as places;
ghost use Rattle.dsr_update_theory.specs.Templates as templates;

use crate::kinds::{is_own, is_slot};
use dsr_ir::{At, Place, Rule, Span, Var};

// The record of the instance that gives what is to be removed.
fn instance_place(rule: &Rule) -> Place
    ensures { result ≡ places.instance_place rule.now }
{
    if rule.premise.is_some() {
        Place::Deriver
    } else {
        Place::Head
    }
}

// That of a variable other than `Var::Head`, where the rule gives the record itself.
fn variable_place(var: Var, rule: &Rule) -> Place
    ensures { result ≡ places.variable_place var rule.now }
{
    if is_own(&rule.inc) {
        Place::Of(var)
    } else {
        instance_place(rule)
    }
}

/// The record that a removal by the rule writes; the variable is that of the member or source that
/// is to be removed.
pub fn removal_place(var: Option<Var>, rule: &Rule) -> Place
    ensures { result ≡ templates.removal_place var rule.now }
{
    match var {
        Some(Var::First) => variable_place(Var::First, rule),
        Some(Var::Second) => variable_place(Var::Second, rule),
        Some(Var::Head) | None => instance_place(rule),
    }
}

/// The entry that a removal by the rule writes.
pub fn removal_at(var: Option<Var>, rule: &Rule) -> At
    ensures { result ≡ templates.removal_at var rule.now }
{
    match (var, rule.span) {
        (Some(var), _) if is_slot(&rule.inc) => At::SlotOf(var),
        (_, Span::Single) => At::Scalar,
        _ => At::Deriver,
    }
}

// The first reason for which a template breaks a constraint, and whether it may falsify a literal.
ghost use Rattle.std.specs.Prelude.{◌≡◌, All, Decides};
ghost use Rattle.dsr_graph_theory.specs.Breaks.{IsFirstReason, MayBreakBy, SomeUpdate};
ghost use Rattle.dsr_graph_theory.specs.Causes.{symbol_of};
ghost use Rattle.dsr_graph_theory.specs.Excuses.{MayHappen};
ghost use Rattle.dsr_graph_theory.specs.declared.causes.Cause.{Cause as CauseOf};
ghost use Rattle.dsr_compensate.specs.Taking.{IsJudged};
ghost use Rattle.dsr_graph.specs.Told.{IsOfDeclared, TellsExcuses};
ghost use Rattle.dsr_graph_theory.specs.Owners.{Owner as OwnerOf};
ghost use Rattle.dsr_meaning.specs.Counting.{IsIn};
ghost use Rattle.dsr_compensate.specs.Owned.{IsSound, owner_of};
ghost use Rattle.dsr_update_theory.specs.Effects.{IsDeclared};

use crate::excuses::Excuses;
use crate::happening::{is_some, tags_for};
use dsr_compensate::{Judged, Owner};
use dsr_graph_theory::{Cause, Reason};

// Whether one of the template's updates may break the other constraint by this cause.
fn some_may_break(owner: &Owner, excuses: &Excuses, judged: &Judged, cause: &Cause) -> bool
    requires sound { IsSound owner.now }
    requires declared { IsOfDeclared (owner_of owner.now).spec.base cause.now }
    requires judged { IsJudged (owner_of owner.now) judged.now }
    ensures { (other : OwnerOf) → TellsExcuses (owner_of owner.now) other excuses.now
        → Decides result (SomeUpdate (owner_of owner.now) judged.now.template
        (MayBreakBy (owner_of owner.now) other cause.now)) }
{
    let base = &owner.spec().base;
    let updates = judged.template.updates.items();
    let effects = judged.effects.items();
    for place in 0..updates.len() {
        if excuses.may_break(base, &updates[place], &effects[place], cause) {
            return true;
        }
    }
    false
}

/// The first reason for which the template breaks the other constraint, which may be broken by
/// these causes.
pub fn first_reason(
    owner: &Owner,
    excuses: &Excuses,
    judged: &Judged,
    causes: &[Cause],
) -> Option<Reason>
    requires sound { IsSound owner.now }
    requires declared { All (IsOfDeclared (owner_of owner.now).spec.base) causes.now }
    requires judged { IsJudged (owner_of owner.now) judged.now }
    ensures { (other : OwnerOf) → TellsExcuses (owner_of owner.now) other excuses.now
        → IsFirstReason (λ cause. SomeUpdate (owner_of owner.now) judged.now.template
        (MayBreakBy (owner_of owner.now) other cause)) causes.now result }
{
    for cause in causes {
        if some_may_break(owner, excuses, judged, cause) {
            return Some(cause.reason);
        }
    }
    None
}

// Whether one of the template's updates may do so.
fn some_may_happen(owner: &Owner, judged: &Judged, reason: Reason) -> bool
    requires sound { IsSound owner.now }
    requires declared { IsDeclared (owner_of owner.now).spec.base (symbol_of reason) }
    requires judged { IsJudged (owner_of owner.now) judged.now }
    ensures { Decides result (SomeUpdate (owner_of owner.now) judged.now.template
        (λ c. MayHappen c reason)) }
{
    let base = &owner.spec().base;
    for effect in judged.effects.items() {
        if is_some(tags_for(base, effect, reason)) {
            return true;
        }
    }
    false
}

/// Whether the template may turn a literal false, which may turn so by these causes.
pub fn may_falsify(owner: &Owner, judged: &Judged, causes: &[Cause]) -> bool
    requires sound { IsSound owner.now }
    requires declared { All (IsOfDeclared (owner_of owner.now).spec.base) causes.now }
    requires judged { IsJudged (owner_of owner.now) judged.now }
    ensures { Decides result ((cause : CauseOf) × IsIn cause causes.now
        × SomeUpdate (owner_of owner.now) judged.now.template (λ c. MayHappen c cause.reason)) }
{
    for cause in causes {
        if some_may_happen(owner, judged, cause.reason) {
            return true;
        }
    }
    false
}

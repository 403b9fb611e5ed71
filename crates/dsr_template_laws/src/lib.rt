//! What the updates of templates do: laws on applications. What an update may change is told by the
//! table of its effect, and an update helps its literal.
//!
//! The functions do nothing when they run. Each carries its law as its contract.
#![tactic(auto)]

ghost use Rattle.std.specs.Prelude.{◌≡◌, ◌⊎◌, ◌∷◌, ℕ, [], true};
ghost use Rattle.dsr_repair_theory.specs.Changed.{IsGained, IsLost};
ghost use Rattle.dsr_effect_laws.specs.Allowed.{Lies};
ghost use Rattle.dsr_ir.specs.declared.constraints.Literal.{Literal};
ghost use Rattle.dsr_ir.specs.declared.tuples.Fact.{Fact};
ghost use Rattle.dsr_ir.specs.declared.updates.Place.TheVariants.{Head};
ghost use Rattle.dsr_ir.specs.declared.updates.Template.{Template};
ghost use Rattle.dsr_ir.specs.declared.updates.Update.{Update};
ghost use Rattle.dsr_ir.specs.declared.updates.Write.{Write};
ghost use Rattle.dsr_graph_theory.specs.Owners.{Owner};
ghost use Rattle.dsr_graph_theory.specs.Sides.{MayServe};
ghost use Rattle.dsr_meaning.specs.Counting.{IsIn};
ghost use Rattle.dsr_meaning.specs.Typed.{IsTyped, IsTypedLiteral};
ghost use Rattle.dsr_template_laws.specs.Helping.{IsHelped};
ghost use Rattle.dsr_template_laws.specs.Judging.{Application, IsListed, change_in};
ghost use Rattle.dsr_template_laws.specs.Tried.{IsTried, IsTriedAt};
ghost use Rattle.dsr_update_theory.specs.declared.effects.Direction.TheVariants.{Gain, Loss};

/// An indexed write of an update of a template that is tried, compensated or not, is its only
/// write, or the update writes the head.
pub fn indexed_writes_stand_alone()
    ensures { (owner : Owner) → IsTyped owner.spec → (literal : Literal)
        → IsTypedLiteral owner.spec owner.constraint.quant literal
        → (template : Template) (n : ℕ) (update : Update)
        → IsTriedAt owner literal template n update
        → (write : Write) → IsIn write update.writes → write.path.indexed ≡ true
        → (update.writes ≡ write ∷ []) ⊎ (update.place ≡ Head) }
{}

/// Each fact that the model gains or loses where an update is applied lies in the table of the
/// update's effect, under its symbol, with a tag that allows its record. The update is of a
/// template that is tried for the literal, compensated or not, and can be made as it is judged.
pub fn tried_updates_change_what_is_judged()
    ensures gains { (a : Application) → IsTried a
        → (fact : Fact) → IsGained a.spec a.layout a.old a.new fact
        → Lies (change_in a) a.step Gain fact }
    ensures losses { (a : Application) → IsTried a
        → (fact : Fact) → IsLost a.spec a.layout a.old a.new fact
        → Lies (change_in a) a.step Loss fact }
{}

/// Each fact that the model gains or loses where an update of a listed template is applied lies in
/// the table of the update's effect, under its symbol, with a tag that allows its record.
pub fn listed_updates_change_what_is_judged()
    ensures gains { (a : Application) (number : ℕ) → IsListed a number
        → (fact : Fact) → IsGained a.spec a.layout a.old a.new fact
        → Lies (change_in a) a.step Gain fact }
    ensures losses { (a : Application) (number : ℕ) → IsListed a number
        → (fact : Fact) → IsLost a.spec a.layout a.old a.new fact
        → Lies (change_in a) a.step Loss fact }
{}

/// Where an update of a template that is tried, compensated or not, can be made as it is judged and
/// serves what it is for, the literal is true after it was applied, or the update takes a fact
/// away, no instance of the rules of the literal's symbol becomes active, and one that was isn't
/// any more.
pub fn tried_updates_help()
    ensures { (a : Application) → IsTried a
        → MayServe a.template.goal a.applied.literal.atom a.step.update (change_in a) → IsHelped a }
{}

/// After an update of a listed template was applied the literal is true, or the update takes a fact
/// away, no instance of the rules of the literal's symbol becomes active, and one that was isn't
/// any more.
pub fn listed_updates_help()
    ensures { (a : Application) (number : ℕ) → IsListed a number → IsHelped a }
{}

// The plan that is taken is one: a law, the contract of a function that does nothing.
ghost use Rattle.std.specs.Prelude.{◌≡◌};
ghost use Rattle.dsr_ir.specs.declared.declarations.Spec.{Spec};
ghost use Rattle.dsr_plan_theory.specs.Taken.{IsTaken};
ghost use Rattle.dsr_plan_theory.specs.declared.choices.Choice.{Choice};

/// A specification has one plan that is taken, if any.
pub fn taken_plans_are_one()
    ensures { (spec : Spec) (choice other : Choice) → IsTaken spec choice → IsTaken spec other
        → choice ≡ other }
{}

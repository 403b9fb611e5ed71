// Which plan is taken, a law as the contract of a function that does nothing.
ghost use Rattle.dsr_ir.specs.declared.declarations.Spec.{Spec};
ghost use Rattle.dsr_plan_theory.specs.Taken.{IsTaken};
ghost use Rattle.dsr_plan_theory.specs.declared.choices.Choice.{Choice};
ghost use Rattle.dsr_removal.specs.Taking.{IsOfRounds};

/// The plan that is taken is the one that rounds give. Each round places all constraints that may
/// be first among those that are left, each literal gets the first template that breaks none of
/// these, and the last round has level 0.
pub fn taken_plans_are_of_rounds()
    ensures rounds { (spec : Spec) (choice : Choice) → IsTaken spec choice → IsOfRounds spec choice }
    ensures taken { (spec : Spec) (choice : Choice) → IsOfRounds spec choice → IsTaken spec choice }
{}

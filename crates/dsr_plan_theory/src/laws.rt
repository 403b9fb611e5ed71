// Which plans a specification has, each law the contract of a function that does nothing.
ghost use Rattle.std.specs.Prelude.{ℕ, List};
ghost use Rattle.dsr_ir.specs.declared.declarations.Spec.{Spec};
ghost use Rattle.dsr_meaning.specs.Counting.{IsIn};
ghost use Rattle.dsr_plan_theory.specs.Plans.{IsPlan};
ghost use Rattle.dsr_plan_theory.specs.Stuck.{IsStuck};
ghost use Rattle.dsr_plan_theory.specs.declared.choices.Choice.{Choice};

/// Where a set of constraints is stuck, and has a member, no choice is a plan.
pub fn stuck_sets_leave_no_plan()
    ensures { (spec : Spec) (members : List ℕ) (choice : Choice) (n : ℕ) → IsStuck spec (λ m. IsIn m members)
        → IsIn n members → IsPlan spec choice → ⊥ }
{}

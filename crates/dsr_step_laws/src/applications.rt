// That updates are applied: laws on applications.
ghost use Rattle.std.specs.Prelude.{◌≡◌, ◌≢◌};
ghost use Rattle.dsr_step_laws.specs.Examples.{Example};
ghost use Rattle.dsr_ir.specs.declared.updates.Goal.TheVariants.{ExactlyOne};
ghost use Rattle.dsr_ir.specs.declared.updates.Goal.{Goal};

/// For each goal there is an image to which an update towards it is applied, so nothing that is
/// said of all applications is said of none.
pub fn each_goal_has_an_application()
    ensures { (goal : Goal) → Example goal }
{}

/// For the goal of exactly one record two updates are applied: one that supplies a record, and one
/// that takes one of several away.
pub fn exactly_one_has_applications_of_both_kinds()
    ensures supplied { (e : Example ExactlyOne) × (e.step.update ≡ 0) }
    ensures trimmed { (e : Example ExactlyOne) × (e.step.update ≢ 0) }
{}

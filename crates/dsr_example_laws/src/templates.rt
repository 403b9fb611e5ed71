// That the laws on templates speak of something: an example for each goal.
ghost use Rattle.dsr_ir.specs.declared.updates.Goal.{Goal};
ghost use Rattle.dsr_ir.specs.declared.updates.Goal.TheVariants.{AddSet, AddTuple, RemoveSet, RemoveTuple, SetValue, Supply};
ghost use Rattle.dsr_example_laws.specs.Examples.{HasListedExample, HasTriedExample};

/// For each goal there is an application of which all holds that the laws on updates that are tried
/// ask for. Something that it changes lies in its table, and it helps its literal.
pub fn each_goal_has_a_tried_example()
    ensures { (goal : Goal) → HasTriedExample goal }
{}

/// Updates of listed templates are applied that add a member, a pair or a fresh target.
pub fn templates_that_add_are_listed()
    ensures member { HasListedExample AddSet }
    ensures pair { HasListedExample AddTuple }
    ensures fresh { HasListedExample Supply }
{}

/// Updates of listed templates are applied that set a value, and that take a member or a pair away.
pub fn templates_that_set_or_take_away_are_listed()
    ensures value { HasListedExample SetValue }
    ensures member { HasListedExample RemoveSet }
    ensures pair { HasListedExample RemoveTuple }
{}

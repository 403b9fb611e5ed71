// That the laws on the repair dependence graph speak of something: an example for each excuse.
ghost use Rattle.dsr_example_laws.specs.ExcusedCases.{ExcusedCase, Kind};

/// For each kind of excuse there is an application that would break another constraint but for it.
pub fn each_excuse_is_met()
    ensures { (kind : Kind) → ExcusedCase kind }
{}

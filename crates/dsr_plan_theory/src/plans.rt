// A choice that is a plan.
ghost use Rattle.std.specs.Prelude.{◌≡◌};
ghost use Rattle.dsr_plan_theory.specs.Plans.{IsPlan};

use crate::choices::Choice;
use dsr_ir::Spec;
use std::marker::Model;

/// A specification with a choice that is a plan for it.
#[derive(Drop)]
pub struct Plan<'a> {
    spec: &'a Spec,
    choice: Choice,
}

impl<'a> Model for Plan<'a> {
    ghost use Rattle.std.specs.Coded.{codes};
    ghost use Rattle.dsr_ir.specs.Exprs.{shape_code};
    ghost use Rattle.dsr_ir.specs.declared.declarations.Spec.{Spec as SpecOf};
    ghost use Rattle.dsr_plan_theory.specs.Plans.{IsPlan};
    ghost use Rattle.dsr_plan_theory.specs.declared.choices.Choice.{Choice as ChoiceOf};

    ghost Value = { SpecOf × ChoiceOf };

    ghost coded = { Prim.hlevel (codes, shape_code) };

    ghost view = { λ p. (p.spec.now, p.choice) };

    ghost invariant = { λ p. IsPlan p.spec.now p.choice };
}

impl<'a> Plan<'a> {
    /// Keeps a choice that is a plan.
    pub fn adopt(spec: &'a Spec, choice: Choice) -> Plan<'a>
        requires { IsPlan spec.now choice }
        ensures { result ≡ (spec.now, choice) }
    {
        Plan { spec, choice }
    }

    /// The specification that it is a plan for.
    pub fn spec(&self) -> &Spec
        ensures is { result.now ≡ self.now.0 }
        ensures plan { IsPlan result.now self.now.1 }
    {
        self.spec
    }

    /// The choice that is a plan.
    pub fn choice(&self) -> &Choice
        ensures is { result.now ≡ self.now.1 }
        ensures plan { IsPlan self.now.0 result.now }
    {
        &self.choice
    }
}

// What certificates mean, each law the contract of a function that does nothing.
ghost use Rattle.dsr_cert.specs.Certificates.{Fits};
ghost use Rattle.dsr_cert.specs.Flaws.{HasNoFlaw};
ghost use Rattle.dsr_graph.specs.Graphs.{IsGraphOf};
ghost use Rattle.dsr_graph.specs.declared.graphs.Graph.{Graph};
ghost use Rattle.dsr_ir.specs.declared.declarations.Spec.{Spec};
ghost use Rattle.dsr_plan_theory.specs.Plans.{IsPlan};
ghost use Rattle.dsr_plan_theory.specs.declared.choices.Choice.{Choice};

/// A choice that fits a specification with a graph is a plan where it has no flaw.
pub fn flawless_choices_are_plans()
    ensures { (spec : Spec) (graph : Graph) (choice : Choice) → IsGraphOf spec graph
        → Fits spec choice → HasNoFlaw spec choice → IsPlan spec choice }
{}

/// A plan has no flaw.
pub fn plans_have_no_flaw()
    ensures { (spec : Spec) (choice : Choice) → IsPlan spec choice → HasNoFlaw spec choice }
{}
